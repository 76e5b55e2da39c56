//! Many keys that come back by one copy back, and a partition that is diverted many times. The id of its fallbacks is 98,304.
use crate::copy_race::worker::{Part, take};
use crate::diversions::divert;
use crate::exchanges::{STORED, new_shared};
use crate::returns::{
    Call, Copies, Course, Finish, ONE_PARTITION, Turn, comes, copies, finishes, play_course,
};
use gate_node::Shared;
use std::alloc::{AllocError, Global};
use std::process::Abort;
use std::sync::Wait;
use std::test::*;

/// The numbers from the first to before the end. Each is put once, on a key of its own, when its fallbacks have given as many epochs.
#[derive(Clone, Copy)]
pub struct Numbers {
    pub first: u16,
    pub end: u16,
}

/// Requests, and the replies to them.
#[derive(Drop)]
struct Exchange {
    requests: Vec<u8>,
    replies: Vec<u8>,
}

/// Appends a put of a number on the key of its two bytes of b, without context: stored.
fn add_put(exchange: &mut Exchange, number: u16) -> Result<(), AllocError> {
    let bytes = number.to_be_bytes();
    exchange
        .requests
        .extend_from_slice(b"\0\0\0\x0e\x0b\x0a\x01b\x12\x02")?;
    exchange.requests.extend_from_slice(&bytes)?;
    exchange.requests.extend_from_slice(b"\x22\x04\x0a\x02")?;
    exchange.requests.extend_from_slice(&bytes)?;
    exchange.replies.extend_from_slice(STORED)
}

/// Appends a get of a number's key: the number, with the first dot of its epoch, which is one more.
fn add_get(exchange: &mut Exchange, number: u16) -> Result<(), AllocError> {
    let bytes = number.to_be_bytes();
    let epoch = u32::from(number).saturating_add(1);
    exchange
        .requests
        .extend_from_slice(b"\0\0\0\x08\x09\x0a\x01b\x12\x02")?;
    exchange.requests.extend_from_slice(&bytes)?;
    exchange
        .replies
        .extend_from_slice(b"\0\0\0\x1e\x0a\x0a\x04\x0a\x02")?;
    exchange.replies.extend_from_slice(&bytes)?;
    exchange
        .replies
        .extend_from_slice(b"\x12\x15\x02\0\0\0\0\0\x01\x80\0")?;
    exchange.replies.extend_from_slice(&epoch.to_be_bytes())?;
    exchange.replies.extend_from_slice(b"\0\0\0\0\0\0\0\x01")
}

/// Nothing is asked.
fn no_exchange(alloc: Global) -> Exchange {
    Exchange {
        requests: Vec::new(alloc),
        replies: Vec::new(alloc),
    }
}

/// Puts of these numbers.
fn exchange_of_puts(alloc: Global, numbers: Numbers) -> Result<Exchange, AllocError> {
    let mut exchange = no_exchange(alloc);
    for number in numbers.first..numbers.end {
        add_put(&mut exchange, number)?;
    }
    Ok(exchange)
}

/// Gets of these numbers.
fn exchange_of_gets(alloc: Global, numbers: Numbers) -> Result<Exchange, AllocError> {
    let mut exchange = no_exchange(alloc);
    for number in numbers.first..numbers.end {
        add_get(&mut exchange, number)?;
    }
    Ok(exchange)
}

/// Whether a new node over these gates answers as it should.
fn answers<W: Wait>(rt: &W, alloc: Global, shared: &Shared, exchange: &Exchange) -> bool {
    match take(
        rt,
        alloc,
        shared,
        Part::Frames(exchange.requests.as_slice()),
    ) {
        Some(done) => done.written.as_slice() == exchange.replies.as_slice(),
        None => false,
    }
}

/// Whether puts of these numbers are stored.
pub fn puts<W: Wait>(rt: &W, alloc: Global, shared: &Shared, numbers: Numbers) -> bool {
    match exchange_of_puts(alloc, numbers) {
        Ok(exchange) => answers(rt, alloc, shared, &exchange),
        Err(_) => false,
    }
}

/// Whether gets of these numbers show them, each with the first dot of its epoch.
pub fn gets<W: Wait>(rt: &W, alloc: Global, shared: &Shared, numbers: Numbers) -> bool {
    match exchange_of_gets(alloc, numbers) {
        Ok(exchange) => answers(rt, alloc, shared, &exchange),
        Err(_) => false,
    }
}

/// So many numbers from 0 on.
const ELEVEN_HUNDRED: Numbers = Numbers {
    first: 0,
    end: 1_100,
};

/// What comes back of eleven hundred keys.
const ELEVEN_HUNDRED_KEYS: &[Course] = &[Course {
    shows: "eleven hundred keys come back by one copy back",
    turns: &[
        Turn::Divert,
        Turn::Call(Call::Puts(ELEVEN_HUNDRED)),
        Turn::Call(Call::Gets(ELEVEN_HUNDRED)),
        copies!(2_000 => 1_100, 0, 0),
        finishes!(Returned),
        Turn::Call(Call::Gets(ELEVEN_HUNDRED)),
    ],
    ..ONE_PARTITION
}];

#[test]
fn more_than_a_thousand_keys_come_back(rt: HostRuntime) {
    for course in ELEVEN_HUNDRED_KEYS {
        assert!(rt; play_course(&rt, rt.alloc(), course), "{}", course.shows);
    }
}

/// How often the partition is diverted.
const DIVERSIONS: u16 = 120;

/// Whether the fallback of the partition's last diversion, behind so many, answers a put and gets, and is returned, and then the primary answers.
fn is_returned<W: Wait>(rt: &W, alloc: Global, shared: &Shared, before: u16) -> bool {
    let one = Numbers {
        first: before,
        end: before.saturating_add(1),
    };
    let calls = [
        Call::Number(u32::from(before).saturating_add(1)),
        Call::Puts(one),
        Call::Gets(one),
        Call::Copy(Copies {
            budget: 10,
            keys: 1,
            stuck: 0,
            left: 0,
        }),
        Call::Finish(Finish::Returned),
        Call::Gets(one),
    ];
    for call in &calls {
        if !comes(rt, alloc, shared, 0, call) {
            return false;
        }
    }
    true
}

/// The gates behind a further diversion of their partition, behind so many. None where that doesn't come to what it should.
fn divert_and_return<W: Wait>(
    rt: &W,
    alloc: Global,
    shared: Shared,
    before: u16,
) -> Option<Shared> {
    match divert(alloc, shared, 0, 0) {
        Some(shared) => {
            if is_returned(rt, alloc, &shared, before) {
                Some(shared)
            } else {
                None
            }
        }
        None => None,
    }
}

/// Whether the partition of these gates is diverted and returned again and again, and its primary shows what all fallbacks took.
fn come_back<W: Wait>(rt: &W, alloc: Global, shared: Shared) -> bool {
    let mut shared = shared;
    for before in 0..DIVERSIONS {
        match divert_and_return(rt, alloc, shared, before) {
            Some(next) => shared = next,
            None => return false,
        }
    }
    let all = Numbers {
        first: 0,
        end: DIVERSIONS,
    };
    gets(rt, alloc, &shared, all)
}

/// The same over new gates.
fn come_back_anew<W: Wait>(rt: &W, alloc: Global) -> bool {
    match new_shared(alloc, 1, 0) {
        Some(shared) => come_back(rt, alloc, shared),
        None => false,
    }
}

#[test]
fn a_hundred_and_twenty_diversions_come_back(rt: HostRuntime) {
    assert!(rt; come_back_anew(&rt, rt.alloc()));
}
