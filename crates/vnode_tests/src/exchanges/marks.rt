//! Changes made between two marks, for `scripts/maintain/count-allocations`: each mark is an allocation of a size that no other here
//! has, and the script sees that between the two of a test there is none.

use crate::exchanges::asking::{ask_of, taken};
use crate::exchanges::steps::{
    Ask, Command, Del, Done, FIRST, HasDead, ID, NONE, Put, PutWith, RETURN_BODY, Step,
};
use std::alloc::Global;
use std::process::Abort;
use tomb_reaper::{Swept, sweep};
use vnode_core::{Plan, Vnode};

/// Takes 4,099 bytes, and lets them go: whether it got them.
fn mark(alloc: Global) -> bool {
    match Vec::<u8>::with_capacity(alloc, 4_099) {
        Ok(bytes) => bytes.is_empty(),
        Err(_) => false,
    }
}

/// Plans a command, marks, makes its change, and marks again: whether there was a change to make.
fn finishes(vnode: &mut Vnode, alloc: Global, ask: vnode_core::Ask) -> bool {
    match vnode.prepare(alloc, ask) {
        Ok(Plan::Change(change)) => {
            let is_begun = mark(alloc);
            drop(vnode.finish(change));
            let is_ended = mark(alloc);
            is_begun && is_ended
        }
        Ok(Plan::Nothing(answer)) => {
            drop(answer);
            false
        }
        Err(_) => false,
    }
}

/// The same of a command, where it may be made.
fn makes(vnode: &mut Vnode, alloc: Global, command: Command<'_>) -> bool {
    match ask_of(alloc, command) {
        Ok(ask) => finishes(vnode, alloc, ask),
        Err(_) => false,
    }
}

/// A command that is made between two marks, and the steps before it and after it.
struct Marked {
    before: &'static [Step],
    command: Command<'static>,
    after: &'static [Step],
}

/// Whether all of it comes as expected with a new vnode.
fn is_made(alloc: Global, marked: &Marked) -> bool {
    let mut vnode = Vnode::new(alloc, ID, 1);
    let is_so = taken(&mut vnode, alloc, marked.before) == marked.before.len()
        && makes(&mut vnode, alloc, marked.command)
        && taken(&mut vnode, alloc, marked.after) == marked.after.len();
    drop(vnode);
    is_so
}

fn goes_between_marks(rt: &(impl Abort + AllocGlobal), marked: &Marked) {
    assert!(rt; is_made(rt.alloc(), marked));
}

const V_IS_PUT: &[Step] = &[Ask(Put(b"k", b"v", NONE), Done)];

const IS_DEAD: &[Step] = &[Ask(Put(b"k", b"v", NONE), Done), Ask(Del(b"k", NONE), Done)];

const A_PUT_OF_A_NEW_KEY: &Marked = &Marked {
    before: &[],
    command: Put(b"k", b"w", NONE),
    after: &[],
};

#[test]
fn a_put_of_a_new_key(rt: HostRuntime) {
    goes_between_marks(&rt, A_PUT_OF_A_NEW_KEY);
}

const AN_OVERWRITE: &Marked = &Marked {
    before: V_IS_PUT,
    command: Put(b"k", b"w", FIRST),
    after: &[],
};

#[test]
fn an_overwrite(rt: HostRuntime) {
    goes_between_marks(&rt, AN_OVERWRITE);
}

const A_PUT_THAT_SHOWS_BOTH: &Marked = &Marked {
    before: V_IS_PUT,
    command: PutWith(b"k", b"w", NONE, RETURN_BODY),
    after: &[],
};

#[test]
fn a_put_that_shows_both_siblings(rt: HostRuntime) {
    goes_between_marks(&rt, A_PUT_THAT_SHOWS_BOTH);
}

const A_DELETE: &Marked = &Marked {
    before: V_IS_PUT,
    command: Del(b"k", NONE),
    after: &[HasDead(None, true)],
};

#[test]
fn a_delete_that_leaves_a_key_dead(rt: HostRuntime) {
    goes_between_marks(&rt, A_DELETE);
}

const A_REAP: &Marked = &Marked {
    before: IS_DEAD,
    command: Command::Reap(b"k"),
    after: &[HasDead(None, false)],
};

#[test]
fn a_reap(rt: HostRuntime) {
    goes_between_marks(&rt, A_REAP);
}

const A_REAP_OF_THE_FIRST: &Marked = &Marked {
    before: IS_DEAD,
    command: Command::ReapFirst(None),
    after: &[HasDead(None, false)],
};

#[test]
fn a_reap_of_the_first_dead_key(rt: HostRuntime) {
    goes_between_marks(&rt, A_REAP_OF_THE_FIRST);
}

const A_DELETE_BY_A_CONTEXT: &Marked = &Marked {
    before: V_IS_PUT,
    command: Del(b"k", FIRST),
    after: &[HasDead(None, true)],
};

#[test]
fn a_delete_by_a_context(rt: HostRuntime) {
    goes_between_marks(&rt, A_DELETE_BY_A_CONTEXT);
}

const A_PUT_BY_A_CONTEXT_OF_SEVERAL_ACTORS: &Marked = &Marked {
    before: V_IS_PUT,
    command: Command::PutAfterOthers(5),
    after: &[],
};

#[test]
fn a_put_by_a_context_of_several_actors(rt: HostRuntime) {
    goes_between_marks(&rt, A_PUT_BY_A_CONTEXT_OF_SEVERAL_ACTORS);
}

const A_REAP_OF_THE_FIRST_FROM_A_KEY: &Marked = &Marked {
    before: IS_DEAD,
    command: Command::ReapFirst(Some(b"j")),
    after: &[HasDead(None, false)],
};

#[test]
fn a_reap_of_the_first_dead_key_from_a_key(rt: HostRuntime) {
    goes_between_marks(&rt, A_REAP_OF_THE_FIRST_FROM_A_KEY);
}

/// Three dead keys; then a sweep of two of them between two marks: whether there was such a one.
fn sweeps_between_marks(alloc: Global) -> bool {
    let mut vnode = Vnode::new(alloc, ID, 1);
    let is_dead = taken(&mut vnode, alloc, ARE_DEAD) == ARE_DEAD.len();
    let is_begun = mark(alloc);
    let swept = sweep(&mut vnode, None, 2);
    let is_ended = mark(alloc);
    drop(vnode);
    is_dead && is_begun && is_ended && swept == TWO_OF_THREE
}

const ARE_DEAD: &[Step] = &[
    Ask(Put(b"i", b"v", NONE), Done),
    Ask(Del(b"i", NONE), Done),
    Ask(Put(b"j", b"v", NONE), Done),
    Ask(Del(b"j", NONE), Done),
    Ask(Put(b"k", b"v", NONE), Done),
    Ask(Del(b"k", NONE), Done),
];

const TWO_OF_THREE: Swept = Swept {
    reaped: 2,
    more: true,
};

#[test]
fn a_sweep(rt: HostRuntime) {
    assert!(rt; sweeps_between_marks(rt.alloc()));
}
