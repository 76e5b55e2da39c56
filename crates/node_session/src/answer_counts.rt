//! How many messages of each kind were answered, and how.

ghost use Rattle.std.specs.Prelude.{◌≤◌};

use riak_msgs::Text;
use std::alloc::{AllocError, Global};
use std::sync::atomic::{AtomicU64, Ordering};

/// What a message asks for, by its code.
#[derive(Clone, Copy, Drop, PartialEq, Eq)]
pub enum MessageKind {
    /// Code 1.
    Ping,
    /// Code 9.
    Get,
    /// Code 11.
    Put,
    /// Code 13.
    Delete,
    /// Any other code, which is no request's.
    Other,
}

/// All kinds.
const KINDS: [MessageKind; 5] = [
    MessageKind::Ping,
    MessageKind::Get,
    MessageKind::Put,
    MessageKind::Delete,
    MessageKind::Other,
];

/// How a message may be answered: as it asks for, or by one of 18 errors.
const OUTCOMES: usize = 19;

impl MessageKind {
    /// The kind of a message of this code.
    #[inline(always)]
    fn of_code(code: u8) -> MessageKind {
        match code {
            1 => MessageKind::Ping,
            9 => MessageKind::Get,
            11 => MessageKind::Put,
            13 => MessageKind::Delete,
            _ => MessageKind::Other,
        }
    }

    /// The place of its numbers.
    #[inline(always)]
    fn place(self) -> usize
        ensures { result ≤ 4 }
    {
        match self {
            MessageKind::Ping => 0,
            MessageKind::Get => 1,
            MessageKind::Put => 2,
            MessageKind::Delete => 3,
            MessageKind::Other => 4,
        }
    }
}

/// The place of an outcome among those of a kind: the first is no error's.
#[inline(always)]
fn outcome_place(error: Option<Text>) -> usize
    ensures { result ≤ 18 }
{
    let Some(text) = error else {
        return 0;
    };
    match text {
        Text::UnknownCode => 1,
        Text::BadMessage => 2,
        Text::MissingField => 3,
        Text::EmptyName => 4,
        Text::NoKey => 5,
        Text::NoMemory => 6,
        Text::MatchFound => 7,
        Text::Modified => 8,
        Text::NotFound => 9,
        Text::BadContext => 10,
        Text::TooManySiblings => 11,
        Text::ClockFull => 12,
        Text::EpochsUsedUp => 13,
        Text::CounterUsedUp => 14,
        Text::Moved => 15,
        Text::HistoryFull => 16,
        Text::BadFrame => 17,
        Text::FrameTooLarge => 18,
    }
}

/// How many messages of each kind a worker's sessions have answered by now, and how. Their thread alone counts. Every
/// thread may read the numbers at any time, each as it is then, without a lock.
///
/// A reply counts once it is made, before it is sent. The error for a bad length counts as one to a message of kind
/// `Other`.
#[derive(Drop)]
pub struct AnswerCounts {
    /// Of each kind a number for each outcome.
    numbers: Vec<AtomicU64>,
}

impl AnswerCounts {
    /// Nothing was answered.
    pub fn new(alloc: Global) -> Result<AnswerCounts, AllocError> {
        let count = KINDS.len() * OUTCOMES;
        let mut numbers = Vec::with_capacity(alloc, count)?;
        for _ in 0..count {
            numbers.push(AtomicU64::new(0))?;
        }
        Ok(AnswerCounts { numbers })
    }

    /// A message of this code was answered, by this error if it is one.
    #[inline(always)]
    pub(crate) fn count(&self, code: u8, error: Option<Text>) {
        let place = MessageKind::of_code(code).place() * OUTCOMES + outcome_place(error);
        if let Some(number) = self.numbers.get(place) {
            let _before = number.fetch_add(1, Ordering::Relaxed);
        }
    }

    /// How many messages of this kind were answered so: by this error, or by none.
    pub fn answered(&self, kind: MessageKind, error: Option<Text>) -> u64 {
        match self
            .numbers
            .get(kind.place() * OUTCOMES + outcome_place(error))
        {
            Some(number) => number.load(Ordering::Relaxed),
            None => 0,
        }
    }

    /// How many replies were this error.
    pub fn errors(&self, text: Text) -> u64 {
        let mut sum: u64 = 0;
        for kind in KINDS {
            sum = sum.saturating_add(self.answered(kind, Some(text)));
        }
        sum
    }

    /// How many puts were refused for want of memory.
    pub fn refused_puts(&self) -> u64 {
        self.answered(MessageKind::Put, Some(Text::NoMemory))
    }

    /// How many messages of this kind were answered.
    pub fn messages(&self, kind: MessageKind) -> u64 {
        let mut sum: u64 = 0;
        let first = kind.place() * OUTCOMES;
        for number in self.numbers.iter().skip(first).take(OUTCOMES) {
            sum = sum.saturating_add(number.load(Ordering::Relaxed));
        }
        sum
    }
}
