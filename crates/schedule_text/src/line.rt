//! The step that a line asks for.

ghost use Rattle.schedule_text.specs.Lines.{NamesInnerStep, NamesStep};

use riak_msgs::{Key, Request};

/// How many lines a schedule has at most: each further one is a bad step.
pub const MAX_LINES: u64 = 100_000;

/// The step that a line asks for.
#[derive(Drop)]
pub enum Line {
    /// The worker of this number, from 1, does something.
    By(u16, LineAction),
    /// The partition of this index, from 0, is diverted to a fallback.
    Divert(u16),
    /// The worker of the first number closes the fallback of the partition of the second, its index.
    Close(u16, u16),
}

/// What a worker does in a step.
#[derive(Drop)]
pub enum LineAction {
    /// It is asked this get, put or delete.
    Ask(Request),
    /// It is asked to do this with a key.
    Key(KeyStep, Key),
    /// It takes a step at its vnode's gate.
    Gate(GateStep),
}

/// What a worker is asked to do with a key.
#[derive(Clone, Copy, Debug, Drop, PartialEq, Eq)]
pub enum KeyStep {
    /// Forget it, where it is dead.
    Reap,
    /// Copy it back, from the fallback of its partition to the primary.
    Copy,
}

/// A step of a worker at the gate of the vnode that it was asked for.
#[derive(Clone, Copy, Debug, Drop, PartialEq, Eq)]
pub enum GateStep {
    /// Enters as a reader.
    Enter,
    /// Leaves as a reader.
    Leave,
    /// Marks the gate, so that no reader enters.
    Mark,
    /// Takes the mark away.
    Unmark,
    /// Takes the state out, to write.
    Take,
    /// Puts the state back, which unmarks the gate.
    Put,
    /// Looks at the state.
    Look,
    /// Publishes its command as the next event.
    Publish,
}

impl GateStep {
    /// The step that has this word.
    pub(crate) fn named(word: &[u8]) -> Option<GateStep>
        ensures { NamesStep word.now result }
    {
        match GateStep::named_inside(word) {
            Some(step) => Some(step),
            None => match word {
                b"enter" => Some(GateStep::Enter),
                b"leave" => Some(GateStep::Leave),
                b"mark" => Some(GateStep::Mark),
                b"unmark" => Some(GateStep::Unmark),
                _ => None,
            },
        }
    }

    /// The step that has this word, of those that take the state out, see it, change it and put it back.
    fn named_inside(word: &[u8]) -> Option<GateStep>
        ensures { NamesInnerStep word.now result }
    {
        match word {
            b"take" => Some(GateStep::Take),
            b"put" => Some(GateStep::Put),
            b"look" => Some(GateStep::Look),
            b"publish" => Some(GateStep::Publish),
            _ => None,
        }
    }
}
