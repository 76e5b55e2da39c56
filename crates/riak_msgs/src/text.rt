//! The texts of errors.

ghost use Rattle.std.specs.Prelude.{◌≡◌, find};
ghost use Rattle.std.specs.Str.{bytes_eq};
ghost use Rattle.riak_msgs.specs.ReadingReplies.{text_named};
ghost use Rattle.riak_msgs.specs.Text.{text_bytes};

/// The error message of a reply: why a request was refused or a stream ended.
#[derive(Clone, Copy, Drop, PartialEq, Eq)]
pub enum Text {
    UnknownCode,
    BadMessage,
    MissingField,
    EmptyName,
    NoKey,
    NoMemory,
    MatchFound,
    Modified,
    NotFound,
    BadContext,
    TooManySiblings,
    ClockFull,
    EpochsUsedUp,
    CounterUsedUp,
    Moved,
    HistoryFull,
    BadFrame,
    FrameTooLarge,
}

/// The text itself. All of them are shorter than 123 bytes.
pub fn text_of(text: Text) -> &'static [u8]
    ensures { result.now ≡ text_bytes text }
{
    match text {
        Text::UnknownCode => b"unknown message code",
        Text::BadMessage => b"bad message",
        Text::MissingField => b"missing field",
        Text::EmptyName => b"empty name",
        Text::NoKey => b"key required",
        Text::NoMemory => b"no memory",
        Text::MatchFound => b"match_found",
        Text::Modified => b"modified",
        Text::NotFound => b"notfound",
        Text::BadContext => b"bad context",
        Text::TooManySiblings => b"too many siblings",
        Text::ClockFull => b"clock full",
        Text::EpochsUsedUp => b"epochs used up",
        Text::CounterUsedUp => b"counter used up",
        Text::Moved => b"moved",
        Text::HistoryFull => b"history full",
        Text::BadFrame => b"bad frame",
        Text::FrameTooLarge => b"frame too large",
    }
}

// All texts.
const ALL: [Text; 18] = [
    Text::UnknownCode,
    Text::BadMessage,
    Text::MissingField,
    Text::EmptyName,
    Text::NoKey,
    Text::NoMemory,
    Text::MatchFound,
    Text::Modified,
    Text::NotFound,
    Text::BadContext,
    Text::TooManySiblings,
    Text::ClockFull,
    Text::EpochsUsedUp,
    Text::CounterUsedUp,
    Text::Moved,
    Text::HistoryFull,
    Text::BadFrame,
    Text::FrameTooLarge,
];

/// The error whose text has these bytes.
pub(crate) fn text_named(bytes: &[u8]) -> Option<Text>
    ensures { result ≡ text_named bytes.now }
{
    named_in(&ALL, bytes)
}

// The first of these texts that has these bytes.
fn named_in(texts: &[Text], bytes: &[u8]) -> Option<Text>
    ensures { result ≡ find (λ text. bytes_eq (text_bytes text) bytes.now) texts.now }
{
    for text in texts {
        if text_of(*text) == bytes {
            return Some(*text);
        }
    }
    None
}
