//! What is wrong with a line that asks for no command.

ghost use Rattle.std.specs.Prelude.{◌≡◌, ◌↔◌, IsTrue, codes};
ghost use Rattle.control_text.specs.Answers.{mistake_text, usage_text};
ghost use Rattle.control_text.specs.Mistakes.{BeginsWith, EndsInBlank, EndsWord};
ghost use Rattle.control_text.specs.Mistakes.{IsMistakeIn, IsMistakeOf, NamesWord};

/// The word that a command begins with.
#[derive(Clone, Copy, Drop, PartialEq, Eq)]
pub enum Word {
    /// `help`, which stands alone.
    Help,
    /// `totals`, which stands alone.
    Totals,
    /// `stats`, which stands alone.
    Stats,
    /// `diverted`, which stands alone.
    Diverted,
    /// `divert`, before a partition.
    Divert,
    /// `copy`, before a partition and a number of keys.
    Copy,
    /// `return`, before a partition.
    Return,
    /// `stop`, which stands alone.
    Stop,
}

/// What is wrong with a line that asks for no command.
#[derive(Clone, Copy, Drop, PartialEq, Eq)]
pub enum Mistake {
    /// Its first word is no command's.
    NoSuchCommand,
    /// A space is its last byte.
    BlankBehind,
    /// What stands behind this word isn't what the command takes: too few numbers, too many, or others.
    Operands(Word),
}

impl Word {
    /// What a command of this word takes.
    fn usage(self) -> &'static str
        ensures { result.now ≡ usage_text self }
    {
        match self {
            Word::Help => "help takes no number",
            Word::Totals => "totals takes no number",
            Word::Stats => "stats takes no number",
            Word::Diverted => "diverted takes no number",
            Word::Divert => {
                "divert takes one number, a partition's, from 0 to 65535, as in: divert 3"
            }
            Word::Copy => {
                "copy takes two numbers, a partition's and how many keys, from 1 to 4294967295, as in: copy 3 100"
            }
            Word::Return => {
                "return takes one number, a partition's, from 0 to 65535, as in: return 3"
            }
            Word::Stop => "stop takes no number",
        }
    }
}

impl Mistake {
    /// The mistake in words.
    pub(crate) fn text(self) -> &'static str
        ensures { result.now ≡ mistake_text self }
    {
        match self {
            Mistake::NoSuchCommand => "no such command; help lists them",
            Mistake::BlankBehind => "a blank stands behind the last word",
            Mistake::Operands(word) => word.usage(),
        }
    }
}

/// Whether a word ends where this text begins.
fn ends_word(rest: &[u8]) -> bool
    ensures { IsTrue result ↔ EndsWord rest.now }
{
    match rest {
        [] => true,
        [first, ..] => *first == b' ',
    }
}

/// Whether a text's first word is this one.
fn begins_with(text: &[u8], word: &[u8]) -> bool
    ensures { IsTrue result ↔ BeginsWith word.now text.now }
{
    match text.strip_prefix(word) {
        Some(rest) => ends_word(rest),
        None => false,
    }
}

/// Whether a space is a text's last byte.
fn ends_in_blank(text: &[u8]) -> bool
    ensures { IsTrue result ↔ EndsInBlank text.now }
{
    match text.strip_suffix(b" ") {
        Some(_) => true,
        None => false,
    }
}

/// The command's word that a text begins with.
fn word_of(text: &[u8]) -> Option<Word>
    ensures { NamesWord text.now result }
{
    if begins_with(text, b"help") {
        return Some(Word::Help);
    }
    if begins_with(text, b"totals") {
        return Some(Word::Totals);
    }
    if begins_with(text, b"stats") {
        return Some(Word::Stats);
    }
    if begins_with(text, b"diverted") {
        return Some(Word::Diverted);
    }
    if begins_with(text, b"divert") {
        return Some(Word::Divert);
    }
    if begins_with(text, b"copy") {
        return Some(Word::Copy);
    }
    if begins_with(text, b"return") {
        return Some(Word::Return);
    }
    if begins_with(text, b"stop") {
        return Some(Word::Stop);
    }
    None
}

/// What is wrong with a text that is no command's.
fn mistake_of(text: &[u8]) -> Mistake
    ensures { IsMistakeOf text.now result }
{
    if ends_in_blank(text) {
        return Mistake::BlankBehind;
    }
    match word_of(text) {
        Some(word) => Mistake::Operands(word),
        None => Mistake::NoSuchCommand,
    }
}

/// What is wrong with a line that asks for no command, as [`read_command`](crate::read_command) has
/// found. The line comes without its line feed, and may end in one carriage return (byte 0d), which
/// doesn't count.
///
/// A blank behind the last word is told first, then a first word that is no command's. Else the first
/// word is one, and what stands behind it isn't what that takes.
pub fn mistake_in(line: &[u8]) -> Mistake
    ensures is { IsMistakeIn line.now result }
{
    match line.strip_suffix(b"\r") {
        Some(text) => mistake_of(text),
        None => mistake_of(line),
    }
}
