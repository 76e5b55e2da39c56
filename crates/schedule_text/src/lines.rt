//! The lines of a text.

ghost use Rattle.std.specs.Prelude.{◌≡◌, ◌<◌, ◌∷◌, length};
ghost use Rattle.schedule_text.specs.Cuts.{lines_of};

use crate::cut::cut_at;
use std::marker::Model;

/// The lines of a text, from the first: each is ended by a line feed (byte 0a), which isn't part of it
/// and which the last may lack. An empty text has no line. Contracts see the list of the lines that are
/// left.
#[derive(Drop)]
pub struct Lines<'a> {
    rest: &'a [u8],
}

impl<'a> Model for Lines<'a> {
    ghost use Rattle.std.specs.Prelude.{List, ℕ};
    ghost use Rattle.schedule_text.specs.Cuts.{lines_of};

    ghost Value = { List (List ℕ) };

    ghost view = { λ l. lines_of l.rest.now };
}

impl<'a> Lines<'a> {
    /// The lines of a text.
    pub fn new(text: &'a [u8]) -> Lines<'a>
        ensures { result ≡ lines_of text.now }
    {
        Lines { rest: text }
    }
}

/// The first line of a text that isn't empty, and the text behind it and its line feed.
#[tactic(auto, using(crate::proofs::Cutting::lines_cut, crate::proofs::Cutting::lines_uncut))]
fn cut_line(text: &[u8]) -> (&[u8], &[u8])
    requires { 0 < length text.now }
    ensures { lines_of text.now ≡ result.0.now ∷ lines_of result.1.now }
{
    match cut_at(text, b'\n') {
        Some(cut) => cut,
        None => text.split_at(text.len()),
    }
}

impl<'a> Iterator for Lines<'a> {
    type Item = &'a [u8];

    ghost use Rattle.std.specs.Prelude.{length};
    ghost use Rattle.std.specs.Iterator.{YieldsFirstRef, at_most};

    ghost next_gives = { YieldsFirstRef (λ l. l) };

    ghost remaining = { λ l. at_most (length l) };

    fn next(&mut self) -> Option<&'a [u8]> {
        if self.rest.is_empty() {
            return None;
        }
        let (line, rest) = cut_line(self.rest);
        self.rest = rest;
        Some(line)
    }
}
