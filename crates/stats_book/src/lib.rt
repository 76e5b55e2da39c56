//! A book of five numbers that many threads raise, and shares by which its sums are proved.
//!
//! What it means: each worker has a share, which says what it has counted (`specs/Counting`:
//! `raised`). A share has no bytes; it exists so that clauses can speak of it. The book has the
//! sums: [`close`] is given the book and all its shares, and answers numbers that are the sums of
//! what the shares have counted (`sum_of`), whatever threads added them, in whatever order. No
//! count is lost and none is made up.
//!
//! A session counts its replies by a [`CountReplies`], which also keeps whether there was no room
//! for some of them (`specs/Counter`). A [`SessionCount`] counts by itself, with no book: who has
//! served the session adds its numbers to [`Totals`] of his own, all five or none
//! ([`Totals::add`]). It may raise [`LiveTotals`] as well, which other threads read meanwhile. A [`ReplyCounter`] counts for a share of a book, with no lock, until it is
//! taken apart and its counts are in the share and in the book.
//!
//! What it costs: an addition to a book is one lock and one sum with a test for overflow.
//! [`Book::new`] takes memory for the vector of shares; nothing else does.
//!
//! How it is built: the numbers lie under one mutex, each beside the book of a ledger
//! (`std::sync::ledger`). A share has one part of each of the five ledgers; whoever has all parts
//! has the ledger's whole total.
//!
//! ```text
//! Book::new(alloc, 2, blanks)                 a book of zeros, and shares a and b
//! a.add(rt, &book, Quantity::Gets, 3)         a has counted 3 gets
//! b.add(rt, &book, Quantity::Gets, 4)         b has counted 4 gets
//! close(book, shares)                         7 gets, and 0 of the rest
//! ```
//!
//! # Proved
//!
//! Beside what the head says: an addition raises the share and the book by the same amount, or says
//! that the book is full. A `SessionCount` and a `ReplyCounter` count each reply and each reap, or
//! keep that there was no room. By `Book::new`, `Sums::add`, `Share::add`, `close`, `Totals::add`,
//! and the calls of `SessionCount` and `ReplyCounter`.
//!
//! # Open
//!
//! That a book of several shares is full if it is said to be.
#![tactic(auto)]

mod blanks;
mod book;
mod count;
mod count_replies;
mod counter;
mod fault;
mod holding;
mod live_totals;
mod quantity;
mod session_count;
mod share;
mod sums;
mod totals;

pub use blanks::Blanks;
pub use book::{Book, Opened, close};
pub use count_replies::CountReplies;
pub use counter::ReplyCounter;
pub use fault::BookFault;
pub use live_totals::LiveTotals;
pub use quantity::Quantity;
pub use session_count::SessionCount;
pub use share::Share;
pub use sums::Sums;
pub use totals::Totals;
