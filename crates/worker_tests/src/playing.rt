//! Sessions by nodes of their own over the gates of a run, and what they come to.
ghost use Rattle.std.specs.Prelude.{◌≡◌, vec_len, IfSome};
ghost use Rattle.stats_book.specs.Holdings.{AllAre};
ghost use Rattle.gate_node.specs.Passes.{ArePassesOf};

use crate::exchanges::NOTHING_COUNTED;
use gate_node::{GateNode, GivenUp, PartitionCache, Passes, Reserve, Shared, Turnstile};
use node_session::{Node, serve};
use stats_book::{Blanks, Book, CountReplies, Quantity, Share, Totals, close};
use std::alloc::Global;
use std::marker::Brand;
use std::sync::Wait;
use std::sync::ledger::Ledger;

/// A session by a node of its own, and what it comes to.
#[derive(Clone, Copy)]
pub struct Session {
    /// Whether the node's thread keeps memory back, and remembers the partition of a key.
    pub has_reserve: bool,
    /// How many gets the node's share has counted before.
    pub gets_before: u64,
    pub requests: &'static [u8],
    pub replies: &'static [u8],
    /// Whether the book had no room for some of what was to be counted.
    pub is_book_full: bool,
    /// What the book has when it is closed.
    pub totals: Totals,
}

/// A session without requests, whose share has counted nothing before, by a node that keeps nothing back. Sessions of a test say what is
/// other.
pub const NEW_SESSION: Session = Session {
    has_reserve: false,
    gets_before: 0,
    requests: b"",
    replies: b"",
    is_book_full: false,
    totals: NOTHING_COUNTED,
};

/// The requests of a session get its replies.
fn answers<W: Wait, T: Turnstile, C: CountReplies>(
    alloc: Global,
    node: &mut GateNode<'_, W, T, C>,
    session: &Session,
) -> bool
    ensures { node.new.shared ≡ node.old.shared }
{
    let mut reader = session.requests;
    let mut written = Vec::new(alloc);
    let result = serve(alloc, &mut reader, &mut written, node, 100);
    result.is_ok() && written.as_slice() == session.replies
}

/// Whether a node gives memory up just where its thread keeps some back, as often as it is asked to.
fn gives_up<W: Wait, T: Turnstile, C: CountReplies>(
    alloc: Global,
    node: &GateNode<'_, W, T, C>,
    has_reserve: bool,
) -> bool {
    node.make_room(alloc) == has_reserve && node.make_room(alloc) == has_reserve
}

/// Whether a node with this share, whose thread keeps memory back and remembers the partition of a key, answers as the session says, and finds the book as full; and its passes.
fn serve_keeping<W: Wait, T: Turnstile, G: Ledger, P: Ledger, D: Ledger, E: Ledger, R: Ledger>(
    rt: &W,
    alloc: Global,
    shared: &Shared,
    turnstile: &T,
    session: &Session,
    book: &Book<G, P, D, E, R>,
    share: Share<G, P, D, E, R>,
    passes: Passes,
) -> (Share<G, P, D, E, R>, Passes, bool)
    requires { ArePassesOf shared.now passes }
    ensures { ArePassesOf shared.now result.1 }
{
    let given_up = GivenUp::new();
    let reserve = Reserve::new(alloc, &given_up);
    let node = GateNode::new(rt, shared, book, share, passes, turnstile);
    let partitions = PartitionCache::new(alloc, shared.handoff().ring(), 1);
    let mut kept = node.with_reserve(&reserve).with_partitions(&partitions);
    let is_given_up = gives_up(alloc, &kept, true);
    let is_answered = answers(alloc, &mut kept, session);
    let (share, passes, is_book_full) = kept.parts();
    (
        share,
        passes,
        is_given_up && is_answered && is_book_full == session.is_book_full,
    )
}

/// The same of one whose thread keeps none back.
fn serve_by<W: Wait, T: Turnstile, G: Ledger, P: Ledger, D: Ledger, E: Ledger, R: Ledger>(
    rt: &W,
    alloc: Global,
    shared: &Shared,
    turnstile: &T,
    session: &Session,
    book: &Book<G, P, D, E, R>,
    share: Share<G, P, D, E, R>,
    passes: Passes,
) -> (Share<G, P, D, E, R>, Passes, bool)
    requires { ArePassesOf shared.now passes }
    ensures { ArePassesOf shared.now result.1 }
{
    let mut node = GateNode::new(rt, shared, book, share, passes, turnstile);
    let is_given_up = gives_up(alloc, &node, false);
    let is_answered = answers(alloc, &mut node, session);
    let (share, passes, is_book_full) = node.parts();
    (
        share,
        passes,
        is_given_up && is_answered && is_book_full == session.is_book_full,
    )
}

/// The same of one that keeps memory back, or doesn't, as the session says.
fn serve_as_said<W: Wait, T: Turnstile, G: Ledger, P: Ledger, D: Ledger, E: Ledger, R: Ledger>(
    rt: &W,
    alloc: Global,
    shared: &Shared,
    turnstile: &T,
    session: &Session,
    book: &Book<G, P, D, E, R>,
    share: Share<G, P, D, E, R>,
    passes: Passes,
) -> (Share<G, P, D, E, R>, Passes, bool)
    requires { ArePassesOf shared.now passes }
    ensures { ArePassesOf shared.now result.1 }
{
    if session.has_reserve {
        return serve_keeping(rt, alloc, shared, turnstile, session, book, share, passes);
    }
    serve_by(rt, alloc, shared, turnstile, session, book, share, passes)
}

/// The passes of a node with the one share of this book, which has counted some gets before. None where it doesn't answer and count as
/// the session says.
fn play_in<W: Wait, T: Turnstile, G: Ledger, P: Ledger, D: Ledger, E: Ledger, R: Ledger>(
    rt: &W,
    alloc: Global,
    shared: &Shared,
    turnstile: &T,
    session: &Session,
    book: Book<G, P, D, E, R>,
    mut shares: Vec<Share<G, P, D, E, R>>,
    passes: Passes,
) -> Option<Passes>
    requires passes { ArePassesOf shared.now passes }
    requires one { vec_len shares ≡ 1 }
    requires parts { AllAre 1 G.parts P.parts D.parts E.parts R.parts }
    ensures { IfSome result (ArePassesOf shared.now) }
{
    let mut share = shares.swap_remove(0);
    let _ = share.add(rt, &book, Quantity::Gets, session.gets_before);
    let (share, passes, is_well) = serve_as_said(
        rt, alloc, shared, turnstile, session, &book, share, passes,
    );
    shares.push_reserved(share);
    let totals = close(book, shares);
    if is_well && totals == session.totals {
        Some(passes)
    } else {
        None
    }
}

/// The passes of a new node over these gates, with these passes, after a session. None where that doesn't come to what it says.
fn play_by<W: Wait, T: Turnstile, G: Ledger, P: Ledger, D: Ledger, E: Ledger, R: Ledger>(
    rt: &W,
    alloc: Global,
    shared: &Shared,
    turnstile: &T,
    session: &Session,
    passes: Passes,
    blanks: Blanks,
) -> Option<Passes>
    requires passes { ArePassesOf shared.now passes }
    requires gets { (blanks.gets.name ≡ G.name) × (blanks.gets.parts ≡ G.parts) }
    requires puts { (blanks.puts.name ≡ P.name) × (blanks.puts.parts ≡ P.parts) }
    requires deletes { (blanks.deletes.name ≡ D.name) × (blanks.deletes.parts ≡ D.parts) }
    requires refusals { (blanks.refusals.name ≡ E.name) × (blanks.refusals.parts ≡ E.parts) }
    requires reaps { (blanks.reaps.name ≡ R.name) × (blanks.reaps.parts ≡ R.parts) }
    requires parts { AllAre 1 G.parts P.parts D.parts E.parts R.parts }
    ensures { IfSome result (ArePassesOf shared.now) }
{
    match Book::<G, P, D, E, R>::new(alloc, 1, blanks) {
        Ok((book, shares)) => play_in(rt, alloc, shared, turnstile, session, book, shares, passes),
        Err(_) => None,
    }
}

/// The same by ledgers that no caller names.
pub fn play_on<W: Wait, T: Turnstile>(
    rt: &W,
    alloc: Global,
    shared: &Shared,
    turnstile: &T,
    session: &Session,
    passes: Passes,
) -> Option<Passes>
    requires { ArePassesOf shared.now passes }
    ensures { IfSome result (ArePassesOf shared.now) }
{
    let blanks = Blanks::new(1);
    play_by::<W, T, Brand, Brand, Brand, Brand, Brand>(
        rt, alloc, shared, turnstile, session, passes, blanks,
    )
}

/// Whether a session by a new node over these gates, with new passes, comes to what it says.
pub fn play<W: Wait, T: Turnstile>(
    rt: &W,
    alloc: Global,
    shared: &Shared,
    turnstile: &T,
    session: &Session,
) -> bool {
    match Passes::new(alloc, shared) {
        Ok(passes) => play_on(rt, alloc, shared, turnstile, session, passes).is_some(),
        Err(_) => false,
    }
}
