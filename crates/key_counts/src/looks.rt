//! What the vnode of a gate stores, by looks under rights to read.

ghost use Rattle.std.specs.Prelude.{◌≡◌, IfNone, IfOk, IfSome};
ghost use mathlib.Core.List.{IsPrefix};
ghost use Rattle.handoff.specs.Sights.{IsOfVnode};
ghost use Rattle.key_counts.specs.Looks.{IsCountedBy, IsPiece, ShowsStretch};

use crate::counts::{KeyCounts, Stretch, count_stretch};
use ghost_state::GhostList;
use handoff::{Gate, Pass, ReadRight, Vnode};
use riak_msgs::Key;
use std::alloc::{AllocError, Global};
use std::snapshot::Snapshot;
use std::sync::Wait;

/// What was counted of a vnode at one look, and where: what the rest says but `stretch` is for clauses alone.
#[derive(Drop)]
pub struct Piece {
    /// The key behind which it began; None where that was the first.
    pub behind: Snapshot<Option<Key>>,
    /// The key at which it ended; of the last piece the one behind which it began.
    pub up_to: Snapshot<Option<Key>>,
    pub stretch: Stretch,
    /// What the count's pass had seen then.
    pub pass: Snapshot<Pass<Vnode>>,
}

/// What a vnode stored, counted in pieces.
pub struct Counted {
    pub counts: KeyCounts,
    /// The pass by which that was seen, made for this count, as it was behind the last look.
    pub pass: Pass<Vnode>,
    /// The pieces, for clauses alone.
    pub pieces: GhostList<Piece>,
}

/// One call at each place where one is let go.
impl Drop for Counted {
    fn drop(self) {
        let Counted {
            counts: _counts,
            pass: _pass,
            pieces: _pieces,
        } = self;
    }
}

/// What a vnode stores behind a key under a right to read, which the caller gives back. None where the
/// history had gone on past the state that was found.
fn look_under(
    alloc: Global,
    right: &ReadRight<'_, Vnode>,
    pass: &mut Pass<Vnode>,
    at: &mut Option<Key>,
) -> Result<Option<Stretch>, AllocError>
    requires gate { pass.old.gate ≡ right.now.gate }
    requires vnode { IsOfVnode right.now.gate }
    ensures gate { pass.new.gate ≡ right.now.gate }
    ensures later { IsPrefix pass.old.prefix pass.new.prefix }
    ensures some { IfOk result (λ seen. IfSome seen (ShowsStretch pass.new at.old at.new)) }
    ensures none { IfOk result (λ seen. IfNone seen (at.new ≡ at.old)) }
{
    let Ok(vnode) = right.look(pass) else {
        return Ok(None);
    };
    match count_stretch(alloc, vnode, at) {
        Ok(stretch) => Ok(Some(stretch)),
        Err(error) => Err(error),
    }
}

/// What the vnode of a gate stores behind a key, at one look. None where the history had gone on past the
/// state that was found.
fn look<R: Wait>(
    rt: &R,
    alloc: Global,
    gate: &Gate<Vnode>,
    pass: &mut Pass<Vnode>,
    at: &mut Option<Key>,
) -> Result<Option<Stretch>, AllocError>
    requires gate { pass.old.gate ≡ gate.now }
    requires vnode { IsOfVnode gate.now }
    ensures gate { pass.new.gate ≡ gate.now }
    ensures later { IsPrefix pass.old.prefix pass.new.prefix }
    ensures some { IfOk result (λ seen. IfSome seen (ShowsStretch pass.new at.old at.new)) }
    ensures none { IfOk result (λ seen. IfNone seen (at.new ≡ at.old)) }
{
    let right = gate.read(rt);
    let seen = look_under(alloc, &right, pass, at);
    right.release();
    seen
}

/// The next piece of a count, at a look by a pass, which is made again where it was behind. The pass and
/// the key are then as it says.
fn count_piece<R: Wait>(
    rt: &R,
    alloc: Global,
    gate: &Gate<Vnode>,
    pass: &mut Pass<Vnode>,
    at: &mut Option<Key>,
) -> Result<Piece, AllocError>
    requires gate { pass.old.gate ≡ gate.now }
    requires vnode { IsOfVnode gate.now }
    ensures piece { IfOk result (IsPiece gate.now at.old pass.old.prefix) }
    ensures pass { IfOk result (λ piece. pass.new ≡ piece.pass.value) }
    ensures at { IfOk result (λ piece. at.new ≡ piece.up_to.value) }
{
    let behind = Snapshot::of(&*at);
    for _ in rt.forever() {
        match look(rt, alloc, gate, pass, at)? {
            Some(stretch) => {
                return Ok(Piece {
                    behind,
                    up_to: Snapshot::of(&*at),
                    stretch,
                    pass: Snapshot::of(&*pass),
                });
            }
            None => {}
        }
    }
    unreachable!()
}

/// What the vnode of a gate stores, by looks of a new pass, each under a right to read of its own, which
/// others may have in between: 1,000 keys at each, and more where there is no memory to copy the last of
/// them. A look is made again where the history had gone on past the state that was found. It waits. It needs
/// no memory, so it refuses nothing (no clause says so): a copy of a name of up to 15 bytes takes none.
pub fn count_at<R: Wait>(rt: &R, alloc: Global, gate: &Gate<Vnode>) -> Result<Counted, AllocError>
    requires { IsOfVnode gate.now }
    ensures { IfOk result (IsCountedBy gate.now) }
{
    let mut pass = gate.pass();
    let mut at = None;
    let mut counts = KeyCounts::none();
    let mut pieces = GhostList::new();
    for _ in rt.forever() {
        let piece = count_piece(rt, alloc, gate, &mut pass, &mut at)?;
        counts = counts.plus(piece.stretch.counts);
        pieces.push(&piece);
        if piece.stretch.is_last {
            return Ok(Counted {
                counts,
                pass,
                pieces,
            });
        }
    }
    unreachable!()
}
