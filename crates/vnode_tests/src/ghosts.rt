//! What no clause says: that ghost state has no bytes.
ghost use Rattle.std.specs.Prelude.{◌≡◌};

use ghost_state::{GhostList, GhostValue, Listing};
use rw_gate::counter::{GatedCounter, Raise};
use rw_gate::{Gate, Pass};
use std::alloc::Global;
use std::mem::{size_of, size_of_val};
use std::process::Abort;
use std::test::*;

/// A struct that carries ghost state is as large as its other fields.
struct Carrier {
    number: u64,
    noted: GhostValue<u64>,
    history: GhostList<u64>,
}

/// The events that a pass has seen, for clauses alone.
struct History;

impl Listing<Pass<GatedCounter>, Raise> for History {
    ghost list = { λ pass. pass.prefix };
}

/// The events that a pass has seen, as a list that an event of another history may carry.
fn history_of(pass: &Pass<GatedCounter>) -> GhostList<Raise>
    ensures { result ≡ pass.now.prefix }
{
    GhostList::listed::<Pass<GatedCounter>, History>(pass)
}

/// Whether what a pass has seen, which may stand in a struct of another gate, has no bytes.
fn history_has_no_bytes(alloc: Global) -> bool {
    match Gate::new(alloc, GatedCounter { value: 0 }) {
        Ok(gate) => size_of_val(&history_of(&gate.pass())) == 0,
        Err(_) => false,
    }
}

#[test]
fn ghost_state_has_no_bytes(rt: HostRuntime) {
    let have_none = size_of::<GhostValue<u64>>() == 0 && size_of::<GhostList<[u64; 8]>>() == 0;
    let is_as_large = size_of::<Carrier>() == size_of::<u64>();
    assert!(rt; have_none && is_as_large && history_has_no_bytes(rt.alloc()));
}
