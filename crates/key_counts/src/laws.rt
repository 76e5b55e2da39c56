//! What counting in pieces says.
ghost use Rattle.std.specs.Prelude.{◌≡◌};
ghost use Rattle.std.specs.List.{AllByRecursion};
ghost use Rattle.riak_msgs.specs.Contents.{Content};
ghost use Rattle.vnode_core.specs.Left.{State};
ghost use Rattle.handoff.specs.Partitions.{GateId, View};
ghost use Rattle.handoff.specs.Sights.{ShowsState};
ghost use Rattle.key_counts.specs.declared.looks.Counted.{Counted};
ghost use Rattle.key_counts.specs.Looks.{IsCountedBy};
ghost use Rattle.key_counts.specs.Stored.{counts_in};

/// Where nobody changed a vnode between the looks at it, it stores just what was counted.
pub fn unchanged_vnodes_are_counted_exactly()
    ensures { (gate : GateId View) (counted : Counted) (state : State Content)
        → IsCountedBy gate counted
        → AllByRecursion (λ piece. piece.pass.value.prefix ≡ counted.pass.prefix) counted.pieces
        → ShowsState counted.pass state → counted.counts ≡ counts_in state }
{}
