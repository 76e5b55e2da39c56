//! Passes of two callers, of which the further ones are kept.
ghost use Rattle.std.specs.Prelude.{◌≡◌, map};
ghost use mathlib.Core.List.{IsPrefix};
ghost use Rattle.gate_node.specs.Merging.{HaveSeenAllOf, HasSeenAllOf};
ghost use Rattle.std.specs.List.{AllZip};

use crate::passes::Passes;
use rw_gate::Pass;
use vnode_core::Vnode;

/// Keeps of two passes of one gate the one that has seen more.
fn keep_further(kept: &mut Pass<Vnode>, other: Pass<Vnode>)
    requires { other.gate ≡ kept.old.gate }
    ensures gate { kept.new.gate ≡ kept.old.gate }
    ensures mine { IsPrefix kept.old.prefix kept.new.prefix }
    ensures theirs { IsPrefix other.prefix kept.new.prefix }
{
    if kept.is_behind(&other) {
        *kept = other;
    }
}

/// Keeps of each two passes in one place the one that has seen more.
fn keep_each_further(kept: &mut Vec<Pass<Vnode>>, others: Vec<Pass<Vnode>>)
    requires { map (λ pass. pass.gate) others.items ≡ map (λ pass. pass.gate) kept.old.items }
    ensures mine { AllZip HasSeenAllOf kept.new.items kept.old.items }
    ensures theirs { AllZip HasSeenAllOf kept.new.items others.items }
{
    let mut left = others;
    while let Some(pass) = left.pop() {
        let place = left.len();
        keep_further(&mut kept[place], pass);
    }
}

impl Passes {
    /// Takes another caller's passes of the same gates, and keeps of the two passes of each primary the one that has seen more: so what either
    /// caller had seen of a primary is a beginning of what this one then has. Its passes of fallbacks stay, the other's are let go. It
    /// costs a comparison of two numbers for each partition, and takes no memory.
    pub fn merge(&mut self, other: Passes)
        requires { map (λ pass. pass.gate) other.primaries
            ≡ map (λ pass. pass.gate) self.old.primaries }
        ensures mine { HaveSeenAllOf self.new self.old }
        ensures theirs { HaveSeenAllOf self.new other }
        ensures fallbacks { self.new.fallbacks ≡ self.old.fallbacks }
    {
        let Passes { primaries, .. } = other;
        keep_each_further(&mut self.primaries, primaries);
    }
}
