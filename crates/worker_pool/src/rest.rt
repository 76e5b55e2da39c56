//! Where the node of a session stood when it rested.
ghost use Rattle.std.specs.Prelude.{◌≡◌};
ghost use Rattle.worker_pool.specs.Resuming.{gates_in};

use gate_node::Shared;
use ghost_state::{GhostList, Listing};
use std::marker::Model;

/// The gates that a node is over, for clauses alone: no value of it is made.
pub struct SeenGates;

impl Model for SeenGates {
    ghost use Rattle.gate_node.specs.Gates.{Gates};
    ghost use Rattle.worker_pool.specs.Resuming.{no_gates};

    ghost Value = { Gates };

    ghost view = { λ _. no_gates };
}

/// Where a node stands, for clauses alone: no value of it is made.
pub struct Standing;

impl Model for Standing {
    ghost use Rattle.gate_node.specs.GateStep.{NodeOverGates};
    ghost use Rattle.worker_pool.specs.Resuming.{no_node};

    ghost Value = { NodeOverGates };

    ghost view = { λ _. no_node };
}

/// Where the node of a session stood when it rested: the gates of its last step, its passes of them, and what it had counted in all. It has no bytes.
#[derive(Drop)]
pub struct Rest {
    pub(crate) at: GhostList<Standing>,
}

impl Model for Rest {
    ghost use Rattle.gate_node.specs.GateStep.{NodeOverGates};
    ghost use Rattle.worker_pool.specs.Resuming.{node_in};

    ghost Value = { NodeOverGates };

    ghost view = { λ r. node_in r.at };
}

/// Where a session began, for clauses alone: no value of it is made.
pub struct SeenOrigin;

impl Model for SeenOrigin {
    ghost use Rattle.worker_pool.specs.PausedSessions.{Origin, no_origin};

    ghost Value = { Origin };

    ghost view = { λ _. no_origin };
}

/// Where a session began: the gates, its passes of them, and what its streams had. It has no bytes.
#[derive(Drop)]
pub struct Began {
    pub(crate) at: GhostList<SeenOrigin>,
}

impl Model for Began {
    ghost use Rattle.worker_pool.specs.PausedSessions.{Origin, origin_in};

    ghost Value = { Origin };

    ghost view = { λ b. origin_in b.at };
}

/// The gates of a run.
struct TheseGates;

impl Listing<Shared, SeenGates> for TheseGates {
    ghost use Rattle.std.specs.Prelude.{[], ◌∷◌};

    ghost list = { λ shared. shared ∷ [] };
}

/// These gates, for clauses alone.
pub(crate) fn gates_seen(shared: &Shared) -> GhostList<SeenGates>
    ensures { gates_in result ≡ shared.now }
{
    GhostList::listed::<Shared, TheseGates>(shared)
}
