//! Actors of the tests.

use actor_epoch::Actor;

/// Actors in their order: two epochs of one vnode, and two of the next.
pub const A: Actor = Actor {
    vnode: 65_536,
    epoch: 1,
};

pub const B: Actor = Actor {
    vnode: 65_536,
    epoch: 2,
};

pub const C: Actor = Actor {
    vnode: 65_537,
    epoch: 1,
};

pub const D: Actor = Actor {
    vnode: 65_537,
    epoch: 2,
};

/// An actor before them, which no context and no clock knows.
pub const OTHER: Actor = Actor { vnode: 0, epoch: 1 };
