//! A change that is planned and not yet made.

use crate::ask::Ask;
use std::marker::Model;

/// A command that a vnode has accepted and not yet made; contracts see the command. It can only be made, by the vnode
/// that prepared it last, or be let go, which leaves the vnode as it is.
#[derive(Drop)]
pub struct Change {
    pub(crate) ask: Ask,
}

impl Model for Change {
    ghost use Rattle.vnode_core.specs.declared.ask.Ask.{Ask};

    ghost Value = { Ask };

    ghost view = { λ c. c.ask };
}
