//! A vnode's word, and its state where it is in place.

ghost use Rattle.std.specs.Prelude.{◌≡◌, IfOk};
ghost use Rattle.node_steps.specs.World.{fresh_vnode};
ghost use Rattle.node_steps.specs.Erased.{erase_vnode};
ghost use Rattle.node_steps.specs.Running.{vnode_of};

use crate::hand::Hand;
use std::alloc::{AllocError, Global};
use vnode_core::Vnode;

/// A vnode's word, with the state where it is in place; a state that isn't in place is in the hand of the
/// worker that took it. How many readers are inside and whether the word is marked mean nothing then.
/// `own` is the own site of the vnode's partition.
#[derive(Drop)]
pub(crate) struct Site {
    pub(crate) own: usize,
    pub(crate) readers: u64,
    pub(crate) marked: bool,
    pub(crate) place: Option<Box<Hand>>,
}

/// A vnode of an id, before any event, in place: of the partition of this own site, opened behind the
/// epoch that was given last.
pub(crate) fn new_site(
    alloc: Global,
    id: u64,
    own: usize,
    last_epoch: u32,
) -> Result<Site, AllocError>
    ensures { IfOk result (λ site. vnode_of site ≡ erase_vnode (fresh_vnode id own last_epoch)) }
{
    let vnode = Vnode::after(alloc, id, last_epoch);
    let hand = Box::new(alloc, Hand::new(id, vnode))?;
    Ok(Site {
        own,
        readers: 0,
        marked: false,
        place: Some(hand),
    })
}
