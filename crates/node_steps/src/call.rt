//! What a worker is asked.

ghost use Rattle.std.specs.Prelude.{◌≡◌, None, IfOk};
ghost use Rattle.vnode_core.specs.declared.ask.Ask.TheVariants.{Put, Del, Reap};
ghost use Rattle.node_steps.specs.Asked.{CallsFor};
ghost use Rattle.node_steps.specs.Running.{ask_of, IsChangeOf};
ghost use Rattle.node_steps.specs.Steps.{is_reap};

use crate::copies::{copy_of_del, copy_of_put};
use riak_msgs::{DelAsk, GetAsk, Key, PutAsk, Request};
use std::alloc::{AllocError, Global};
use vnode_core::Ask;

/// What a worker is asked. It lies on the heap, so that a worker's phase is small and a step moves it for nothing.
#[derive(Drop)]
pub(crate) enum Call {
    Get(Box<GetAsk>),
    Put(Box<PutAsk>),
    Del(Box<DelAsk>),
    Reap(Box<Key>),
}

/// The call of a request; none of a ping, which no vnode is asked.
pub(crate) fn call_of(alloc: Global, request: Request) -> Result<Option<Call>, AllocError>
    ensures { IfOk result (CallsFor request) }
{
    match request {
        Request::Ping => Ok(None),
        Request::Get(get) => Ok(Some(Call::Get(Box::new(alloc, get)?))),
        Request::Put(put) => Ok(Some(Call::Put(Box::new(alloc, put)?))),
        Request::Del(del) => Ok(Some(Call::Del(Box::new(alloc, del)?))),
    }
}

impl Call {
    /// Whether it is a reap.
    pub(crate) fn is_reap(&self) -> bool
        ensures { result ≡ is_reap (ask_of self.now) }
    {
        match self {
            Call::Get(_) | Call::Put(_) | Call::Del(_) => false,
            Call::Reap(_) => true,
        }
    }

    /// What the vnode is asked to change, as a copy; none of a get. The call itself stays with the
    /// worker, which asks again where it puts the state back before it has published.
    pub(crate) fn change(&self, alloc: Global) -> Result<Option<Ask>, AllocError>
        ensures { IfOk result (IsChangeOf self.now) }
    {
        match self {
            Call::Get(_) => Ok(None),
            Call::Put(put) => Ok(Some(Ask::Put(copy_of_put(alloc, put)?))),
            Call::Del(del) => Ok(Some(Ask::Del(copy_of_del(alloc, del)?))),
            Call::Reap(key) => Ok(Some(Ask::Reap((**key).clone(alloc)?))),
        }
    }
}
