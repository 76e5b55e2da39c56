//! Copies of what is asked.

ghost use Rattle.std.specs.Prelude.{◌≡◌, IfOk};

use riak_msgs::{DelAsk, GetAsk, PutAsk, Request};
use std::alloc::{AllocError, Global};

/// A copy of a get.
fn copy_of_get(alloc: Global, get: &GetAsk) -> Result<GetAsk, AllocError>
    ensures { IfOk result (λ copy. copy ≡ get.now) }
{
    Ok(GetAsk {
        key: get.key.clone(alloc)?,
        if_modified: get.if_modified.clone(alloc)?,
        head: get.head,
        deletedvclock: get.deletedvclock,
    })
}

/// A copy of a put.
pub(crate) fn copy_of_put(alloc: Global, put: &PutAsk) -> Result<PutAsk, AllocError>
    ensures { IfOk result (λ copy. copy ≡ put.now) }
{
    Ok(PutAsk {
        key: put.key.clone(alloc)?,
        context: put.context.clone(alloc)?,
        content: put.content.clone()?,
        return_body: put.return_body,
        return_head: put.return_head,
        if_not_modified: put.if_not_modified,
        if_none_match: put.if_none_match,
    })
}

/// A copy of a delete.
pub(crate) fn copy_of_del(alloc: Global, del: &DelAsk) -> Result<DelAsk, AllocError>
    ensures { IfOk result (λ copy. copy ≡ del.now) }
{
    Ok(DelAsk {
        key: del.key.clone(alloc)?,
        context: del.context.clone(alloc)?,
    })
}

/// A copy of a request.
pub(crate) fn copy_of_request(alloc: Global, request: &Request) -> Result<Request, AllocError>
    ensures { IfOk result (λ copy. copy ≡ request.now) }
{
    match request {
        Request::Ping => Ok(Request::Ping),
        Request::Get(get) => Ok(Request::Get(copy_of_get(alloc, get)?)),
        Request::Put(put) => Ok(Request::Put(copy_of_put(alloc, put)?)),
        Request::Del(del) => Ok(Request::Del(copy_of_del(alloc, del)?)),
    }
}
