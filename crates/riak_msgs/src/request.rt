//! Requests, and reading one.

ghost use Rattle.riak_msgs.specs.Reading.{Reads};

use crate::del::DelAsk;
use crate::fault::MsgFault;
use crate::get::GetAsk;
use crate::put::PutAsk;
use crate::read_del::read_del;
use crate::read_get::read_get;
use crate::read_put::read_put;
use std::alloc::Global;

/// What a client asks.
#[derive(Drop)]
pub enum Request {
    Ping,
    Get(GetAsk),
    Put(PutAsk),
    Del(DelAsk),
}

/// Decodes the request of a message.
///
/// Code 1 is a ping, whatever its body; 9 is a get (`RpbGetReq`), 11 a put (`RpbPutReq`), 13 a delete
/// (`RpbDelReq`). The fields of a body come in any order. Those of other numbers and those of another
/// wire type are skipped, and so are quorum and timeout fields, which have no effect here. Of a field
/// given more than once the last counts; the contents of a put are merged: later scalars win, and later
/// links and pairs follow the earlier ones. A bool is true where its varint isn't 0, and false where it
/// isn't given. Where no bucket type is given it is [`DEFAULT_TYPE`](crate::DEFAULT_TYPE), and a context
/// that isn't given has no bytes.
///
/// Refused by the first fault that holds:
/// - `UnknownCode`: the code is another.
/// - `BadMessage`: the body is no list of fields, or a put's content, or a link or pair in it.
/// - `MissingField`: no bucket; no key of a get or a delete; no content of a put, none with a value, or
///   a pair without its key.
/// - `EmptyName`: a bucket, key or bucket type is given with no bytes.
/// - `NoKey`: a put names no key, and none is made up for it.
/// - `NoMemory`: memory was refused; all others are found without taking any.
///
/// A body that is the one encoding of its request, as most clients write it, is read straight; any other
/// is walked over as it lies. What is kept is copied once; the time is linear in the bytes. Sources:
/// `riak_kv.proto` of Riak's Protocol Buffers client API, and the Protocol Buffers encoding.
pub fn read_request(alloc: Global, code: u8, body: &[u8]) -> Result<Request, MsgFault>
    ensures said { Reads code body.now result }
{
    match code {
        1 => Ok(Request::Ping),
        9 => read_get(alloc, body),
        11 => read_put(alloc, body),
        13 => read_del(alloc, body),
        _ => Err(MsgFault::UnknownCode),
    }
}
