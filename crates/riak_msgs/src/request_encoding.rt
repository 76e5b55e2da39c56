//! Writing a request, for a client.

ghost use Rattle.std.specs.Prelude.{◌≡◌, ◌∷◌, IfOk, IsOkUnless};
ghost use Rattle.riak_msgs.specs.Requests.{request_body, request_code};

use crate::encode::write_message;
use crate::fault::MsgFault;
use crate::request::Request;
use pb_fields::{Message, Output};
use std::alloc::{AllocError, Global};

impl Request {
    // Its message code.
    fn code(&self) -> u8
        ensures { result ≡ request_code self.now }
    {
        match self {
            Request::Ping => 1,
            Request::Get(_) => 9,
            Request::Put(_) => 11,
            Request::Del(_) => 13,
        }
    }
}

impl Message for Request {
    ghost encoding = { request_body };

    fn encode<O: Output>(&self, out: &mut O) -> Result<(), AllocError> {
        match self {
            Request::Ping => Ok(()),
            Request::Get(ask) => ask.encode(out),
            Request::Put(ask) => ask.encode(out),
            Request::Del(ask) => ask.encode(out),
        }
    }
}

/// The message code of a request, and its body after it, in the one encoding that a client's request has: fields by
/// rising number, each varint in its shortest form, nothing for what is absent or false, or for the type `default`.
///
/// It takes one buffer of the right size.
///
/// Refused by [`MsgFault::NoMemory`] alone.
pub fn write_request(alloc: Global, request: &Request) -> Result<Vec<u8>, MsgFault>
    ensures encoded { IfOk result (λ v. v.items
        ≡ request_code request.now ∷ request_body request.now) }
    ensures memory { IsOkUnless result MsgFault.NoMemory }
{
    write_message(alloc, request.code(), request)
}
