//! A name, as a map of names lends it.

ghost use Rattle.std.specs.Prelude.{◌≡◌, IfOk};
ghost use Rattle.names.specs.KeyRefs.{name_of};

use crate::short_name::ShortName;
use riak_msgs::Bytes;
use std::alloc::{AllocError, Global};

/// A name of up to 15 bytes by its two numbers, or one where its bytes lie. Where a name isn't stored as
/// bytes, there are none to lend.
#[derive(Clone, Copy)]
pub enum Name<'a> {
    Short(ShortName),
    Bytes(&'a Bytes),
}

impl<'a> Name<'a> {
    /// The bytes of the name, copied. Refused where memory is; up to 16 bytes take none.
    pub fn to_bytes(&self, alloc: Global) -> Result<Bytes, AllocError>
        ensures { IfOk result (λ bytes. bytes ≡ name_of self.now) }
    {
        match self {
            Name::Short(name) => (*name).to_bytes(alloc),
            Name::Bytes(bytes) => (*bytes).clone(alloc),
        }
    }
}
