//! What an error of `accept` says.

ghost use Rattle.std.specs.Prelude.{◌≡◌, ◌≢◌};
ghost use Rattle.std.specs.IoError.{error_kind, raw_os_error};
ghost use Rattle.socket_streams.specs.Accepting.{fault_of};

use std::io;
use std::io::ErrorKind;

/// Linux's errors of `accept` for want of memory or of descriptors: ENOMEM, ENFILE, EMFILE and ENOBUFS.
const OF_RESOURCES: [i32; 4] = [12, 23, 24, 105];

/// Linux's errors of `accept` that are of the connection which it would have given, or of the network on its way, and say nothing of the
/// listener: EPERM (a firewall's rule), EINTR, ENONET, EPROTO, ENOPROTOOPT, EOPNOTSUPP, ENETDOWN, ENETUNREACH, ECONNABORTED, ETIMEDOUT,
/// EHOSTDOWN and EHOSTUNREACH. Its manual has them tried again.
const OF_ONE_CONNECTION: [i32; 12] = [1, 4, 64, 71, 92, 95, 100, 101, 103, 110, 112, 113];

/// What an error of `accept` says.
#[derive(Clone, Copy, Drop, Debug, PartialEq, Eq)]
pub enum AcceptFault {
    /// No connection waits, and the listener need not wait for one.
    NoneWaits,
    /// One connection failed, and the next may be had at once.
    OfOneConnection,
    /// The system has no descriptor or no memory for a connection. One may be had as soon as others have ended.
    OutOfResources,
    /// The listener failed.
    OfListener,
}

impl AcceptFault {
    /// What an error of this number says, if it has one.
    fn of_number(number: Option<i32>) -> AcceptFault
        ensures { result ≡ fault_of number }
    {
        let Some(number) = number else {
            return AcceptFault::OfListener;
        };
        if OF_RESOURCES.contains(&number) {
            AcceptFault::OutOfResources
        } else if OF_ONE_CONNECTION.contains(&number) {
            AcceptFault::OfOneConnection
        } else {
            AcceptFault::OfListener
        }
    }

    /// What this error of `accept` says.
    pub fn of(error: &io::Error) -> AcceptFault
        ensures waits { error_kind error.now ≡ ErrorKind.WouldBlock →
            result ≡ AcceptFault.NoneWaits }
        ensures number { error_kind error.now ≢ ErrorKind.WouldBlock →
            result ≡ fault_of (raw_os_error error.now) }
    {
        if error.kind() == ErrorKind::WouldBlock {
            return AcceptFault::NoneWaits;
        }
        AcceptFault::of_number(error.raw_os_error())
    }
}
