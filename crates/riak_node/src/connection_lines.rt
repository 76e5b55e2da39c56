//! Which lines of single connections the log has.

use log::Level;

/// The target of the lines of connections that come, and of warnings of the server.
const ARRIVALS: &str = "socket_streams::arrivals";

/// The target of the lines of connections that have ended, and of nothing else.
const ENDS: &str = "socket_streams::log_sink";

/// Which lines of single connections the log has. Lines of the server itself it has in any case.
#[derive(Clone, Copy)]
pub enum ConnectionLines {
    /// One when a connection comes, and one when it has ended.
    Both,
    /// One when it has ended.
    Ends,
    /// None, also of a connection that was refused, or ended by a fault.
    Neither,
}

impl ConnectionLines {
    /// Whether the log has a line of this level and target.
    pub(crate) fn have(self, level: Level, target: &str) -> bool {
        let is_begin = level == Level::Info && target == ARRIVALS;
        match self {
            ConnectionLines::Both => true,
            ConnectionLines::Ends => !is_begin,
            ConnectionLines::Neither => !is_begin && target != ENDS,
        }
    }
}
