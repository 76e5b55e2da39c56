//! A message and its reply, for clauses alone.

use riak_msgs::Reply;
use std::collections::LinkedList;

/// A message of a session, and the reply to it, as contracts see them: no value of it is made.
pub struct Exchange {
    pub code: u8,
    pub body: LinkedList<u8>,
    pub reply: Reply,
}
