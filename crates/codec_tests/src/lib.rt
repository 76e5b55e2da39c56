//! Tests of `wire_varint`, `pb_fields`, `pb_frame` and `riak_msgs`, from outside: varints, fields, frames and messages
//! as their bytes; of `names`, an index of keys; and of `control_text`, a console's lines.
//!
//! They stand in a crate of their own, since a crate with tests is proved twice.
#![tactic(auto)]

#[cfg(test)]
mod control;
#[cfg(test)]
mod fields;
#[cfg(test)]
mod frames;
#[cfg(test)]
mod idle;
#[cfg(test)]
mod messages;
#[cfg(test)]
mod places;
#[cfg(test)]
mod scans;
#[cfg(test)]
mod varints;
