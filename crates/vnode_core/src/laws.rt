//! The laws of the vnode machine, which each vnode here is; they are proved in `vnode_machine`.

/// The machine is the sibling register: every list of events that has a replay is a legal history, and in
/// each state, at each history that may have led there, the outcome of an ask is one that the register
/// may give.
pub use vnode_machine::machine_is_register;

/// The turns that a vnode takes one after another, some of them refused for want of memory, are those of
/// a legal history, and each reply is the register's at its place.
pub use vnode_machine::runs_are_histories;

/// The bytes that are shown as the context of a defined key decode to the name of that position.
pub use vnode_machine::shown_context_is_the_name;

/// No dot is issued twice: not for one key, reaped or not, and not for two keys.
pub use vnode_machine::no_dot_is_issued_twice;

/// Each life of a key has one actor, and its writes and tombstones are numbered 1, 2 and so on; what is
/// live of a key is its siblings, each by its dot and with its content.
pub use vnode_machine::dots_are_of_lives;

/// A value leaves what is shown of a key only where the context of an accepted write or delete covered its dot, or by a
/// delete without context.
pub use vnode_machine::values_leave_only_covered;

/// Where each context that was given for a key had been shown for it by this vnode's run, each names a
/// position of the key, and the event that gave it saw just what was there.
pub use vnode_machine::shown_contexts_name_positions;

/// The first dead key at or after a key is dead, and no dead key at or after it is less.
pub use vnode_machine::first_dead_is_least;
