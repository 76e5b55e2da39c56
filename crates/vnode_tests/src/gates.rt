//! What no clause says: that attempts win, that the mark acts, that a state that is put back is the one in hand.
mod attempts;
mod counter;
mod register;
mod steps;
mod threads;
mod turns;
mod vnode;
mod waiting;
