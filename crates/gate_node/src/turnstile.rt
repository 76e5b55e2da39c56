//! What a call passes while it has its right.

/// What each call of a get, a put or a delete passes while it has its right, and before it looks.
///
/// The calls that it sees are numbered 1, 2, .. over all nodes of one [`Shared`](crate::Shared), in the order in which they got their right;
/// behind 18,446,744,073,709,551,615 comes 0. No clause rests on a number. A test may hold a call here, to see which others
/// come in beside it; who holds one holds its vnode, so `inside` is to end by itself. A call that finds its fallback closed has passed
/// already, and passes again at the primary.
pub trait Turnstile {
    /// This call has its right, and hasn't looked yet.
    fn inside(&self, call: u64);

    /// Whether it is shown the calls. One that isn't is not called, and its calls take no number: so they write no word that all
    /// threads write.
    fn sees_calls(&self) -> bool {
        true
    }
}

/// A turnstile that lets every call pass, and sees none.
#[derive(Clone, Copy)]
pub struct Open;

impl Turnstile for Open {
    fn inside(&self, _call: u64) {}

    fn sees_calls(&self) -> bool {
        false
    }
}
