//! What a get answers.

/// What `Pool::get` answers.
#[derive(Clone, Copy, Debug, PartialEq, Eq)]
pub enum PoolGet {
    /// An item that was put, which the pool no longer has.
    Item(u64),
    /// The pool's fresh value: no look found an item.
    New(u64),
}
