//! The typed atomics of Go's `sync/atomic` for threads, on the words of a shared table.
#![tactic(auto)]

pub mod atomic;
mod call;
pub mod laws;
pub mod value;

pub use atomic::{Atomic, Bool, Int32, Int64, Uint32, Uint64};
pub use call::atomic_call;
pub use value::{AtomicBits, AtomicValue};
