//! The mutex of Go's package sync as a pure machine, with its normal and starvation modes: what
//! each event of a caller answers, and what it leaves. Nothing here waits, and nothing is shared.
#![tactic(auto)]

pub mod event;
pub mod laws;
pub mod machine;
pub mod mutex;
pub mod place;
pub mod reply;
pub mod waiter;
mod word;

pub use event::MutexEvent;
pub use mutex::MutexCore;
pub use place::Place;
pub use reply::{Arrival, MutexReply, Resumption, Unlocking};
pub use waiter::{Flight, STARVATION_THRESHOLD, Waiter};
