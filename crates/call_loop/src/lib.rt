//! The loop that makes a call on an object which threads share: event by event, as the protocol of its kind says, with waiting
//! and misuse. It is written once, for every kind that has a protocol.
#![tactic(auto)]

mod begin;
mod calls;
mod halts;
pub mod laws;
mod lazily_timed;
mod stage;
mod timing;

pub use begin::new;
pub use calls::{call, call_timed, call_within, call_within_timed};
pub use halts::{first_halt, halt};
pub use lazily_timed::LazilyTimed;
pub use timing::{Eager, Lazy, Timing};
