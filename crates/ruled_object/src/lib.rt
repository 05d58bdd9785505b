//! One machine shared by its callers, with one history.
#![tactic(auto)]

mod act;
pub mod assembly;
mod call;
pub mod cell;
mod copy;
mod event_source;
mod finish;
mod gather;
pub mod laws;
mod look;
mod new;
pub mod object;
mod park;
pub mod pass;
mod renew;
pub mod rule;
mod spend;
mod turn;
pub mod view;
mod word;

pub use assembly::{Assembly, AssemblyOf};
pub use event_source::EventSource;
pub use new::MAX_CALLS;
pub use object::Object;
pub use pass::{Pass, PassOf};
