//! The reader/writer lock of Go's package sync as a pure machine: what each event of a caller
//! answers, and what it leaves. Nothing here waits, and nothing is shared.
#![tactic(auto)]

pub mod event;
pub mod laws;
mod list;
pub mod machine;
pub mod place;
pub mod reply;
pub mod rw;
pub mod writer;

pub use event::RwEvent;
pub use place::Place;
pub use reply::{Arrival, Resumption, RwReply, Unlocking};
pub use rw::RwCore;
pub use writer::Writer;
