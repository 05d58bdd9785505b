//! A map that threads share, with a mutex and a wait group that hand on what their callers know of it.
#![tactic(auto)]

pub mod laws;
pub mod map;

pub use map::{SyncedMap, SyncedMapCaller, SyncedMapPasses};
pub use sync_model::Answer;
pub use sync_outside::Clock;
pub use sync_types::Misuse;
