//! `Cond`, `WaitGroup` and `Once` of Go's package sync as pure machines: what each event does to the object's state and
//! what it answers, with no thread and no clock. Whoever waits is told by its place.
#![tactic(auto)]

pub mod group;
pub mod laws;
pub mod notify;
pub mod once;

pub use group::{GroupCore, GroupEvent, GroupPlace, GroupReply, GroupWait};
pub use notify::{NotifyCore, NotifyEvent, NotifyPlace, NotifyReply};
pub use once::{Beginning, OnceCore, OnceEvent, OncePlace, OnceProgress, OnceReply};
