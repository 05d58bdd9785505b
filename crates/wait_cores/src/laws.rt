//! Laws of the machines over every log of events. Each is the contract of a function that does nothing.

pub mod group;
pub mod notify;
pub mod once;
