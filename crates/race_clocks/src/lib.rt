//! Which turns of a run by schedule happen before which others, and which of its calls race.
#![tactic(auto)]

mod by_place;
mod channel;
pub mod clocks;
mod conds;
mod deeds;
pub mod laws;
mod maps;
mod numbers;
mod pools;
pub mod race;
pub mod report;
mod seen;
mod steps;
mod tables;
mod telling;

pub use clocks::races;
pub use race::{CallPlace, Race};
