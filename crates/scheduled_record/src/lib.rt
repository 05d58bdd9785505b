//! The record of a run by schedule, as a function of its trace: what explains the outcome of a run that is done, and its text.
#![tactic(auto)]

mod edges;
mod fronts;
pub mod items;
pub mod laws;
mod ledger;
mod pieces;
mod recorded_run;
mod recording;
mod report_pieces;
pub mod text_laws;
pub mod told_laws;

pub use recorded_run::Recorded;
pub use recording::recorded;
