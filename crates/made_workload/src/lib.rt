//! The workload that a seed gives: its text, made call by call from the generator's numbers, the workload that is read from it, and
//! the sums of what its run leaves behind.
#![tactic(auto)]

pub mod generating;
pub mod laws;
pub mod making;
pub mod sums;
pub mod totals;

pub use generating::generate;
pub use making::made_workload;
pub use totals::{Totals, totals_of};
