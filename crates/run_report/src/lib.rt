//! The report of a run: its lines, one write each, and what they tell of the outcome. Beside it the pieces and the lines of numbers
//! that a program writes.
#![tactic(auto)]

pub mod laws;
pub mod numbers;
pub mod pieces;
pub mod report;
