//! The record that is kept of what is made in one order, whoever makes it: places in the history, journals, lists, and the least
//! fronts. It stands in proofs alone.
#![tactic(auto)]

pub mod laws;
