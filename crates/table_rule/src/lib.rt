//! The rule of one row of words that holds maps and atomics: what each word means at every moment, what a seat knows, and which
//! atomic steps keep the rule, whatever all seats do. The rule stands in `specs/Rule.antt`. All but `Begin` and `Leaf` stands in
//! proofs alone.
#![tactic(auto)]

pub mod begin;
pub mod clearing;
pub mod copies;
pub mod cursors;
pub mod laws;
pub mod lookup;
pub mod operations;
pub mod pruning;
pub mod publish;
pub mod subject;
pub mod view;
pub mod word_step;
pub mod writing;

pub use begin::Begin;
pub use view::{Leaf, View};
pub use word_step::WordStep;
