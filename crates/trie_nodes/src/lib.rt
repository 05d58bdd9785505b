//! Nodes and entries of a hash trie in a row of words: where they stand, what a node stands for, and the plans of the two
//! changes that concern more than one node. No call here reads or writes a word of a table, and none takes memory.
#![tactic(auto)]

pub mod expand;
pub mod laws;
pub mod layout;
pub mod path;
pub mod place;
pub mod plan;
pub mod prune;
pub mod slot;
mod sweep;

pub use expand::expansion;
pub use layout::{DEAD, FREE, LEVELS, Layout, SLOTS, UNIT_WORDS};
pub use path::{go_together, nibble};
pub use place::Place;
pub use plan::{Expansion, Pruning};
pub use prune::pruning;
pub use slot::Slot;
