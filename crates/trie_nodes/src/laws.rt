//! Laws of the words, of paths and of nodes. Each is the contract of a function that does nothing.
pub mod chains;
pub mod examples;
pub mod nodes;
pub mod order;
pub mod paths;
pub mod walks;
pub mod words;
