//! A table of names by their hash, for whoever looks names up and never asks for their order.
#![tactic(auto)]

pub mod table;

pub use table::NameTable;
