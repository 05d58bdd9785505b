//! The words of the command line, as one command of the crate `clap` reads them, and the number that a seed is.
#![tactic(auto)]

pub mod definition;
pub mod laws;
pub mod matching;
pub mod seed;

pub use definition::{Subcommand, command};
pub use matching::{WordsFault, matched};
pub use seed::seed_of;
