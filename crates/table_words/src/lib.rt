//! The row of words itself: the atomic steps that a seat makes on it, each one move on one word, and what its maps and atomics
//! contain when no seat makes a step any more. Which steps make a call is the matter of the layer above.
#![tactic(auto)]

mod clearing;
mod contents;
mod copies;
mod cursor_steps;
pub mod ended;
mod ends;
mod kinds;
pub mod laws;
mod lookup;
mod map_words;
mod new;
mod operations;
mod pairs;
mod pruning;
mod publish;
mod report;
pub mod rule;
pub mod steps;
mod walk;
mod word;
pub mod words;
mod writing;

pub use ended::TableEnds;
pub use steps::Steps;
pub use table_rule::{Begin, Leaf, View, WordStep};
pub use words::TableWords;
