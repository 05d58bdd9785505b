//! The run of a workload by its schedule, on one thread: which worker takes a turn when, what a turn does at the objects
//! (`turns`), and what the run comes to.
#![tactic(auto)]

mod copying;
pub mod ends;
pub mod laws;
pub mod notes;
mod numbering;
pub mod run;
pub mod state;
pub mod step;
pub mod trace;
pub mod turn;
pub mod turns;

pub use ends::VariableEnd;
pub use notes::Notes;
pub use run::{TracedRun, stepped, traced};
pub use step::Step;
pub use trace::{Trace, TraceItem};
pub use turns::{Answer, Deed, Item, ObjectState, Taker, take_turn_at};
