//! The call `gosync`: all of the program of that name but the real files, streams, clock and threads, which the program hands
//! to it. It reads the words of a command line, reads or makes a workload, runs it by schedule or with a thread for each
//! worker, writes the report, and with it the races where they are asked for, and answers how the program ends. Or it reads
//! the record of a run and judges it.
//!
//! Its first clause is the headline of the repository, which `specs/Headline.antt` states: what a run with threads writes is
//! explained by one legal history. `laws` says it in a user's words.
#![tactic(auto)]

pub mod front;
mod input;
mod judge;
pub mod laws;
mod made;
mod make;
mod message;
mod one_thread;
mod program;
mod race;
mod read;
mod report;
mod run;
pub mod status;
mod step;
mod trace;
mod words;

pub use message::say;
pub use program::gosync;
pub use status::{Ending, Fault, Status, Unread};
