//! The text of a workload and of a run's report: reading and refusing a text line by line, printing a workload in its one
//! canonical form, and the lines of a report.
#![tactic(auto)]

pub mod call;
pub mod call_reading;
mod call_words;
mod completed_line;
mod end_line;
mod line;
pub mod number;
pub mod object_reading;
pub mod operands;
pub mod parsing;
pub mod printing;
pub mod reading;
mod reply;
pub mod text;
pub mod word_reading;

pub use call::verb;
pub use completed_line::set_completed_line;
pub use end_line::set_end_line;
pub use line::{LINE_ROOM, push, push_word};
pub use operands::{Numbers, operands_of};
pub use parsing::{parse, parse_race, parse_run};
pub use printing::print;
