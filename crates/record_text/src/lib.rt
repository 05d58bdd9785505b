//! The text of a record: a workload's text, a line `record`, a line for each item, the outcome, and the lines of the report. It is read
//! as a whole, and written line by line.
#![tactic(auto)]

pub mod answer;
pub mod answer_reading;
pub mod cut;
pub mod deed_words;
pub mod directory;
pub mod event;
pub mod event_reading;
pub mod fault;
pub mod front;
pub mod item_line;
pub mod item_reading;
pub mod item_words;
pub mod item_writing;
pub mod laws;
pub mod limits;
pub mod line_reading;
pub mod line_writing;
pub mod number;
pub mod number_writing;
pub mod pair;
pub mod reading;
pub mod text;
pub mod word;
pub mod written;

pub use answer::{AnswerRow, AnswerWord};
pub use directory::Directory;
pub use event::{EventWord, JournalKind};
pub use fault::{CheckFault, CheckReason};
pub use item_line::{ItemLine, PlacedReply, Said, Whole};
pub use item_writing::set_item_line;
pub use limits::RECORD_LINE_ROOM;
pub use line_reading::is_short_line;
pub use line_writing::{set_outcome_line, set_record_line};
pub use reading::{RecordText, read_record};
pub use written::item_of;
