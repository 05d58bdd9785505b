//! Maps and atomics in one row of words, shared by their callers: whole calls, each placed at one of its steps in one order of
//! all, cursors over a map, and notes. A load waits for nobody.
#![tactic(auto)]

mod caller_note;
mod changes;
mod clearing;
mod copies;
mod cursors;
mod ends;
mod kinds;
pub mod laws;
mod look_up;
mod map_call;
mod new;
pub mod note;
mod operations;
mod prune;
mod settling;
pub mod table;

pub use cursor::TableCursor;
pub use new::{MAX_OBJECTS, MAX_UNITS};
pub use note::SharedNote;
pub use publish::{remove, show_chain, show_entry};
pub use table::SharedTable;
pub use table_words::{Begin, Steps, WordStep};

mod chain;
pub mod cursor;
mod publish;
#[cfg(test)]
mod tests;
