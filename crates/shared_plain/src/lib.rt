//! Plain maps and atomics: one machine with the maps in slots.
#![tactic(auto)]

pub mod cursor;
mod end_list;
pub mod ends;
pub mod event;
pub mod laws;
pub mod machine;
pub mod mark;
mod new;
mod one_event;
pub mod plain;
mod reply_parts;
pub mod room;
mod settling;
mod shared;
mod slots;
pub mod state;
mod taking;

pub use cursor::Cursor;
pub use event::{Answered, Event};
pub use machine::PlainMachine;
pub use mark::Mark;
pub use plain::Plain;
pub use room::EndsRoom;
pub use state::PlainState;
