//! The model of objects that callers in threads share: machines and their logs, journals, the word that callers take turns by,
//! notes, and what shared maps and atomics promise.
#![tactic(auto)]

pub mod answer;
pub mod caller;
pub mod callers;
pub mod front_note;
pub mod item;
pub mod journal;
pub mod laws;
pub mod machine;
pub mod no_note;
pub mod note;
pub mod reads;
pub mod shared;
pub mod told;
pub mod word;

pub use answer::Answer;
pub use caller::{Caller, CallerNote};
pub use callers::Callers;
pub use front_note::{FrontNote, MAX_CALLERS};
pub use item::{Item, SharedCall, SharedEntry, SharedReply};
pub use journal::{Deed, Entry};
pub use machine::Machine;
pub use no_note::NoNote;
pub use note::Note;
pub use shared::Shared;
pub use word::{HELD, Worded};
