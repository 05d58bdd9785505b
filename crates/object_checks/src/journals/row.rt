//! The rows of a journal.
use crate::journals::item::JournalItem;

/// An entry in the row of its object's entries, with the worker that made it.
#[derive(Clone, Copy, Drop)]
pub struct Row<'a> {
    pub caller: u32,
    pub item: &'a JournalItem,
}
