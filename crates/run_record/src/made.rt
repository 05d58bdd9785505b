//! What a worker makes, one after the other.
use crate::entered::{ObjectEvent, ObjectReply};
use sync_model::item::Item;
use sync_model::journal::Entry;

/// One item in the list of what a worker made.
#[derive(Drop)]
pub enum Made {
    /// A call on a map or an atomic, or a step of a cursor.
    Shared(Item),
    /// An entry of the journal of an object, which is named by its number: object 0 is Stop, and the workload's objects
    /// follow in order of declaration.
    Entered {
        object: usize,
        entry: Entry<ObjectEvent, ObjectReply>,
    },
}
