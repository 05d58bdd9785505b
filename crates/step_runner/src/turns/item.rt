//! What was done on an object in a turn, with its answer.
use run_record::{ObjectEvent, ObjectReply};
use script_calls::{Operation, Reply};
use sync_types::Name;

/// What is done on an object: a call on a map, an atomic or a plain variable, with its reply, or an event of any other object, with its answer.
#[derive(Drop)]
pub enum Deed {
    /// A call that is placed on a map, an atomic or a plain variable. The keys of the reply are named.
    Placed(Operation, Reply<Name>),
    /// An event of an object of any other kind, also of Starts.
    Entered(ObjectEvent, ObjectReply),
}

/// One item of a run.
#[derive(Drop)]
pub struct Item {
    /// The place of its object in order of declaration. Starts stands behind all objects.
    pub object: usize,
    /// The worker that makes it.
    pub caller: u32,
    pub deed: Deed,
}
