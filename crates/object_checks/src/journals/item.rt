//! The entries of journals in a worker's list.
use run_record::{ObjectEvent, ObjectReply};
use sync_model::Deed;
use sync_types::Seq;

/// An entry of the journal of an object, as it stands in the list of the worker that made it.
#[derive(Drop)]
pub struct JournalItem {
    /// The number of the object: object 0 is Stop, and the workload's objects follow in order of declaration.
    pub object: usize,
    /// How many entries stand before it in the journal of the object.
    pub number: u64,
    pub deed: Deed<ObjectEvent, ObjectReply>,
    /// The counts of the worker's front after it.
    pub front: Seq<u64>,
}
