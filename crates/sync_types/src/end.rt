//! What an object holds at the end of a run.
use crate::atomic_object::Number;

/// A value that an object holds at the end.
#[derive(Clone, Copy, Debug, Drop)]
pub enum End {
    /// The number of an atomic, which is named by its place among the workload's objects.
    Number { object: usize, number: Number },
    /// A key that is there in a map, which is named by its place among the workload's objects, with its value. The key is
    /// named by its number among the workload's keys.
    Pair { object: usize, key: u32, value: u64 },
}
