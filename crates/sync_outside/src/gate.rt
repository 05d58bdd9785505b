//! What stands before and behind each call of a worker.
use std::sync::Wait;

/// Is passed before and after each call of a run. It promises nothing, and may hold a call back.
pub trait Gate {
    /// Is passed before the call at this index of a worker's script.
    fn before<R: Wait>(&self, rt: &R, worker: u32, index: u32);

    /// Is passed after that call was answered.
    fn after<R: Wait>(&self, rt: &R, worker: u32, index: u32);
}
