//! A workload's maps and atomics, by their places.
use sync_model::Shared;
use workload::Workload;

/// The maps and atomics that all workers of a run share, and how to find one by the place where it is declared.
#[derive(Drop)]
pub struct Catalog<'a, S: Shared> {
    /// The workload that is run.
    pub workload: &'a Workload,
    /// Its maps and atomics.
    pub shared: &'a S,
    /// The number of each map among the maps, of each atomic among the atomics, and of each pool among the pools, by place.
    pub numbers: &'a [u32],
}
