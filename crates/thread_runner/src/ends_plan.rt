//! The list of ends that a run is reported with.
ghost use Rattle.std.specs.Prelude.{◌≡◌, ◌+◌, ◌*◌, ◌≤◌, [], vec_capacity, IfOk};
ghost use Rattle.thread_runner.specs.EndsPlans.{IsEndsPlan};

use crate::counts::{ObjectPlaces, places_of};
use crate::key_order::key_order;
use std::alloc::{AllocError, Global};
use sync_types::End;
use workload::Workload;

/// What the list of ends takes, which is made before the first start.
#[derive(Drop)]
pub(crate) struct EndsPlan {
    pub places: ObjectPlaces,
    pub order: Vec<u32>,
    /// Room for the list.
    pub ends: Vec<End>,
}

impl EndsPlan {
    /// What a workload's list of ends takes.
    pub fn new(alloc: Global, workload: &Workload) -> Result<Self, AllocError>
        ensures { IfOk result (λ made. IsEndsPlan workload.now made.places.atomics.items made.places.maps.items made.order.items made.ends.items (vec_capacity made.ends)) }
    {
        let places = places_of(alloc, workload)?;
        let order = key_order(alloc, workload)?;
        let ends = room_for(alloc, places.atomics.len(), places.maps.len(), order.len())?;
        Ok(EndsPlan {
            places,
            order,
            ends,
        })
    }
}

// Room for an end of each atomic, and of each key in each map. Room that can't be counted isn't to be had.
fn room_for(alloc: Global, atomics: usize, maps: usize, keys: usize) -> Result<Vec<End>, AllocError>
    ensures none { IfOk result (λ ends. ends.items ≡ []) }
    ensures room { IfOk result (λ ends. atomics + maps * keys ≤ vec_capacity ends) }
{
    match maps.checked_mul(keys) {
        None => Err(AllocError),
        Some(pairs) => match pairs.checked_add(atomics) {
            None => Err(AllocError),
            Some(most) => Vec::with_capacity(alloc, most),
        },
    }
}
