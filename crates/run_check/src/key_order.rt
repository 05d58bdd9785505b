//! The keys of a workload in byte order of their names.
ghost use Rattle.std.specs.Prelude.{◌≡◌, ℕ, List, ◌<◌, ◌^◌, Some, Contains, length, map, slice_get, IfOk};
ghost use Rattle.std.specs.FinMap.{entries, get};
ghost use Rattle.workload.specs.Keys.{keys_in, key_number, key_name};
ghost use Rattle.sync_model.specs.EndsByName.{AreInNameOrder};

use std::alloc::{AllocError, Global};
use sync_model::laws::ends::numbers_by_name_are_in_name_order;
use sync_types::{ByName, Name, Seq};
use workload::Workload;
use workload::laws::keys_are_numbered_by_first_appearance;

// The place of each of these names, by name.
fn places_by_name(alloc: Global, names: &[Name]) -> Result<ByName<u32>, AllocError>
    requires few { length names.now < 2 ^ 32 }
    requires apart { (i j : ℕ) (name : List ℕ) → slice_get names.now i ≡ Some name → slice_get names.now j ≡ Some name → i ≡ j }
    ensures name { IfOk result (λ places. (name : List ℕ) (place : ℕ) → get places name ≡ Some place → slice_get names.now place ≡ Some name) }
    ensures all { IfOk result (λ places. (name : List ℕ) (place : ℕ) → slice_get names.now place ≡ Some name → get places name ≡ Some place) }
{
    let mut places = ByName::new(alloc);
    for place in 0..names.len() {
        places.insert(alloc, names[place].as_bytes(), place as u32)?;
    }
    Ok(places)
}

// The numbers of names, in their order.
fn numbers_of(alloc: Global, entries: Seq<(Name, u32)>) -> Result<Vec<u32>, AllocError>
    ensures { IfOk result (λ numbers. numbers.items ≡ map (λ entry. entry.1) entries) }
{
    let mut numbers = Vec::new(alloc);
    for (_, number) in entries.into_vec() {
        numbers.push(number)?;
    }
    Ok(numbers)
}

/// The numbers of a workload's keys, in byte order of the keys' names.
pub(crate) fn key_order(alloc: Global, workload: &Workload) -> Result<Vec<u32>, AllocError>
    ensures order { IfOk result (λ order. AreInNameOrder (key_name (keys_in workload.now.scripts)) (key_number (keys_in workload.now.scripts)) order.items) }
    ensures all { IfOk result (λ order. (key : ℕ) → key < length (keys_in workload.now.scripts) → Contains order.items key) }
{
    numbers_by_name_are_in_name_order();
    keys_are_numbered_by_first_appearance();
    let _workers = workload.workers();
    let places = places_by_name(alloc, workload.keys().names())?;
    numbers_of(alloc, places.entries(alloc)?)
}
