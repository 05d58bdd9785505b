//! What a workload asks of its maps, atomics and pools.
ghost use Rattle.std.specs.Prelude.{◌≡◌, ℕ, ◌+◌, ◌<◌, ◌≤◌, ◌^◌, ◌++◌, ◌∷◌, [], cond, length, get_or, slice_index, count_by, IfOk, OnOk};
ghost use Rattle.std.specs.List.{flat_map};
ghost use Rattle.run_record.specs.Objects.{is_map, is_atomic, is_pool, places_from, types_of};
ghost use Rattle.thread_runner.specs.Sites.{cost_of_call, cost_of_calls};

use script_calls::{Call, Operation};
use std::alloc::{AllocError, Global};
use sync_types::{AtomicKind, MapCall};
use workload::{ObjectKind, Workload};

// Whether an object of this kind is a map.
fn is_map(kind: ObjectKind) -> bool
    ensures { result ≡ is_map kind }
{
    match kind {
        ObjectKind::Map => true,
        _ => false,
    }
}

// Whether an object of this kind is an atomic.
fn is_atomic(kind: ObjectKind) -> bool
    ensures { result ≡ is_atomic kind }
{
    match kind {
        ObjectKind::Atomic(_) => true,
        _ => false,
    }
}

/// How many parts an object of this kind has, where there are so many workers: a pool has one for each.
pub(crate) fn parts_of(kind: ObjectKind, workers: u32) -> u32
    ensures { result ≡ cond (is_pool kind) workers 0 }
{
    match kind {
        ObjectKind::Pool => workers,
        _ => 0,
    }
}

// Adds the type of an atomic. An object of another kind has none.
fn push_type(types: &mut Vec<AtomicKind>, kind: ObjectKind) -> Result<(), AllocError>
    ensures { OnOk result (types.new.items ≡ types.old.items ++ types_of kind) }
{
    if let ObjectKind::Atomic(atomic) = kind {
        types.push(atomic)?;
    }
    Ok(())
}

// Adds a place, if it is one of them.
fn push_place(places: &mut Vec<usize>, place: usize, is_one: bool) -> Result<(), AllocError>
    ensures { OnOk result (places.new.items ≡ places.old.items ++ cond is_one (place ∷ []) []) }
{
    if is_one {
        places.push(place)?;
    }
    Ok(())
}

// Counts one more, if it is one of them.
fn count_one(count: u32, is_one: bool) -> u32
    requires { count < 2 ^ 31 }
    ensures { result ≡ count + cond is_one 1 0 }
{
    if is_one { count + 1 } else { count }
}

/// The types of a workload's atomics, in order of declaration: those of the atomics that a run of it is made over.
pub fn atomic_kinds(alloc: Global, workload: &Workload) -> Result<Vec<AtomicKind>, AllocError>
    ensures { IfOk result (λ types. types.items ≡ flat_map (λ object. types_of object.kind) workload.now.objects) }
{
    let mut types = Vec::new(alloc);
    for object in workload.objects() {
        push_type(&mut types, object.kind)?;
    }
    Ok(types)
}

/// How many maps a workload declares: as many as a run of it is made over.
pub fn map_count(workload: &Workload) -> u32
    ensures { result ≡ count_by (λ object. is_map object.kind) workload.now.objects }
{
    let _workers = workload.workers();
    let mut count = 0;
    for object in workload.objects() {
        count = count_one(count, is_map(object.kind));
    }
    count
}

/// The places of a workload's objects of two kinds.
#[derive(Drop)]
pub(crate) struct ObjectPlaces {
    pub atomics: Vec<usize>,
    pub maps: Vec<usize>,
}

/// The places of a workload's atomics, and of its maps.
pub(crate) fn places_of(alloc: Global, workload: &Workload) -> Result<ObjectPlaces, AllocError>
    ensures atomics { IfOk result (λ places. places.atomics.items ≡ places_from 0 is_atomic workload.now.objects) }
    ensures maps { IfOk result (λ places. places.maps.items ≡ places_from 0 is_map workload.now.objects) }
{
    let objects = workload.objects();
    let mut atomics = Vec::new(alloc);
    let mut maps = Vec::new(alloc);
    for place in 0..objects.len() {
        let kind = objects[place].kind;
        push_place(&mut atomics, place, is_atomic(kind))?;
        push_place(&mut maps, place, is_map(kind))?;
    }
    Ok(ObjectPlaces { atomics, maps })
}

// How many spare entries a call takes at most.
fn call_cost(call: &Call) -> u32
    ensures cost { result ≡ cost_of_call call.now }
    ensures small { result ≤ 1 }
{
    match &call.operation {
        Operation::Map(call) => match call {
            MapCall::Load { .. } => 0,
            _ => 1,
        },
        _ => 0,
    }
}

// How many spare entries a script takes at most.
fn script_cost(script: &[Call]) -> u32
    requires { length script.now < 2 ^ 32 }
    ensures cost { result ≡ cost_of_calls script.now }
    ensures small { result ≤ length script.now }
{
    let mut cost = 0;
    for call in script {
        cost += call_cost(call);
    }
    cost
}

/// How many spare entries the script of each worker takes at most, in order of number: as many as its caller has at the start
/// of a run.
pub fn spares(alloc: Global, workload: &Workload) -> Result<Vec<u32>, AllocError>
    ensures count { IfOk result (λ spares. length spares.items ≡ workload.now.workers) }
    ensures each { IfOk result (λ spares. (worker : ℕ) → worker < workload.now.workers → slice_index spares.items worker ≡ cost_of_calls (get_or workload.now.scripts worker [])) }
    ensures few { IfOk result (λ spares. (worker : ℕ) → worker < workload.now.workers → slice_index spares.items worker ≤ length (get_or workload.now.scripts worker [])) }
{
    let mut spares = Vec::new(alloc);
    for worker in 0..workload.workers() {
        spares.push(script_cost(workload.script(worker)))?;
    }
    Ok(spares)
}
