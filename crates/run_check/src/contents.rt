//! What a workload's maps and atomics contain: at the start, after a history, and as a report shows it at the end.
ghost use Rattle.std.specs.Prelude.{◌≡◌, ℕ, ◌++◌, List, [], ◌∷◌, map, zip, length, replicate, cond, count_by, IfOk, OnOk, Some, slice_get};
ghost use Rattle.std.specs.List.{flat_map};
ghost use Rattle.std.specs.FinMap.{empty};
ghost use Rattle.sync_types.specs.Ends.{number_end};
ghost use Rattle.sync_types.specs.SequentialAtomic.{zero_of};
ghost use Rattle.sync_model.specs.declared.item.SharedEntry.{SharedEntry};
ghost use Rattle.sync_model.specs.EndsOfHistory.{HasKeysBelow, ends_by, pair_ends_by};
ghost use Rattle.sync_model.specs.SharedHistory.{IsLegal, contents_after};
ghost use Rattle.workload.specs.Keys.{keys_in};
ghost use Rattle.run_record.specs.Objects as plans;
ghost use Rattle.shared_checks.specs.Placing.{IsOn, contents_of};

use crate::key_order::key_order;
use shared_checks::{NumberMap, Objects};
use std::alloc::{AllocError, Global};
use sync_model::SharedEntry;
use sync_model::laws::ends::ends_are_in_name_order;
use sync_types::{End, Number, Seq};
use workload::{ObjectKind, Workload};

/// The maps and atomics of a workload as they are at the start: each map without a key, and each atomic 0 or false.
pub fn objects_of(alloc: Global, workload: &Workload) -> Result<Objects, AllocError>
    ensures { IfOk result (λ objects. contents_of objects ≡ plans.contents_of workload.now) }
{
    let maps = empty_maps(alloc, workload)?;
    let numbers = zeros(alloc, workload)?;
    Ok(Objects { maps, numbers })
}

// A map without a key for each map that is declared.
fn empty_maps(alloc: Global, workload: &Workload) -> Result<Vec<NumberMap>, AllocError>
    ensures { IfOk result (λ maps. maps.items ≡ replicate (count_by (λ object. plans.is_map object.kind) workload.now.objects) empty) }
{
    let mut maps = Vec::new(alloc);
    for object in workload.objects() {
        if let ObjectKind::Map = object.kind {
            maps.push(NumberMap::new(alloc))?;
        }
    }
    Ok(maps)
}

// The zero of its type for each atomic that is declared.
fn zeros(alloc: Global, workload: &Workload) -> Result<Vec<Number>, AllocError>
    ensures { IfOk result (λ numbers. numbers.items ≡ map zero_of (flat_map (λ object. plans.types_of object.kind) workload.now.objects)) }
{
    let mut numbers = Vec::new(alloc);
    for object in workload.objects() {
        if let ObjectKind::Atomic(kind) = object.kind {
            numbers.push(kind.zero())?;
        }
    }
    Ok(numbers)
}

/// Makes all entries of a history, one after the other.
pub fn play_all(objects: &mut Objects, history: &[SharedEntry]) -> Result<(), AllocError>
    requires legal { IsLegal (contents_of objects.old) history.now }
    requires on { (n : ℕ) (entry : SharedEntry) → slice_get history.now n ≡ Some entry → IsOn (contents_of objects.old) entry.call }
    ensures { OnOk result (contents_of objects.new ≡ contents_after (contents_of objects.old) history.now) }
{
    for entry in history {
        objects.enter(&entry.call)?;
    }
    Ok(())
}

/// What a report shows of the maps and atomics: each atomic's number, and each map's keys in byte order of their names, with their values.
pub fn ends_of(
    alloc: Global,
    workload: &Workload,
    objects: &Objects,
) -> Result<Seq<End>, AllocError>
    requires { HasKeysBelow (length (keys_in workload.now.scripts)) (contents_of objects.now) }
    ensures { IfOk result (λ ends. ends ≡ plans.ends_in workload.now (contents_of objects.now)) }
{
    ends_are_in_name_order();
    let order = key_order(alloc, workload)?;
    let ObjectPlaces { atomics, maps } = places_of(alloc, workload)?;
    let mut ends = Vec::new(alloc);
    push_numbers(&mut ends, &atomics, &objects.numbers)?;
    push_maps(&mut ends, &maps, &order, &objects.maps)?;
    Ok(Seq::from_vec(ends))
}

// The places of a workload's objects of two kinds.
#[derive(Drop)]
struct ObjectPlaces {
    atomics: Vec<usize>,
    maps: Vec<usize>,
}

// The places of the atomics, and of the maps.
fn places_of(alloc: Global, workload: &Workload) -> Result<ObjectPlaces, AllocError>
    ensures atomics { IfOk result (λ places. places.atomics.items ≡ plans.places_from 0 plans.is_atomic workload.now.objects) }
    ensures maps { IfOk result (λ places. places.maps.items ≡ plans.places_from 0 plans.is_map workload.now.objects) }
{
    let objects = workload.objects();
    let mut atomics = Vec::new(alloc);
    let mut maps = Vec::new(alloc);
    for place in 0..objects.len() {
        let kind = objects[place].kind;
        push_place(&mut atomics, place, is_atomic(kind))?;
        push_place(&mut maps, place, is_map(kind))?;
    }
    Ok(ObjectPlaces { atomics, maps })
}

fn is_atomic(kind: ObjectKind) -> bool
    ensures { result ≡ plans.is_atomic kind }
{
    match kind {
        ObjectKind::Atomic(_) => true,
        _ => false,
    }
}

fn is_map(kind: ObjectKind) -> bool
    ensures { result ≡ plans.is_map kind }
{
    match kind {
        ObjectKind::Map => true,
        _ => false,
    }
}

// Adds a place, if it is one of them.
fn push_place(places: &mut Vec<usize>, place: usize, is_one: bool) -> Result<(), AllocError>
    ensures { OnOk result (places.new.items ≡ places.old.items ++ cond is_one (place ∷ []) []) }
{
    if is_one {
        places.push(place)?;
    }
    Ok(())
}

// Adds the numbers of atomics whose objects have these places.
fn push_numbers(ends: &mut Vec<End>, places: &[usize], numbers: &[Number]) -> Result<(), AllocError>
    ensures { OnOk result (ends.new.items ≡ ends.old.items ++ map number_end (zip places.now numbers.now)) }
{
    for (object, number) in places.iter().zip(numbers) {
        ends.push(End::Number {
            object: *object,
            number: *number,
        })?;
    }
    Ok(())
}

// Adds the keys of maps whose objects have these places, each map's in this order.
fn push_maps(
    ends: &mut Vec<End>,
    places: &[usize],
    order: &[u32],
    maps: &[NumberMap],
) -> Result<(), AllocError>
    ensures { OnOk result (ends.new.items ≡ ends.old.items ++ flat_map (pair_ends_by order.now) (zip places.now maps.now)) }
{
    for (object, map) in places.iter().zip(maps) {
        push_map(ends, *object, order, map)?;
    }
    Ok(())
}

// Adds the keys of a map whose object has this place, in this order.
fn push_map(
    ends: &mut Vec<End>,
    object: usize,
    order: &[u32],
    map: &NumberMap,
) -> Result<(), AllocError>
    ensures { OnOk result (ends.new.items ≡ ends.old.items ++ pair_ends_by order.now (object, map.now)) }
{
    for key in order {
        if let Some(value) = map.get(*key) {
            ends.push(End::Pair {
                object,
                key: *key,
                value,
            })?;
        }
    }
    Ok(())
}
