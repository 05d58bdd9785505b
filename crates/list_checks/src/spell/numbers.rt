//! The numbers of a workload's objects in a record.
ghost use Rattle.std.specs.Prelude.{◌≡◌, ◌≤◌, ◌<◌, ◌^◌, length, take, count_by};
ghost use Rattle.run_record.specs.Record.{object_number};
ghost use Rattle.run_record.specs.Objects.{is_map, is_atomic, is_pool, map_number, atomic_number, first_part, starts_number};

use workload::laws::a_workload_has_few_objects;
use workload::{ObjectKind, ObjectLine, Workload};

// The objects before a place; all, where there are fewer.
fn before(objects: &[ObjectLine], place: usize) -> &[ObjectLine]
    ensures { result.now ≡ take place objects.now }
{
    if place < objects.len() {
        &objects[..place]
    } else {
        objects
    }
}

/// The number of the object at a place.
pub fn object_number(workload: &Workload, place: usize) -> usize
    requires { place < length workload.now.objects }
    ensures { result ≡ object_number place }
{
    let _count = workload.objects().len();
    place + 1
}

/// The number of the object at a place among the maps.
pub fn map_number(objects: &[ObjectLine], place: usize) -> usize
    ensures { result ≡ map_number objects.now place }
{
    let lines = before(objects, place);
    let mut count = 0;
    for index in 0..lines.len() {
        if matches!(lines[index].kind, ObjectKind::Map) {
            count += 1;
        }
    }
    count
}

/// The number of the object at a place among the atomics.
pub fn atomic_number(objects: &[ObjectLine], place: usize) -> usize
    ensures { result ≡ atomic_number objects.now place }
{
    let lines = before(objects, place);
    let mut count = 0;
    for index in 0..lines.len() {
        if matches!(lines[index].kind, ObjectKind::Atomic(_)) {
            count += 1;
        }
    }
    count
}

// How many of these objects are pools.
fn pools(objects: &[ObjectLine]) -> usize
    ensures pools { result ≡ count_by (λ object. is_pool object.kind) objects.now }
    ensures few { result ≤ length objects.now }
{
    let mut count = 0;
    for index in 0..objects.len() {
        if matches!(objects[index].kind, ObjectKind::Pool) {
            count += 1;
        }
    }
    count
}

/// The number of part 0 of the pool at a place.
pub fn first_part(workload: &Workload, place: usize) -> usize
    ensures part { result ≡ first_part workload.now place }
    ensures few { result < 2 ^ 32 }
{
    a_workload_has_few_objects();
    let workers = workload.workers() as usize;
    let objects = workload.objects();
    objects.len() + 1 + pools(before(objects, place)) * workers
}

/// The number of Starts.
pub fn starts_number(workload: &Workload) -> usize
    ensures { result ≡ starts_number workload.now }
{
    a_workload_has_few_objects();
    let workers = workload.workers() as usize;
    let objects = workload.objects();
    objects.len() + 1 + pools(objects) * workers
}
