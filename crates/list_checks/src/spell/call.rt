//! The calls of a workload, as a list spells them, by the kind of their object.
ghost use Rattle.std.specs.Prelude.{◌≡◌, ℕ, ◌≤◌, ◌<◌, true, false, IfOk, length, drop};
ghost use Rattle.workload.specs.Keys.{keys_in};
ghost use Rattle.workload.specs.Plan.{refers};
ghost use Rattle.run_record.specs.Objects.{map_number, atomic_number, first_part};
ghost use Rattle.run_cuts.specs.CallCuts.{call_cut, on_cut};
ghost use Rattle.run_cuts.specs.OneLine.{settled_as, settles_by};
ghost use Rattle.run_cuts.specs.SharedCuts.{map_cut, atomic_cut};
ghost use Rattle.list_checks.specs.SpellFound.{IsFound, range_cut};
ghost use Rattle.list_checks.specs.SpellLines.{IsCallFound, is_composed, is_range_of_map};

use crate::spell::cond::spell_cond;
use crate::spell::flight::spell_fly;
use crate::spell::group::spell_group;
use crate::spell::mutex::spell_mutex;
use crate::spell::numbers::{atomic_number, first_part, map_number, object_number, starts_number};
use crate::spell::once::{spell_do, spell_once_func, spell_once_value};
use crate::spell::placed::{CallOnAtomic, CallOnMap, spell_placed};
use crate::spell::pool::{Pool, spell_pool};
use crate::spell::range::{sorted, spell_cursor};
use crate::spell::renamed::{number_of, numbered};
use crate::spell::rw_mutex::spell_rw_mutex;
use crate::spell::sema::spell_sema;
use crate::spell::spelt::{Found, Spelt, Stop};
use crate::spell::starts::spell_go;
use crate::spell::tests::{Waiting, spell_if_equal, spell_wait_for};
use run_record::Made;
use script_calls::{Call, ComposedCall, Operation, Reply};
use std::alloc::{AllocError, Global};
use sync_types::{AtomicCall, MapCall, Name};
use workload::{ObjectKind, Workload};

/// The call of a worker with which its list goes on behind a place, where it has made so many calls on maps and atomics before.
pub fn spell_call(
    alloc: Global,
    workload: &Workload,
    worker: u32,
    before: usize,
    call: &Call,
    items: &[Made],
    from: usize,
) -> Result<Found<Reply<u32>>, AllocError>
    requires worker { worker < workload.now.workers }
    requires from { from ≤ length items.now }
    ensures { IfOk result (λ found. IsCallFound (settles_by workload.now call.now) items.now from (call_cut workload.now worker before call.now (drop from items.now)) found) }
{
    let place = call.object;
    let Some(object) = workload.objects().get(place) else {
        return Ok(Err(Stop::Wrong));
    };
    if is_range_of_map(object.kind, &call.operation) {
        return spell_range(alloc, workload, place, before, items, from);
    }
    Ok(spell_on(
        workload,
        worker,
        place,
        object.kind,
        &call.operation,
        items,
        from,
    ))
}

fn is_range_of_map(kind: ObjectKind, operation: &Operation) -> bool
    ensures { result ≡ is_range_of_map kind operation.now }
{
    matches!((kind, operation), (ObjectKind::Map, Operation::Range))
}

// The `range` of the map at a place: the pairs that were shown, sorted by the bytes of their keys.
fn spell_range(
    alloc: Global,
    workload: &Workload,
    place: usize,
    before: usize,
    items: &[Made],
    from: usize,
) -> Result<Found<Reply<u32>>, AllocError>
    requires { from ≤ length items.now }
    ensures { IfOk result (λ found. IsCallFound (settled_as (keys_in workload.now.scripts) Operation.Range) items.now from (range_cut (map_number workload.now.objects place) before (drop from items.now)) found) }
{
    let map = map_number(workload.objects(), place);
    match spell_cursor(alloc, map, before, items, from)? {
        Ok(spelt) => {
            let Spelt { end, outcome } = spelt;
            let pairs = sorted(workload.keys().names(), outcome);
            Ok(Ok(Spelt {
                end,
                outcome: Reply::Pairs(pairs),
            }))
        }
        Err(stop) => Ok(Err(stop)),
    }
}

// The call on the object at a place, which is of this kind, but for the `range` of a map.
fn spell_on(
    workload: &Workload,
    worker: u32,
    place: usize,
    kind: ObjectKind,
    operation: &Operation,
    items: &[Made],
    from: usize,
) -> Found<Reply<u32>>
    requires worker { worker < workload.now.workers }
    requires place { place < length workload.now.objects }
    requires reference { refers workload.now.objects kind ≡ true }
    requires from { from ≤ length items.now }
    requires told { is_range_of_map kind operation.now ≡ false }
    ensures { (before : ℕ) → IsFound items.now from (on_cut workload.now worker before place kind operation.now (drop from items.now)) result }
{
    match operation {
        Operation::Composed(call) => spell_composed(workload, place, kind, *call, items, from),
        _ => spell_simple(workload, worker, place, kind, operation, items, from),
    }
}

// The same, of a call that isn't made of others.
fn spell_simple(
    workload: &Workload,
    worker: u32,
    place: usize,
    kind: ObjectKind,
    operation: &Operation,
    items: &[Made],
    from: usize,
) -> Found<Reply<u32>>
    requires worker { worker < workload.now.workers }
    requires place { place < length workload.now.objects }
    requires reference { refers workload.now.objects kind ≡ true }
    requires from { from ≤ length items.now }
    requires told { is_range_of_map kind operation.now ≡ false }
    requires simple { is_composed operation.now ≡ false }
    ensures { (before : ℕ) → IsFound items.now from (on_cut workload.now worker before place kind operation.now (drop from items.now)) result }
{
    let object = object_number(workload, place);
    match (kind, operation) {
        (ObjectKind::Map, Operation::Map(call)) => spell_map(workload, place, call, items, from),
        (ObjectKind::Atomic(_), Operation::Atomic(call)) => {
            spell_atomic(workload, place, *call, items, from)
        }
        (ObjectKind::Mutex, Operation::Mutex(call)) => spell_mutex(object, *call, items, from),
        (ObjectKind::RwMutex, Operation::RwMutex(call)) => {
            spell_rw_mutex(object, *call, items, from)
        }
        (ObjectKind::Cond { mutex }, Operation::Cond(call)) => {
            spell_cond(object, object_number(workload, mutex), *call, items, from)
        }
        (ObjectKind::WaitGroup { .. }, Operation::WaitGroup(call)) => {
            spell_group(object, *call, items, from)
        }
        (ObjectKind::Once { atomic, delta }, Operation::Once) => {
            let number = atomic_number(workload.objects(), atomic);
            spell_do(object, number, delta, items, from)
        }
        (ObjectKind::OnceFunc { code }, Operation::OnceFunc) => {
            spell_once_func(object, code, items, from)
        }
        (ObjectKind::OnceValue { value }, Operation::OnceValue) => {
            spell_once_value(object, value, items, from)
        }
        (ObjectKind::Pool, Operation::Pool(call)) => {
            spell_pool(pool_at(workload, worker, place), *call, items, from)
        }
        (ObjectKind::Sema { .. }, Operation::Sema(call)) => spell_sema(object, *call, items, from),
        (ObjectKind::Flight { atomic, delta }, Operation::Fly(key)) => {
            let number = atomic_number(workload.objects(), atomic);
            let key = number_of(workload.keys(), key);
            spell_fly(object, number, delta, key, items, from)
        }
        _ => Err(Stop::Wrong),
    }
}

// The call on the map at a place.
fn spell_map(
    workload: &Workload,
    place: usize,
    call: &MapCall<Name>,
    items: &[Made],
    from: usize,
) -> Found<Reply<u32>>
    requires { from ≤ length items.now }
    ensures { IsFound items.now from (map_cut (keys_in workload.now.scripts) (map_number workload.now.objects place) call.now (drop from items.now)) result }
{
    let on = CallOnMap {
        map: map_number(workload.objects(), place),
        call: numbered(workload.keys(), call),
    };
    spell_placed(&on, items, from)
}

// The call on the atomic at a place.
fn spell_atomic(
    workload: &Workload,
    place: usize,
    call: AtomicCall,
    items: &[Made],
    from: usize,
) -> Found<Reply<u32>>
    requires { from ≤ length items.now }
    ensures { IsFound items.now from (atomic_cut (atomic_number workload.now.objects place) call (drop from items.now)) result }
{
    let on = CallOnAtomic {
        atomic: atomic_number(workload.objects(), place),
        call,
    };
    spell_placed(&on, items, from)
}

// The pool at a place, of a worker.
fn pool_at(workload: &Workload, worker: u32, place: usize) -> Pool
    requires { worker < workload.now.workers }
    ensures workers { result.workers ≡ workload.now.workers }
    ensures worker { result.worker ≡ worker }
    ensures first { result.first ≡ first_part workload.now place }
{
    Pool {
        workers: workload.workers(),
        worker,
        first: first_part(workload, place),
    }
}

// The call that is made of others, on the object at a place.
fn spell_composed(
    workload: &Workload,
    place: usize,
    kind: ObjectKind,
    call: ComposedCall,
    items: &[Made],
    from: usize,
) -> Found<Reply<u32>>
    requires place { place < length workload.now.objects }
    requires reference { refers workload.now.objects kind ≡ true }
    requires from { from ≤ length items.now }
    ensures { (worker before : ℕ) → IsFound items.now from (on_cut workload.now worker before place kind (Operation.Composed call) (drop from items.now)) result }
{
    match (kind, call) {
        (ObjectKind::Atomic(_), ComposedCall::IfEqual { value, passes: _ }) => {
            let number = atomic_number(workload.objects(), place);
            spell_if_equal(number, value, items, from)
        }
        (
            ObjectKind::Cond { mutex },
            ComposedCall::WaitFor {
                atomic,
                value,
                tries,
            },
        ) => {
            let on = Waiting {
                cond: object_number(workload, place),
                mutex: object_number(workload, mutex),
                atomic: atomic_number(workload.objects(), atomic),
            };
            spell_wait_for(on, value, tries, items, from)
        }
        (ObjectKind::WaitGroup { .. }, ComposedCall::Go { worker: started }) => {
            spell_go(
                object_number(workload, place),
                starts_number(workload),
                started,
                items,
                from,
            )
        }
        _ => Err(Stop::Wrong),
    }
}
