//! Which calls on maps and atomics a call of a script makes, and whose journal an entry is of.
ghost use Rattle.std.specs.Prelude.{◌≡◌, ◌<◌};
ghost use Rattle.std.specs.Option.{option_map};
ghost use Rattle.run_record.specs.Objects.{map_number, atomic_number};
ghost use Rattle.run_check.specs.ToldItems.{type_at, loads, asked_on, asked_by, ranged_by, kept_at, declared_speaker, later_speaker, speaker_behind, speaker_of, script_call};

use crate::told::deeds::Speaker;
use list_checks::spell::numbers::{atomic_number, map_number, starts_number};
use list_checks::spell::renamed::numbered;
use script_calls::{Call, ComposedCall, Operation};
use sync_model::SharedCall;
use sync_types::{AtomicCall, AtomicKind, Number};
use workload::laws::a_workload_has_few_objects;
use workload::{ObjectKind, ObjectLine, Workload};

/// A call on a map or an atomic that a call of a script makes.
#[derive(Clone, Copy, Drop)]
pub struct Asked {
    pub call: SharedCall,
    /// The type of the numbers that it replies, where it is one on an atomic.
    pub kind: AtomicKind,
}

// The number of the object at a place among the maps.
fn map_at(workload: &Workload, place: usize) -> u32
    ensures { result ≡ map_number workload.now.objects place }
{
    a_workload_has_few_objects();
    let _workers = workload.workers();
    map_number(workload.objects(), place) as u32
}

// The number of the object at a place among the atomics.
fn atomic_at(workload: &Workload, place: usize) -> u32
    ensures { result ≡ atomic_number workload.now.objects place }
{
    a_workload_has_few_objects();
    let _workers = workload.workers();
    atomic_number(workload.objects(), place) as u32
}

// The type of the atomic at a place.
fn type_at(objects: &[ObjectLine], place: usize) -> AtomicKind
    ensures { result ≡ type_at objects.now place }
{
    match objects.get(place) {
        None => AtomicKind::Int64,
        Some(object) => match object.kind {
            ObjectKind::Atomic(kind) => kind,
            _ => AtomicKind::Int64,
        },
    }
}

// The load of the atomic at a place.
fn loads(workload: &Workload, place: usize) -> Asked
    ensures { result ≡ loads workload.now.objects place }
{
    Asked {
        call: SharedCall::Atomic {
            atomic: atomic_at(workload, place),
            call: AtomicCall::Load,
        },
        kind: type_at(workload.objects(), place),
    }
}

// A call on a map or an atomic, the test of an `ifeq` or of a `waitfor`, and the `add` of a `do`.
fn asked_on(
    workload: &Workload,
    place: usize,
    kind: ObjectKind,
    operation: &Operation,
) -> Option<Asked>
    ensures { result ≡ asked_on workload.now place kind operation.now }
{
    match (kind, operation) {
        (ObjectKind::Map, Operation::Map(call)) => Some(Asked {
            call: SharedCall::Map {
                map: map_at(workload, place),
                call: numbered(workload.keys(), call),
            },
            kind: AtomicKind::Int64,
        }),
        (ObjectKind::Atomic(kind), Operation::Atomic(call)) => Some(Asked {
            call: SharedCall::Atomic {
                atomic: atomic_at(workload, place),
                call: *call,
            },
            kind,
        }),
        (ObjectKind::Atomic(_), Operation::Composed(ComposedCall::IfEqual { .. })) => {
            Some(loads(workload, place))
        }
        (ObjectKind::Cond { .. }, Operation::Composed(ComposedCall::WaitFor { atomic, .. })) => {
            Some(loads(workload, *atomic))
        }
        (ObjectKind::Once { atomic, delta }, Operation::Once)
        | (ObjectKind::Flight { atomic, delta }, Operation::Fly(_)) => Some(Asked {
            call: SharedCall::Atomic {
                atomic: atomic_at(workload, atomic),
                call: AtomicCall::Add {
                    operand: Number::Int64(delta),
                },
            },
            kind: AtomicKind::Int64,
        }),
        _ => None,
    }
}

/// The call on a map or an atomic that a call of a script makes, if it makes one.
pub fn asked_by(workload: &Workload, call: Option<&Call>) -> Option<Asked>
    ensures { result ≡ asked_by workload.now (option_map (λ c. c.now) call.entry) }
{
    match call {
        None => None,
        Some(call) => match workload.objects().get(call.object) {
            None => None,
            Some(object) => asked_on(workload, call.object, object.kind, &call.operation),
        },
    }
}

/// The map over which a call of a script goes, if it is a `range`.
pub fn ranged_by(workload: &Workload, call: Option<&Call>) -> Option<u32>
    ensures { result ≡ ranged_by workload.now (option_map (λ c. c.now) call.entry) }
{
    match call {
        None => None,
        Some(call) => match workload.objects().get(call.object) {
            None => None,
            Some(object) => match (object.kind, &call.operation) {
                (ObjectKind::Map, Operation::Range) => Some(map_at(workload, call.object)),
                _ => None,
            },
        },
    }
}

/// The call of a worker's script at a place.
pub fn script_call(workload: &Workload, worker: u32, index: Option<usize>) -> Option<&Call>
    requires { worker < workload.now.workers }
    ensures { option_map (λ c. c.now) result ≡ script_call workload.now worker index }
{
    match index {
        None => None,
        Some(index) => workload.script(worker).get(index),
    }
}

/// What a once keeps, by its object.
pub fn kept_at(kept: &[(usize, i64)], object: usize) -> Option<i64>
    ensures { result ≡ kept_at kept.now object }
{
    for (of, sum) in kept {
        if *of == object {
            return Some(*sum);
        }
    }
    None
}

// How an object that a workload declares speaks.
fn declared_speaker(
    kept: &[(usize, i64)],
    object: usize,
    worker: u32,
    sum: i64,
    kind: ObjectKind,
) -> Speaker
    ensures { result ≡ declared_speaker kept.now object worker sum kind }
{
    match kind {
        ObjectKind::Mutex => Speaker::Mutex(worker),
        ObjectKind::RwMutex => Speaker::RwMutex,
        ObjectKind::Cond { .. } => Speaker::Cond,
        ObjectKind::WaitGroup { .. } => Speaker::WaitGroup,
        ObjectKind::Once { .. } => Speaker::Once(sum, kept_at(kept, object).unwrap_or(sum)),
        ObjectKind::OnceFunc { code } => Speaker::OnceFunc(code),
        ObjectKind::OnceValue { value } => Speaker::OnceValue(value),
        ObjectKind::Sema { .. } => Speaker::Sema,
        ObjectKind::Flight { .. } => Speaker::Flight,
        ObjectKind::Map | ObjectKind::Atomic(_) | ObjectKind::Pool | ObjectKind::Var => {
            Speaker::Silent
        }
    }
}

// How an object behind the declared ones speaks.
fn later_speaker(workload: &Workload, object: usize, place: usize) -> Speaker
    ensures { result ≡ later_speaker workload.now object place }
{
    let workers = workload.workers() as usize;
    if object < starts_number(workload) {
        let behind = place.saturating_sub(workload.objects().len());
        Speaker::PoolPart((behind % workers) as u32)
    } else {
        Speaker::Starts
    }
}

// How the object of a number speaks, which isn't Stop.
fn speaker_behind(
    workload: &Workload,
    kept: &[(usize, i64)],
    object: usize,
    worker: u32,
    sum: i64,
    place: usize,
) -> Speaker
    ensures { result ≡ speaker_behind workload.now kept.now object worker sum place }
{
    match workload.objects().get(place) {
        None => later_speaker(workload, object, place),
        Some(line) => declared_speaker(kept, object, worker, sum, line.kind),
    }
}

/// How the object of a number speaks in the list of a worker, whose last `add` answered this sum.
pub fn speaker_of(
    workload: &Workload,
    kept: &[(usize, i64)],
    object: usize,
    worker: u32,
    sum: i64,
) -> Speaker
    ensures { result ≡ speaker_of workload.now kept.now object worker sum }
{
    if object == 0 {
        Speaker::Silent
    } else {
        speaker_behind(workload, kept, object, worker, sum, object - 1)
    }
}
