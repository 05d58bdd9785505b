//! Making the objects of a run.
ghost use Rattle.std.specs.Prelude.{◌≡◌, ℕ, ◌<◌, ◌≤◌, true, [], length, IfOk, Some, slice_get, vec_capacity};
ghost use Rattle.workload.specs.declared.object.ObjectLine.{ObjectLine};
ghost use Rattle.workload.specs.Draft.{is_kind};
ghost use Rattle.workload.specs.Plan.{word_of};
ghost use Rattle.thread_objects.specs.AsDeclared.{BeganAs, IsDeclared, IsPartOf, IsStartsOf, IsStopOf};
ghost use Rattle.thread_objects.specs.ByKind.{passes_in};
ghost use Rattle.thread_objects.specs.Columns.{AreSeated, AreUntouched, IsColumnOf, IsUntouched};
ghost use Rattle.thread_objects.specs.Passes.{owns_of};

use crate::by_kind::{making_arms, with_kinds};
use crate::column::AnyColumn;
use crate::crew::Crew;
use crate::kind::DeclaredKind;
use crate::object::AnyObject;
use crate::seated::begin;
use pool_core::PartCore;
use ruled_object::{Object, PassOf};
use starts_core::StartsCore;
use std::alloc::{AllocError, Global};
use sync_model::Note;
use workload::{ObjectKind, Workload};

/// Stop, and a pass of each worker to it. It keeps `note` for what halts leave, which is nothing. No other call takes memory.
pub fn make_stop<N: Note>(
    alloc: Global,
    crew: &Crew<N>,
    note: N,
) -> Result<(AnyObject<N>, AnyColumn<N>), AllocError>
    requires workers { (0 < crew.now.workers) × (crew.now.workers ≤ 64) }
    requires home { N.at crew.now.home.now note }
    ensures declared { IfOk result (λ made. IsStopOf N.at crew.now.home.now crew.now.workers made.0) }
    ensures column { IfOk result (λ made. IsColumnOf N.at crew.now.home.now crew.now.workers crew.now.workers made.0 made.1) }
    ensures untouched { IfOk result (λ made. (worker : ℕ) → owns_of (passes_in made.1) worker ≡ []) }
{
    let (object, passes) = begin(alloc, crew, (), note)?;
    Ok((AnyObject::Stop(object), AnyColumn::Stop(passes)))
}

// An object of a kind that is declared so, as it begins, and a pass of each worker to it.
fn make_declared<K: DeclaredKind, N: Note>(
    alloc: Global,
    crew: &Crew<N>,
    declared: ObjectKind,
    note: N,
) -> Result<(Object<K, N>, Vec<PassOf<K, N>>), AllocError>
    requires workers { (0 < crew.now.workers) × (crew.now.workers ≤ 64) }
    requires home { N.at crew.now.home.now note }
    requires ranged { is_kind declared ≡ true }
    requires word { K.kind.word ≡ Some (word_of declared) }
    ensures object { IfOk result (λ made. BeganAs K.kind N.at crew.now.home.now crew.now.workers declared made.0) }
    ensures passes { IfOk result (λ made. AreSeated K.begins K.out K.stands N.at crew.now.home.now crew.now.workers crew.now.workers made.0 made.1.items) }
    ensures room { IfOk result (λ made. crew.now.workers ≤ vec_capacity made.1) }
    ensures untouched { IfOk result (λ made. AreUntouched made.1.items) }
{
    let start = K::start(alloc, crew.workers, declared)?;
    begin(alloc, crew, start, note)
}

// An object of this kind.
fn make_kind<N: Note>(
    alloc: Global,
    crew: &Crew<N>,
    _workload: &Workload,
    _place: usize,
    kind: ObjectKind,
    note: N,
) -> Result<(AnyObject<N>, AnyColumn<N>), AllocError>
    requires workers { (0 < crew.now.workers) × (crew.now.workers ≤ 64) }
    requires same { crew.now.workers ≡ _workload.now.workers }
    requires home { N.at crew.now.home.now note }
    requires kind { is_kind kind ≡ true }
    ensures declared { IfOk result (λ made. IsDeclared N.at crew.now.home.now _workload.now _place kind made.0) }
    ensures column { IfOk result (λ made. IsColumnOf N.at crew.now.home.now crew.now.workers crew.now.workers made.0 made.1) }
    ensures untouched { IfOk result (λ made. IsUntouched made.0 made.1) }
{
    with_kinds!(
        making_arms,
        kind,
        (AnyObject::Shared, AnyColumn::None(crew.workers)),
        make_declared(alloc, crew, kind, note)?
    )
}

/// The object that the workload declares at this place, as it begins, and a pass of each worker to it. It keeps `note` for
/// what calls leave. No other call takes memory. Of a map, an atomic and a pool nothing is here.
pub fn make_object<N: Note>(
    alloc: Global,
    crew: &Crew<N>,
    workload: &Workload,
    place: usize,
    note: N,
) -> Result<(AnyObject<N>, AnyColumn<N>), AllocError>
    requires place { place < length workload.now.objects }
    requires workers { crew.now.workers ≡ workload.now.workers }
    requires home { N.at crew.now.home.now note }
    ensures declared { IfOk result (λ made. (line : ObjectLine) → slice_get workload.now.objects place ≡ Some line → IsDeclared N.at crew.now.home.now workload.now place line.kind made.0) }
    ensures column { IfOk result (λ made. IsColumnOf N.at crew.now.home.now crew.now.workers crew.now.workers made.0 made.1) }
    ensures untouched { IfOk result (λ made. (worker : ℕ) → owns_of (passes_in made.1) worker ≡ []) }
{
    let _workers = workload.workers();
    let kind = workload.objects()[place].kind;
    make_kind(alloc, crew, workload, place, kind, note)
}

/// A part of the pool that the workload declares at this place, as it begins, and a pass of each worker. It keeps `note` for what
/// calls leave, and has room for all items that the workload's scripts put into the pool. No other call takes memory.
pub fn make_part<N: Note>(
    alloc: Global,
    crew: &Crew<N>,
    workload: &Workload,
    place: usize,
    note: N,
) -> Result<(AnyObject<N>, AnyColumn<N>), AllocError>
    requires workers { crew.now.workers ≡ workload.now.workers }
    requires home { N.at crew.now.home.now note }
    ensures part { IfOk result (λ made. IsPartOf N.at crew.now.home.now workload.now place made.0) }
    ensures column { IfOk result (λ made. IsColumnOf N.at crew.now.home.now crew.now.workers crew.now.workers made.0 made.1) }
    ensures untouched { IfOk result (λ made. (worker : ℕ) → owns_of (passes_in made.1) worker ≡ []) }
{
    let _workers = workload.workers();
    let core = PartCore::new(alloc, workload.puts_at(place))?;
    let (object, passes) = begin(alloc, crew, core, note)?;
    Ok((AnyObject::PoolPart(object), AnyColumn::PoolPart(passes)))
}

/// Starts, of which the workload says which workers wait to be started, and a pass of each worker to it. It keeps `note` for what calls
/// leave. No other call takes memory.
#[tactic(auto, using(crate::proofs::DormantCount::dormant_count))]
pub fn make_starts<N: Note>(
    alloc: Global,
    crew: &Crew<N>,
    workload: &Workload,
    note: N,
) -> Result<(AnyObject<N>, AnyColumn<N>), AllocError>
    requires workers { crew.now.workers ≡ workload.now.workers }
    requires home { N.at crew.now.home.now note }
    ensures starts { IfOk result (λ made. IsStartsOf N.at crew.now.home.now workload.now made.0) }
    ensures column { IfOk result (λ made. IsColumnOf N.at crew.now.home.now crew.now.workers crew.now.workers made.0 made.1) }
    ensures untouched { IfOk result (λ made. (worker : ℕ) → owns_of (passes_in made.1) worker ≡ []) }
{
    let _workers = workload.workers();
    let core = StartsCore::new(alloc, workload.dormant())?;
    let (object, passes) = begin(alloc, crew, core, note)?;
    Ok((AnyObject::Starts(object), AnyColumn::Starts(passes)))
}
