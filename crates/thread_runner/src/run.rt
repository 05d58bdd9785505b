//! A run of a workload by threads, over any shared maps and atomics.
ghost use Rattle.std.specs.Prelude.{◌≡◌, ◌≤◌, ◌+◌, false, IfOk, IfErr, OnOk, List, Err, [], map, vec_capacity};
ghost use Rattle.sync_model.specs.Shared.{AreAllCallers};
ghost use Rattle.sync_outside.specs.Faults.{Rose, RoseBy};
ghost use Rattle.workload.specs.Dialect.{has_variables};
ghost use Rattle.thread_objects.specs.AsDeclared.{AreDeclared};
ghost use Rattle.thread_objects.specs.Rows.{AreColumns};
ghost use Rattle.thread_runner.specs.Sites.{AreShared, IsSite};
ghost use Rattle.thread_runner.specs.declared.fault.RunFault.TheVariants as faults;
ghost use Rattle.thread_runner.specs.AllGone.{HaveGone};
ghost use Rattle.thread_runner.specs.Dealing.{MadeNothingFrom, AreRows};
ghost use Rattle.thread_runner.specs.EndsPlans.{HaveMadeNone, HaveSpare};
ghost use Rattle.thread_runner.specs.Runs.{HasRun};

use crate::deal::{collect, deal, make_objects_by};
use crate::fault::RunFault;
use crate::gather::Left;
use crate::hire::hire;
use crate::site::{Site, numbers_of};
use run_record::laws::endings::stop_says_how_a_run_ended;
use run_record::laws::limits::{a_range_shows_no_key_but_the_workloads, an_int64_answers_an_int64};
use run_record::laws::order::numbers_that_rise_item_by_item_rise;
use script_calls::{Outcome, Report};
use std::alloc::{AllocError, Global};
use std::sync::Wait;
use std::thread::Threads;
use sync_model::laws::shared_steps::one_more_call_keeps_the_law;
use sync_model::{Caller, Note, Shared};
use sync_outside::{Clock, Gate, Spawner, Started};
use sync_types::Seq;
use thread_objects::parts::laws::a_worker_knows_its_own_calls;
use thread_objects::{AnyColumn, AnyObject, AnyPass, Catalog, Crew, journals};
use workload::Workload;

// What a run comes to whose workers have all ended.
fn outcome_of<S: Shared>(
    alloc: Global,
    workload: &Workload,
    shared: &S,
    crew: &Crew<S::Mark>,
    objects: &[AnyObject<S::Mark>],
    columns: &mut [AnyColumn<S::Mark>],
    left: Left<S::Mark>,
) -> (Outcome, Vec<Caller<S::Mark>>)
    requires home { crew.now.home.now ≡ S.home_of shared.now }
    requires workers { (crew.now.workers ≡ workload.now.workers) × (S.count shared.now ≡ workload.now.workers) }
    requires shared { AreShared workload.now (S.maps shared.now) (S.kinds shared.now) (S.takes shared.now) }
    requires declared { AreDeclared S.Mark.at (S.home_of shared.now) workload.now objects.now }
    requires columns { AreColumns S.Mark.at (S.home_of shared.now) workload.now.workers 0 objects.now columns.old }
    requires nothing { MadeNothingFrom workload.now.workers columns.old }
    requires gone { (rows : List (List (AnyPass S.Mark))) × (callers : List (Caller S.Mark)) × AreRows S.Mark.at (S.home_of shared.now) workload.now.workers objects.now rows × AreAllCallers S.Mark.at S.Mark.own (S.home_of shared.now) callers workload.now.workers × HaveMadeNone S.Mark.own callers
        × HaveGone S.Mark.at S.Mark.own S.Mark.front (S.home_of shared.now) workload.now objects.now rows callers (map (λ row. row.items) left.passes.items) left.callers.items left.replies.items }
    ensures comes { HasRun S.Mark.at S.Mark.own S.Mark.front S.seen (S.home_of shared.now) workload.now result.0 result.1.items }
{
    a_range_shows_no_key_but_the_workloads();
    an_int64_answers_an_int64();
    a_worker_knows_its_own_calls();
    numbers_that_rise_item_by_item_rise();
    one_more_call_keeps_the_law();
    stop_says_how_a_run_ended();
    let _workers = workload.workers();
    let Left {
        mut callers,
        passes,
        replies,
    } = left;
    collect(crew, objects, columns, passes);
    let stopped = journals(crew, workload, objects, columns);
    shared.settle(&mut callers);
    let report = Report {
        replies: replies.into_seq(),
        ends: Seq::new(alloc),
    };
    let outcome = match stopped {
        None => Outcome::Done(report),
        Some(misuse) => Outcome::Misused(report, misuse),
    };
    (outcome, callers)
}

// Starts the workers, and takes in what they leave.
fn work_all<
    S: Shared + Sync,
    C: Clock + Sync,
    P: Spawner,
    G: Gate + Sync,
    R: Threads + Wait + Sync,
>(
    rt: &R,
    alloc: Global,
    workload: &Workload,
    shared: &S,
    objects: &[AnyObject<S::Mark>],
    numbers: &[u32],
    clock: &C,
    spawner: &mut P,
    gate: &G,
    callers: Vec<Caller<S::Mark>>,
    rows: Vec<Vec<AnyPass<S::Mark>>>,
    left: &mut Left<S::Mark>,
) -> Result<(), RunFault>
where
    S::Mark: Send,
    S::Cursor: Send,
    <S::Mark as Note>::Home: Sync,
    requires site { IsSite S.Mark.at (S.home_of shared.now) workload.now (S.maps shared.now) (S.kinds shared.now) (S.takes shared.now) objects.now numbers.now }
    requires rows { AreRows S.Mark.at (S.home_of shared.now) workload.now.workers objects.now (map (λ row. row.items) rows.items) }
    requires callers { AreAllCallers S.Mark.at S.Mark.own (S.home_of shared.now) callers.items workload.now.workers }
    requires unused { HaveMadeNone S.Mark.own callers.items }
    requires spare { HaveSpare S.Mark.own workload.now callers.items }
    requires empty { (left.old.callers.items ≡ []) × (left.old.passes.items ≡ []) × (left.old.replies.items ≡ []) }
    requires room { (workload.now.workers ≤ vec_capacity left.old.callers) × (workload.now.workers ≤ vec_capacity left.old.passes) × (workload.now.workers ≤ left.old.replies.room) }
    ensures gone { OnOk result (HaveGone S.Mark.at S.Mark.own S.Mark.front (S.home_of shared.now) workload.now objects.now (map (λ row. row.items) rows.items) callers.items
        (map (λ row. row.items) left.new.passes.items) left.new.callers.items left.new.replies.items) }
    ensures refused { result ≡ Err faults.StartRefused → Rose (P.faults spawner.old) (P.faults spawner.new) }
    ensures stays { ¬ (result ≡ Err faults.StartRefused) → P.faults spawner.new ≡ P.faults spawner.old }
    ensures faults { P.faults spawner.old ≤ P.faults spawner.new }
    ensures ran { OnOk result (RoseBy workload.now.workers (P.ran spawner.old) (P.ran spawner.new)) }
    ensures rounds { P.rounds spawner.new ≤ P.rounds spawner.old + 1 }
    ensures unstarted { IfErr result (λ fault. (P.ran spawner.new ≡ P.ran spawner.old) × (P.rounds spawner.new ≡ P.rounds spawner.old)) }
{
    let _workers = workload.workers();
    let site = Site {
        catalog: Catalog {
            workload,
            shared,
            numbers,
        },
        objects,
    };
    let jobs = hire(alloc, &site, clock, gate, callers, rows)?;
    match spawner.start_all(rt, alloc, jobs) {
        Started::Memory(_jobs) => Err(RunFault::Memory),
        Started::Refused(_jobs) => Err(RunFault::StartRefused),
        Started::Done(gone) => {
            left.gather(gone);
            Ok(())
        }
    }
}

// Deals the workers their passes to all objects, in order of number, and makes room for what the workers leave.
fn deal_all<S: Shared>(
    alloc: Global,
    crew: &Crew<S::Mark>,
    objects: &[AnyObject<S::Mark>],
    columns: &mut [AnyColumn<S::Mark>],
) -> Result<(Vec<Vec<AnyPass<S::Mark>>>, Left<S::Mark>), AllocError>
    requires columns { AreColumns S.Mark.at crew.now.home.now crew.now.workers crew.now.workers objects.now columns.old }
    requires nothing { MadeNothingFrom 0 columns.old }
    ensures rows { IfOk result (λ dealt. AreRows S.Mark.at crew.now.home.now crew.now.workers objects.now (map (λ row. row.items) dealt.0.items)) }
    ensures columns { IfOk result (λ dealt. AreColumns S.Mark.at crew.now.home.now crew.now.workers 0 objects.now columns.new) }
    ensures nothing { IfOk result (λ dealt. MadeNothingFrom crew.now.workers columns.new) }
    ensures empty { IfOk result (λ dealt. (dealt.1.callers.items ≡ []) × (dealt.1.passes.items ≡ []) × (dealt.1.replies.items ≡ [])) }
    ensures room { IfOk result (λ dealt. (crew.now.workers ≤ vec_capacity dealt.1.callers) × (crew.now.workers ≤ vec_capacity dealt.1.passes) × (crew.now.workers ≤ dealt.1.replies.room)) }
{
    let rows = deal(alloc, crew, objects, columns)?;
    let left = Left::with_room(alloc, crew.workers as usize)?;
    Ok((rows, left))
}

// Runs a workload on its objects, to which no pass was dealt yet.
fn run_on<S: Shared + Sync, C: Clock + Sync, P: Spawner, G: Gate + Sync, R: Threads + Wait + Sync>(
    rt: &R,
    alloc: Global,
    workload: &Workload,
    shared: &S,
    crew: &Crew<S::Mark>,
    objects: &[AnyObject<S::Mark>],
    columns: &mut [AnyColumn<S::Mark>],
    numbers: &[u32],
    clock: &C,
    spawner: &mut P,
    gate: &G,
    callers: Vec<Caller<S::Mark>>,
) -> Result<(Outcome, Vec<Caller<S::Mark>>), RunFault>
where
    S::Mark: Send,
    S::Cursor: Send,
    <S::Mark as Note>::Home: Sync,
    requires home { crew.now.home.now ≡ S.home_of shared.now }
    requires workers { (crew.now.workers ≡ workload.now.workers) × (S.count shared.now ≡ workload.now.workers) }
    requires site { IsSite S.Mark.at (S.home_of shared.now) workload.now (S.maps shared.now) (S.kinds shared.now) (S.takes shared.now) objects.now numbers.now }
    requires columns { AreColumns S.Mark.at (S.home_of shared.now) workload.now.workers workload.now.workers objects.now columns.old }
    requires nothing { MadeNothingFrom 0 columns.old }
    requires callers { AreAllCallers S.Mark.at S.Mark.own (S.home_of shared.now) callers.items workload.now.workers }
    requires unused { HaveMadeNone S.Mark.own callers.items }
    requires spare { HaveSpare S.Mark.own workload.now callers.items }
    ensures comes { IfOk result (λ done. HasRun S.Mark.at S.Mark.own S.Mark.front S.seen (S.home_of shared.now) workload.now done.0 done.1.items) }
    ensures refused { result ≡ Err faults.StartRefused → Rose (P.faults spawner.old) (P.faults spawner.new) }
    ensures stays { ¬ (result ≡ Err faults.StartRefused) → P.faults spawner.new ≡ P.faults spawner.old }
    ensures faults { P.faults spawner.old ≤ P.faults spawner.new }
    ensures ran { IfOk result (λ done. RoseBy workload.now.workers (P.ran spawner.old) (P.ran spawner.new)) }
    ensures rounds { P.rounds spawner.new ≤ P.rounds spawner.old + 1 }
    ensures unstarted { IfErr result (λ fault. (P.ran spawner.new ≡ P.ran spawner.old) × (P.rounds spawner.new ≡ P.rounds spawner.old)) }
{
    let (rows, mut left) = deal_all::<S>(alloc, crew, objects, columns)?;
    work_all(
        rt, alloc, workload, shared, objects, numbers, clock, spawner, gate, callers, rows,
        &mut left,
    )?;
    Ok(outcome_of(alloc, workload, shared, crew, objects, columns, left))
}

/// Makes the calls of a workload's workers in threads, one for each worker, on these maps and atomics, of which the callers are
/// all callers, one for each worker, in order of number. Each call passes the gate before and after. All memory is taken
/// before the first start.
///
/// The outcome lacks its ends. The callers come back in order of number, and have seen the whole history.
///
/// # Errors
///
/// `StartRefused` where a thread's start was refused, and `Memory`. No worker has made a call then, and the callers are gone.
pub fn threaded_over<
    S: Shared + Sync,
    C: Clock + Sync,
    P: Spawner,
    G: Gate + Sync,
    R: Threads + Wait + Sync,
>(
    rt: &R,
    alloc: Global,
    workload: &Workload,
    shared: &S,
    callers: Vec<Caller<S::Mark>>,
    clock: &C,
    spawner: &mut P,
    gate: &G,
) -> Result<(Outcome, Vec<Caller<S::Mark>>), RunFault>
where
    S::Mark: Send,
    S::Cursor: Send,
    <S::Mark as Note>::Home: Sync,
    requires plain { has_variables workload.now ≡ false }
    requires shared { AreShared workload.now (S.maps shared.now) (S.kinds shared.now) (S.takes shared.now) }
    requires count { S.count shared.now ≡ workload.now.workers }
    requires callers { AreAllCallers S.Mark.at S.Mark.own (S.home_of shared.now) callers.items workload.now.workers }
    requires unused { HaveMadeNone S.Mark.own callers.items }
    requires spare { HaveSpare S.Mark.own workload.now callers.items }
    ensures comes { IfOk result (λ done. HasRun S.Mark.at S.Mark.own S.Mark.front S.seen (S.home_of shared.now) workload.now done.0 done.1.items) }
    ensures refused { result ≡ Err faults.StartRefused → Rose (P.faults spawner.old) (P.faults spawner.new) }
    ensures stays { ¬ (result ≡ Err faults.StartRefused) → P.faults spawner.new ≡ P.faults spawner.old }
    ensures faults { P.faults spawner.old ≤ P.faults spawner.new }
    ensures ran { IfOk result (λ done. RoseBy workload.now.workers (P.ran spawner.old) (P.ran spawner.new)) }
    ensures rounds { P.rounds spawner.new ≤ P.rounds spawner.old + 1 }
    ensures unstarted { IfErr result (λ fault. (P.ran spawner.new ≡ P.ran spawner.old) × (P.rounds spawner.new ≡ P.rounds spawner.old)) }
{
    let mut callers = callers;
    let workers = workload.workers();
    let crew = Crew {
        home: shared.home(),
        workers,
    };
    let numbers = numbers_of(alloc, workload)?;
    let (objects, mut columns) = make_objects_by(alloc, &crew, workload, &mut callers)?;
    run_on(
        rt,
        alloc,
        workload,
        shared,
        &crew,
        &objects,
        &mut columns,
        &numbers,
        clock,
        spawner,
        gate,
        callers,
    )
}
