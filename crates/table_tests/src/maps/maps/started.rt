//! A worker that was started finds in a map what its starter stored.
ghost use Rattle.std.specs.Prelude.{◌≡◌, ◌<◌, IfOk, IfSome, All};
ghost use Rattle.std.specs.Thread.{IsSync};
ghost use Rattle.sync_model.specs.Shared.{IsCallerAt};
ghost use Rattle.shared_table.specs.Notes.{own_by, IsNoteOf};
ghost use Rattle.shared_table.specs.Tables.{maps_of};
ghost use Rattle.go_waits.specs.Startings.{IsHomeOf, IsPassOf};

use super::crew::{loaded, stored, take};
use go_waits::{Starts, StartsPass};
use ruled_object::MAX_CALLS;
use shared_table::{SharedNote, SharedTable, Steps};
use std::alloc::{AllocError, Global};
use std::marker::Brand;
use std::sync::Wait;
use std::sync::ledger::{Blank, Ledger};
use std::test::Fail;
use std::thread::{Threads, join};
use sync_model::{Answer, Caller, Note};
use sync_outside::{At, Clock};

type Workers = Starts<SharedNote>;

type WorkerPass = StartsPass<SharedNote>;

// A clock that stands still.
struct NoClock;

impl Clock for NoClock {
    ghost shows = { λ _ _. Unit {0} };

    fn now(&self) -> u64 {
        0
    }
}

// Worker 0, and worker 1 that waits to be started, at the home of the caller's note.
fn workers(
    alloc: Global,
    table: &SharedTable,
    caller: &mut Caller<SharedNote>,
) -> Result<(Workers, Vec<WorkerPass>), AllocError>
    requires { IsCallerAt IsNoteOf own_by table.now caller.old }
    ensures caller { IsCallerAt IsNoteOf own_by table.now caller.new }
    ensures home { IfOk result (λ made. IsHomeOf IsNoteOf made.0 table.now) }
    ensures passes { IfOk result (λ made. All (IsPassOf made.0) made.1.items) }
{
    let note = caller.note.copy(table);
    let (starts, passes) = Starts::new(alloc, 2, MAX_CALLS, &[false, true], note)?;
    Ok((starts, passes))
}

// The last of these passes.
fn last_of(starts: &Workers, passes: &mut Vec<WorkerPass>) -> Option<WorkerPass>
    requires { All (IsPassOf starts.now) passes.old.items }
    ensures rest { All (IsPassOf starts.now) passes.new.items }
    ensures one { IfSome result (λ pass. IsPassOf starts.now pass) }
{
    passes.pop()
}

// Stores, and then starts worker 1.
fn store_and_start<R: Wait>(
    rt: &R,
    table: &SharedTable,
    starts: &Workers,
    mut pass: WorkerPass,
    mut caller: Caller<SharedNote>,
) -> bool
    requires map { 0 < maps_of table.now }
    requires home { IsHomeOf IsNoteOf starts.now table.now }
    requires pass { IsPassOf starts.now pass }
    requires caller { IsCallerAt IsNoteOf own_by table.now caller }
{
    if pass.left() == 0 || !stored(rt, table, &mut caller, 5, 6) {
        return false;
    }
    let at: At<SharedNote, NoClock> = At {
        home: table,
        clock: &NoClock,
    };
    starts.start(rt, &at, &mut pass, &mut caller.note, 1) == Answer::Done(())
}

// Waits to be started, and then loads.
fn load_once_started<R: Wait, L: Ledger>(
    rt: &R,
    table: &SharedTable,
    starts: &Workers,
    mut pass: WorkerPass,
    mut caller: Caller<SharedNote>,
    blank: Blank,
) -> Option<u64>
    requires map { 0 < maps_of table.now }
    requires home { IsHomeOf IsNoteOf starts.now table.now }
    requires pass { IsPassOf starts.now pass }
    requires caller { IsCallerAt IsNoteOf own_by table.now caller }
    requires ledger { (blank.name ≡ L.name) × (blank.parts ≡ L.parts) × (0 < L.parts) }
{
    if pass.left() == 0 {
        return None;
    }
    let mut steps = Steps::<L>::new(rt, blank);
    let at: At<SharedNote, NoClock> = At {
        home: table,
        clock: &NoClock,
    };
    if starts.wait_start(rt, &at, &mut pass, &mut caller.note) != Answer::Done(true) {
        return None;
    }
    loaded(table, &mut caller, 5, &mut steps)
}

// The two, each in a thread of its own: whether the first one started the other, and what that found.
fn beside<R: Threads + Wait + Sync, L: Ledger>(
    rt: &R,
    table: &SharedTable,
    starts: &Workers,
    passes: (WorkerPass, WorkerPass),
    first: Caller<SharedNote>,
    second: Caller<SharedNote>,
    blank: Blank,
) -> (bool, Option<u64>)
    requires map { 0 < maps_of table.now }
    requires home { IsHomeOf IsNoteOf starts.now table.now }
    requires passes { IsPassOf starts.now passes.0 × IsPassOf starts.now passes.1 }
    requires first { IsCallerAt IsNoteOf own_by table.now first }
    requires second { IsCallerAt IsNoteOf own_by table.now second }
    requires ledger { (blank.name ≡ L.name) × (blank.parts ≡ L.parts) × (0 < L.parts) }
{
    let (pass, other) = passes;
    join(
        rt,
        move || -> bool
            requires { IsSync R.row × (0 < maps_of table.now) × IsHomeOf IsNoteOf starts.now table.now × IsPassOf starts.now pass × IsCallerAt IsNoteOf own_by table.now first }
        { store_and_start(rt, table, starts, pass, first) },
        move || -> Option<u64>
            requires { IsSync R.row × (0 < maps_of table.now) × IsHomeOf IsNoteOf starts.now table.now × IsPassOf starts.now other × IsCallerAt IsNoteOf own_by table.now second × (blank.name ≡ L.name) × (blank.parts ≡ L.parts) × (0 < L.parts) }
        { load_once_started::<_, L>(rt, table, starts, other, second, blank) },
    )
}

#[test]
fn a_started_worker_finds_what_its_starter_stored(rt: HostRuntime) -> Result<(), Fail> {
    let (table, mut callers) = SharedTable::new(rt.alloc(), &[], 1, 7, &[1, 0])?;
    let second = take(&table, &mut callers).expect(&rt, "caller 1");
    let mut first = take(&table, &mut callers).expect(&rt, "caller 0");
    let (starts, mut passes) = workers(rt.alloc(), &table, &mut first)?;
    let other = last_of(&starts, &mut passes).expect(&rt, "the pass of worker 1");
    let pass = last_of(&starts, &mut passes).expect(&rt, "the pass of worker 0");
    let found = beside::<_, Brand>(
        &rt,
        &table,
        &starts,
        (pass, other),
        first,
        second,
        Blank::new(1),
    );
    assert!(rt; found == (true, Some(6)));
    Ok(())
}
