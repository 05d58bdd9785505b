//! The items of a run by schedule, as lines tell them.
ghost use Rattle.std.specs.Prelude.{◌≡◌, ◌+◌, ◌^◌, ◌<◌, ℕ, [], ◌++◌, true, false, not, cond, map, filter, flat_map, get_or, length, fold, replicate, count_by, None, IfOk, OnOk};
ghost use Rattle.std.specs.FinMap.{empty};
ghost use Rattle.std.specs.List.{range_with_len};
ghost use Rattle.pool_core.specs.declared.pool_event.PoolEvent.TheVariants as pool_events;
ghost use Rattle.workload.specs.Keys.{keys_in, key_number};
ghost use Rattle.workload.specs.Plan.{has_dormant, is_dormant};
ghost use Rattle.run_record.specs.declared.entered.ObjectEvent.TheVariants as events;
ghost use Rattle.run_record.specs.MapKind.{step_showing, cursor_showing};
ghost use Rattle.run_record.specs.Objects.{is_map, object_count, first_part};
ghost use Rattle.run_record.specs.PoolKind.{part_of};
ghost use Rattle.step_runner.specs.Recorded.{made_shared, made_on, shared_calls, recorded_pool_event, recorded_event, recorded_deed};
ghost use Rattle.step_runner.specs.Spelt.{made_on_starts};
ghost use Rattle.step_runner.specs.Traces.{items_told, trace_of};
ghost use Rattle.scheduled_record.specs.ItemsOf.{HasPool, NamesPart, IsEventOn, IsDeedOn, IsItemOf, AreItemsOf};
ghost use Rattle.scheduled_record.specs.Ledgers.{IsLedgerOf, IsKept, Adds, adding, waits_in};
ghost use Rattle.scheduled_record.specs.RunActs.{acts_by, going_acts};
ghost use Rattle.scheduled_record.specs.ToldItems.{AreIn64Bits, acts_in, told_as, told_items, with_told_item, with_told_turn, closed_told};

use crate::fronts::none_known;
use crate::laws::{
    the_calls_of_a_scheduled_run_are_a_legal_history, the_items_of_a_run_are_the_workloads,
};
use crate::ledger::{JournalState, Ledger, WorkerState};
use list_checks::spell::numbers::{first_part, map_number, object_number, starts_number};
use list_checks::spell::renamed::numbered;
use pool_core::PoolEvent;
use record_text::ItemLine;
use run_record::laws::numbers::parts_have_numbers_of_their_own;
use run_record::{ObjectEvent, ObjectReply};
use script_calls::{Operation, Reply};
use shared_checks::NumberMap;
use starts_core::{StartEvent, StartReply};
use std::alloc::{AllocError, Global};
use step_runner::{Deed, Item, Trace, TraceItem};
use sync_types::Name;
use workload::{Keys, ObjectKind, Workload};

/// The number of a key, or 0 for a name that is none.
fn number_of(keys: &Keys, key: &Name) -> u32
    ensures { result ≡ key_number keys.now key.now }
{
    keys.number(key.as_bytes()).unwrap_or(0)
}

/// The part of a pool that an event of a worker is about: the one that it names, or the worker's own.
fn part_of(worker: u32, event: PoolEvent<u64>) -> u32
    ensures { result ≡ part_of worker event }
{
    match event {
        PoolEvent::LookOther(part) | PoolEvent::LookVictim(part) => part,
        PoolEvent::Put(_) | PoolEvent::LookOwn | PoolEvent::Sweep => worker,
    }
}

impl Ledger {
    /// Adds the steps of a cursor that show these pairs.
    fn add_steps(
        &mut self,
        alloc: Global,
        workload: &Workload,
        worker: u32,
        index: Option<usize>,
        pairs: &[(Name, u64)],
    ) -> Result<(), AllocError>
        requires of { IsLedgerOf workload.now self.old }
        requires worker { worker < workload.now.workers }
        ensures { OnOk result ((map_number begin : ℕ) → Adds workload.now (adding index worker (map (made_shared workload.now) (map (step_showing (keys_in workload.now.scripts) map_number begin) (map (λ pair. (key_number (keys_in workload.now.scripts) pair.0, pair.1)) pairs.now)))) self.old self.new) }
    {
        for (key, value) in pairs {
            let shown = Some((number_of(workload.keys(), key), *value));
            self.add_step(alloc, worker, index, shown)?;
        }
        Ok(())
    }

    /// Adds the calls of a cursor that shows these pairs, and then none.
    fn add_range(
        &mut self,
        alloc: Global,
        workload: &Workload,
        worker: u32,
        index: Option<usize>,
        pairs: &[(Name, u64)],
    ) -> Result<(), AllocError>
        requires of { IsLedgerOf workload.now self.old }
        requires worker { worker < workload.now.workers }
        ensures { OnOk result ((map_number begin : ℕ) → Adds workload.now (adding index worker (map (made_shared workload.now) (cursor_showing (keys_in workload.now.scripts) map_number begin (map (λ pair. (key_number (keys_in workload.now.scripts) pair.0, pair.1)) pairs.now)))) self.old self.new) }
    {
        self.add_begin(alloc, worker, index)?;
        self.add_steps(alloc, workload, worker, index, pairs)?;
        self.add_step(alloc, worker, index, None)
    }
    /// Adds a call on the object at a place, as the object for one thread answered it.
    fn add_placed(
        &mut self,
        alloc: Global,
        workload: &Workload,
        worker: u32,
        index: Option<usize>,
        place: usize,
        operation: &Operation,
        reply: &Reply<Name>,
    ) -> Result<(), AllocError>
        requires of { IsLedgerOf workload.now self.old }
        requires worker { worker < workload.now.workers }
        ensures { OnOk result ((before : ℕ) → Adds workload.now (adding index worker (map (made_shared workload.now) (shared_calls workload.now before place operation.now reply.now))) self.old self.new) }
    {
        match (operation, reply) {
            (Operation::Map(call), Reply::Map(reply)) => {
                let map = map_number(workload.objects(), place);
                let call = numbered(workload.keys(), call);
                self.add_map_call(alloc, worker, index, map, &call, *reply)
            }
            (Operation::Range, Reply::Pairs(pairs)) => {
                self.add_range(alloc, workload, worker, index, pairs.as_slice())
            }
            (Operation::Atomic(call), Reply::Atomic(reply)) => {
                self.add_atomic_call(alloc, worker, index, call, *reply)
            }
            _ => Ok(()),
        }
    }

    /// Adds an entry of each part of a pool, of which this is the first one.
    fn add_sweep(
        &mut self,
        alloc: Global,
        workload: &Workload,
        worker: u32,
        index: Option<usize>,
        first: usize,
        answer: &ObjectReply,
    ) -> Result<(), AllocError>
        requires of { IsLedgerOf workload.now self.old }
        requires worker { worker < workload.now.workers }
        requires few { first < 2 ^ 32 }
        requires parts { (part : ℕ) → part < workload.now.workers → first + part < object_count workload.now }
        ensures { OnOk result (Adds workload.now (adding index worker (map (λ part. made_on workload.now (first + part) worker (events.Pool pool_events.Sweep) answer.now) (range_with_len 0 workload.now.workers))) self.old self.new) }
    {
        for part in 0..workload.workers() {
            self.add_entry(
                alloc,
                worker,
                index,
                first + part as usize,
                &ObjectEvent::Pool(PoolEvent::Sweep),
                answer,
            )?;
        }
        Ok(())
    }

    /// Adds an event of the pool at a place: an entry of the part that it is about, and of a sweep one of each part.
    fn add_pool_event(
        &mut self,
        alloc: Global,
        workload: &Workload,
        worker: u32,
        index: Option<usize>,
        place: usize,
        event: PoolEvent<u64>,
        answer: &ObjectReply,
    ) -> Result<(), AllocError>
        requires of { IsLedgerOf workload.now self.old }
        requires worker { worker < workload.now.workers }
        requires pool { HasPool workload.now place }
        requires part { NamesPart workload.now.workers event }
        ensures { OnOk result (Adds workload.now (adding index worker (recorded_pool_event workload.now place worker event answer.now)) self.old self.new) }
    {
        parts_have_numbers_of_their_own();
        let first = first_part(workload, place);
        match event {
            PoolEvent::Sweep => self.add_sweep(alloc, workload, worker, index, first, answer),
            PoolEvent::Put(_)
            | PoolEvent::LookOwn
            | PoolEvent::LookOther(_)
            | PoolEvent::LookVictim(_) => {
                let object = first + part_of(worker, event) as usize;
                let event = ObjectEvent::Pool(event);
                self.add_entry(alloc, worker, index, object, &event, answer)
            }
        }
    }

    /// Adds an event on the object at a place.
    fn add_event(
        &mut self,
        alloc: Global,
        workload: &Workload,
        worker: u32,
        index: Option<usize>,
        place: usize,
        event: &ObjectEvent,
        answer: &ObjectReply,
    ) -> Result<(), AllocError>
        requires of { IsLedgerOf workload.now self.old }
        requires worker { worker < workload.now.workers }
        requires on { IsEventOn workload.now place event.now }
        ensures { OnOk result (Adds workload.now (adding index worker (recorded_event workload.now place worker event.now answer.now)) self.old self.new) }
    {
        parts_have_numbers_of_their_own();
        match event {
            ObjectEvent::Pool(event) => {
                self.add_pool_event(alloc, workload, worker, index, place, *event, answer)
            }
            ObjectEvent::Starts(_) => {
                let object = starts_number(workload);
                self.add_entry(alloc, worker, index, object, event, answer)
            }
            _ => {
                let object = object_number(workload, place);
                self.add_entry(alloc, worker, index, object, event, answer)
            }
        }
    }

    /// Adds what was done on the object at a place.
    fn add_deed(
        &mut self,
        alloc: Global,
        workload: &Workload,
        worker: u32,
        index: Option<usize>,
        place: usize,
        deed: &Deed,
    ) -> Result<(), AllocError>
        requires of { IsLedgerOf workload.now self.old }
        requires worker { worker < workload.now.workers }
        requires on { IsDeedOn workload.now place deed.now }
        ensures { OnOk result ((before : ℕ) → Adds workload.now (adding index worker (recorded_deed workload.now before place worker deed.now)) self.old self.new) }
    {
        match deed {
            Deed::Placed(operation, reply) => {
                self.add_placed(alloc, workload, worker, index, place, operation, reply)
            }
            Deed::Entered(event, answer) => {
                self.add_event(alloc, workload, worker, index, place, event, answer)
            }
        }
    }

    /// Adds an event of a worker on Starts, which is of no call.
    fn add_on_starts(
        &mut self,
        alloc: Global,
        workload: &Workload,
        worker: u32,
        event: StartEvent,
        answer: StartReply,
    ) -> Result<(), AllocError>
        requires of { IsLedgerOf workload.now self.old }
        requires worker { worker < workload.now.workers }
        requires dormant { has_dormant workload.now ≡ true }
        ensures { OnOk result (Adds workload.now (adding None worker (made_on_starts workload.now worker event answer)) self.old self.new) }
    {
        parts_have_numbers_of_their_own();
        self.add_entry(
            alloc,
            worker,
            None,
            starts_number(workload),
            &ObjectEvent::Starts(event),
            &ObjectReply::Starts(answer),
        )
    }

    /// Adds an event of a worker on Starts where it makes one.
    fn add_on_starts_if(
        &mut self,
        alloc: Global,
        workload: &Workload,
        worker: u32,
        makes: bool,
        event: StartEvent,
        answer: StartReply,
    ) -> Result<(), AllocError>
        requires of { IsLedgerOf workload.now self.old }
        requires worker { worker < workload.now.workers }
        requires dormant { makes ≡ true → has_dormant workload.now ≡ true }
        ensures { OnOk result (Adds workload.now (adding None worker (cond makes (made_on_starts workload.now worker event answer) [])) self.old self.new) }
    {
        if makes {
            self.add_on_starts(alloc, workload, worker, event, answer)?;
        }
        Ok(())
    }

    /// Adds that a worker goes that waited to be started, before the first item that it makes.
    fn add_going(
        &mut self,
        alloc: Global,
        workload: &Workload,
        worker: u32,
    ) -> Result<(), AllocError>
        requires of { IsLedgerOf workload.now self.old }
        requires worker { worker < workload.now.workers }
        ensures { OnOk result (Adds workload.now (λ told. told ++ told_as None (going_acts workload.now (acts_in told) worker)) self.old self.new) }
    {
        let goes = self.waits(worker);
        self.add_on_starts_if(
            alloc,
            workload,
            worker,
            goes,
            StartEvent::Leave,
            StartReply::Go,
        )
    }

    /// Adds an item, which is of this call.
    fn add_item(
        &mut self,
        alloc: Global,
        workload: &Workload,
        index: Option<usize>,
        item: &Item,
    ) -> Result<(), AllocError>
        requires of { IsLedgerOf workload.now self.old }
        requires item { IsItemOf workload.now item.now }
        ensures { OnOk result (Adds workload.now (λ told. with_told_item workload.now index told item.now) self.old self.new) }
    {
        self.add_going(alloc, workload, item.caller)?;
        self.add_deed(alloc, workload, item.caller, index, item.object, &item.deed)
    }

    /// Adds what a turn made.
    fn add_turn(
        &mut self,
        alloc: Global,
        workload: &Workload,
        turn: &TraceItem,
    ) -> Result<(), AllocError>
        requires of { IsLedgerOf workload.now self.old }
        requires items { AreItemsOf workload.now turn.now.made }
        ensures { OnOk result (Adds workload.now (λ told. with_told_turn workload.now told turn.now) self.old self.new) }
    {
        let made = turn.made.as_slice();
        for item in made {
            self.add_item(alloc, workload, turn.index, item)?;
        }
        Ok(())
    }

    /// Adds what the turns of a trace made.
    fn add_turns(
        &mut self,
        alloc: Global,
        workload: &Workload,
        trace: &[TraceItem],
    ) -> Result<(), AllocError>
        requires of { IsLedgerOf workload.now self.old }
        requires items { AreItemsOf workload.now (items_told trace.now) }
        ensures { OnOk result (Adds workload.now (λ told. fold (with_told_turn workload.now) told trace.now) self.old self.new) }
    {
        for turn in trace {
            self.add_turn(alloc, workload, turn)?;
        }
        Ok(())
    }
    /// Adds the same event on Starts of each of these workers, from 0 up.
    fn add_all_on_starts(
        &mut self,
        alloc: Global,
        workload: &Workload,
        among: &[bool],
        event: StartEvent,
        answer: StartReply,
    ) -> Result<(), AllocError>
        requires of { IsLedgerOf workload.now self.old }
        requires dormant { has_dormant workload.now ≡ true }
        requires among { length among.now ≡ workload.now.workers }
        ensures { OnOk result (Adds workload.now (λ told. told ++ told_as None (flat_map (λ worker. acts_by worker (made_on_starts workload.now worker event answer)) (filter (λ worker. get_or among.now worker false) (range_with_len 0 workload.now.workers)))) self.old self.new) }
    {
        for worker in 0..workload.workers() {
            let makes = among[worker as usize];
            self.add_on_starts_if(alloc, workload, worker, makes, event, answer)?;
        }
        Ok(())
    }

    /// For each worker whether it waits still to be started.
    fn waiting(&self, alloc: Global, workload: &Workload) -> Result<Vec<bool>, AllocError>
        requires { length self.now.workers.items ≡ workload.now.workers }
        ensures { IfOk result (λ waits. waits.items ≡ map (waits_in self.now) (range_with_len 0 workload.now.workers)) }
    {
        let mut waits = Vec::new(alloc);
        for worker in 0..workload.workers() {
            waits.push(self.waits(worker))?;
        }
        Ok(waits)
    }

    /// Adds what stands behind all scripts: that those end who came to theirs, and that the others leave, who were never started.
    fn close(&mut self, alloc: Global, workload: &Workload) -> Result<(), AllocError>
        requires of { IsLedgerOf workload.now self.old }
        ensures { OnOk result (Adds workload.now (closed_told workload.now) self.old self.new) }
    {
        if workload.has_dormant() {
            let waits = self.waiting(alloc, workload)?;
            let ended = negated(alloc, &waits)?;
            self.add_all_on_starts(alloc, workload, &ended, StartEvent::End, StartReply::Done)?;
            self.add_all_on_starts(
                alloc,
                workload,
                &waits,
                StartEvent::Leave,
                StartReply::Never,
            )?;
        }
        Ok(())
    }
}

/// The other ones.
fn negated(alloc: Global, flags: &[bool]) -> Result<Vec<bool>, AllocError>
    ensures { IfOk result (λ others. others.items ≡ map not flags.now) }
{
    let mut others = Vec::new(alloc);
    for flag in flags {
        others.push(!*flag)?;
    }
    Ok(others)
}

/// Each worker before it has made anything.
fn new_workers(alloc: Global, workload: &Workload) -> Result<Vec<WorkerState>, AllocError>
    ensures { IfOk result (λ workers. workers.items ≡ map (λ worker. record { front = replicate workload.now.workers 0; waits = is_dormant workload.now worker }) (range_with_len 0 workload.now.workers)) }
{
    let mut workers = Vec::new(alloc);
    for worker in 0..workload.workers() {
        workers.push(WorkerState {
            front: none_known(alloc, workload.workers())?,
            waits: workload.is_dormant(worker),
        })?;
    }
    Ok(workers)
}

/// Each object's journal before anything is done on it.
fn new_journals(alloc: Global, workload: &Workload) -> Result<Vec<JournalState>, AllocError>
    ensures { IfOk result (λ journals. journals.items ≡ replicate (object_count workload.now) (record { entries = 0; released = replicate workload.now.workers 0 })) }
{
    parts_have_numbers_of_their_own();
    let starts = starts_number(workload);
    let mut journals = Vec::new(alloc);
    for _ in 0..starts {
        journals.push(new_journal(alloc, workload)?)?;
    }
    if workload.has_dormant() {
        journals.push(new_journal(alloc, workload)?)?;
    }
    Ok(journals)
}

fn new_journal(alloc: Global, workload: &Workload) -> Result<JournalState, AllocError>
    ensures { IfOk result (λ journal. journal ≡ record { entries = 0; released = replicate workload.now.workers 0 }) }
{
    Ok(JournalState {
        entries: 0,
        released: none_known(alloc, workload.workers())?,
    })
}

/// A map without a key for each map that is declared.
fn new_maps(alloc: Global, workload: &Workload) -> Result<Vec<NumberMap>, AllocError>
    ensures { IfOk result (λ maps. maps.items ≡ replicate (count_by (λ object. is_map object.kind) workload.now.objects) empty) }
{
    let mut maps = Vec::new(alloc);
    for object in workload.objects() {
        if let ObjectKind::Map = object.kind {
            maps.push(NumberMap::new(alloc))?;
        }
    }
    Ok(maps)
}

/// A ledger in which nothing stands yet.
fn new_ledger(alloc: Global, workload: &Workload) -> Result<Ledger, AllocError>
    ensures of { IfOk result (λ ledger. IsLedgerOf workload.now ledger) }
    ensures kept { IfOk result (λ ledger. IsKept workload.now [] ledger) }
{
    Ok(Ledger {
        workers: new_workers(alloc, workload)?,
        journals: new_journals(alloc, workload)?,
        history: 0,
        maps: new_maps(alloc, workload)?,
        lines: Vec::new(alloc),
    })
}

/// The items of the run that a workload makes by its schedule, as their lines tell them, in the order of its turns, and behind them what
/// workers make on Starts at the end. They are those of the run's record, and all their numbers have 64 bits. Only want of memory is
/// an `Err`.
pub fn items_of_run(
    alloc: Global,
    workload: &Workload,
    trace: &Trace,
) -> Result<Vec<ItemLine>, AllocError>
    requires { trace.now ≡ trace_of workload.now }
    ensures items { IfOk result (λ items. items.items ≡ told_items workload.now) }
    ensures numbers { IfOk result (λ items. AreIn64Bits workload.now) }
{
    the_items_of_a_run_are_the_workloads();
    the_calls_of_a_scheduled_run_are_a_legal_history();
    let _workers = workload.workers();
    let mut ledger = new_ledger(alloc, workload)?;
    ledger.add_turns(alloc, workload, trace.as_slice())?;
    ledger.close(alloc, workload)?;
    Ok(ledger.lines)
}
