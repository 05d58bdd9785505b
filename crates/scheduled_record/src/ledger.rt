//! What is kept of a run while its items are told: fronts, the history's length, journals, and the lines so far.
ghost use Rattle.std.specs.Prelude.{◌≡◌, ◌+◌, ◌<◌, ℕ, [], ◌∷◌, true, map, length, None, Some, slice_index_or, slice_set, IfOk, IfSome, OnOk};
ghost use Rattle.std.specs.FinMap.{empty};
ghost use Rattle.sync_types.specs.declared.atomic_object.Number.{Number};
ghost use Rattle.sync_types.specs.SequentialAtomic.{is_atomic_entry, atomic_reply as atomic_answer};
ghost use Rattle.sync_types.specs.SequentialMap.{is_map_entry, map_after};
ghost use Rattle.sync_model.specs.declared.item.SharedCall.TheVariants as calls;
ghost use Rattle.sync_model.specs.declared.item.SharedReply.TheVariants as answers;
ghost use Rattle.workload.specs.Plan.{Plan};
ghost use Rattle.record_text.specs.LawfulItems.{has_numbers};
ghost use Rattle.record_text.specs.Written.{entry_said};
ghost use Rattle.sync_model.specs.declared.journal.Deed.TheVariants.{Event};
ghost use Rattle.kept_record.specs.Keeping.{given};
ghost use Rattle.step_runner.specs.Recorded.{made_shared, made_on};
ghost use Rattle.scheduled_record.specs.Ledgers.{Adds, adding, waits_in, known_in, IsNoted, IsPlaced, IsEntered, number_in, released_in, learnt_in};

use crate::edges::{frees, takes};
use crate::fronts::{copied, counted, joined_if, one_more};
use record_text::deed_words::{
    answer_of, atomic_reply, event_of, map_reply, number_fits, shown_fits,
};
use record_text::{ItemLine, Said};
use run_record::{ObjectEvent, ObjectReply};
use shared_checks::NumberMap;
use std::alloc::{AllocError, Global};
use sync_types::{AtomicCall, AtomicReply, MapCall, MapReply, Name, Seq};
use workload::Keys;

/// What is kept of a worker.
#[derive(Drop)]
pub(crate) struct WorkerState {
    /// What it knows.
    pub(crate) front: Seq<u64>,
    /// Whether it waits to be started, and has made nothing yet.
    pub(crate) waits: bool,
}

/// What is kept of an object's journal.
#[derive(Drop)]
pub(crate) struct JournalState {
    /// How many entries it has.
    pub(crate) entries: u64,
    /// What was known at some event on the object that released.
    pub(crate) released: Seq<u64>,
}

/// What is kept of a run so far.
#[derive(Drop)]
pub(crate) struct Ledger {
    /// One for each worker.
    pub(crate) workers: Vec<WorkerState>,
    /// One for each object of a record, by its number.
    pub(crate) journals: Vec<JournalState>,
    /// How long the history of maps and atomics is.
    pub(crate) history: u64,
    /// What the maps contain, by their numbers.
    pub(crate) maps: Vec<NumberMap>,
    /// The lines of all items so far.
    pub(crate) lines: Vec<ItemLine>,
}

/// Whether a call on the map with a number is an entry of the history. A map that isn't there has no key.
fn enters_map(alloc: Global, maps: &[NumberMap], map: usize, call: &MapCall<u32>) -> bool
    ensures { result ≡ is_map_entry call.now (slice_index_or maps.now map empty) }
{
    match maps.get(map) {
        Some(map) => map.is_entry(call),
        None => NumberMap::new(alloc).is_entry(call),
    }
}

/// Makes a call that is an entry on the map with a number.
fn enter_map(maps: &mut Vec<NumberMap>, map: usize, call: &MapCall<u32>) -> Result<(), AllocError>
    requires { is_map_entry call.now (slice_index_or maps.old.items map empty) ≡ true }
    ensures { OnOk result (maps.new.items ≡ slice_set maps.old.items map (map_after call.now (slice_index_or maps.old.items map empty))) }
{
    match maps.get_mut(map) {
        Some(map) => map.enter(call),
        None => Ok(()),
    }
}

/// Whether a call on an atomic that answers this is an entry of the history.
fn enters_atomic(call: &AtomicCall, reply: &AtomicReply) -> bool
    ensures { (held : Number) → reply.now ≡ atomic_answer call.now held → result ≡ is_atomic_entry call.now held }
{
    match call {
        AtomicCall::Load => false,
        AtomicCall::CompareAndSwap { .. } => matches!(reply, AtomicReply::Compared(true)),
        _ => true,
    }
}

/// What is said of an entry of the journal of the object with a number, where it has this number there. Its numbers have 64 bits.
fn entry_said(object: usize, number: u64, event: &ObjectEvent, answer: &ObjectReply) -> Option<Said>
    ensures said { result ≡ entry_said object number (Event event.now answer.now) }
    ensures fits { IfSome result (λ said. has_numbers said ≡ true) }
{
    let answer = answer_of(*answer)?;
    Some(Said::Entered {
        object,
        number,
        event: event_of(*event),
        answer,
    })
}

impl Ledger {
    /// Adds an item of a worker, behind which it knows `knows`. Its line has the front.
    fn note(
        &mut self,
        worker: u32,
        index: Option<usize>,
        knows: Seq<u64>,
        front: Seq<u64>,
        said: Option<Said>,
    ) -> Result<(), AllocError>
        requires { worker < length self.old.workers.items }
        ensures { OnOk result (IsNoted worker index knows front said self.old self.new) }
    {
        if let Some(said) = said {
            self.lines.push(ItemLine {
                worker,
                index,
                front,
                said,
            })?;
        }
        self.workers[worker as usize] = WorkerState {
            front: knows,
            waits: false,
        };
        Ok(())
    }

    /// Adds a call of a worker that is placed now: behind it the worker knows one call more of its own.
    fn place(
        &mut self,
        alloc: Global,
        worker: u32,
        index: Option<usize>,
        enters: bool,
        said: Option<Said>,
    ) -> Result<(), AllocError>
        requires { worker < length self.old.workers.items }
        ensures placed { OnOk result (IsPlaced worker index enters said self.old self.new) }
        ensures maps { OnOk result (self.new.maps.items ≡ self.old.maps.items) }
    {
        let front = copied(alloc, self.workers[worker as usize].front.as_slice())?;
        let knows = counted(alloc, worker, front.as_slice())?;
        self.note(worker, index, knows, front, said)?;
        if enters {
            self.history = one_more(self.history)?;
        }
        Ok(())
    }

    /// Adds a call on the map with a number.
    pub(crate) fn add_map_call(
        &mut self,
        alloc: Global,
        worker: u32,
        index: Option<usize>,
        map: usize,
        call: &MapCall<u32>,
        reply: MapReply,
    ) -> Result<(), AllocError>
        requires { worker < length self.old.workers.items }
        ensures { OnOk result ((plan : Plan) → Adds plan (adding index worker (made_shared plan (calls.Map map call.now, answers.Map reply) ∷ [])) self.old self.new) }
    {
        number_fits(self.history);
        let enters = enters_map(alloc, &self.maps, map, call);
        let said = Said::Call {
            place: self.history,
            reply: map_reply(reply),
        };
        self.place(alloc, worker, index, enters, Some(said))?;
        if enters {
            enter_map(&mut self.maps, map, call)?;
        }
        Ok(())
    }

    /// Adds a call on an atomic.
    pub(crate) fn add_atomic_call(
        &mut self,
        alloc: Global,
        worker: u32,
        index: Option<usize>,
        call: &AtomicCall,
        reply: AtomicReply,
    ) -> Result<(), AllocError>
        requires { worker < length self.old.workers.items }
        ensures { OnOk result ((plan : Plan) (atomic : ℕ) → Adds plan (adding index worker (made_shared plan (calls.Atomic atomic call.now, answers.Atomic reply) ∷ [])) self.old self.new) }
    {
        number_fits(self.history);
        let said = Said::Call {
            place: self.history,
            reply: atomic_reply(reply),
        };
        let enters = enters_atomic(call, &reply);
        self.place(alloc, worker, index, enters, Some(said))
    }

    /// Adds the call that begins a cursor.
    pub(crate) fn add_begin(
        &mut self,
        alloc: Global,
        worker: u32,
        index: Option<usize>,
    ) -> Result<(), AllocError>
        requires { worker < length self.old.workers.items }
        ensures { OnOk result ((plan : Plan) (map : ℕ) → Adds plan (adding index worker (made_shared plan (calls.Begin map, answers.Begun) ∷ [])) self.old self.new) }
    {
        number_fits(self.history);
        let said = Said::Begin {
            reach: self.history,
        };
        self.place(alloc, worker, index, false, Some(said))
    }

    /// Adds a step of a cursor.
    pub(crate) fn add_step(
        &mut self,
        alloc: Global,
        worker: u32,
        index: Option<usize>,
        shown: Option<(u32, u64)>,
    ) -> Result<(), AllocError>
        requires { worker < length self.old.workers.items }
        ensures { OnOk result ((plan : Plan) (begin : ℕ) → Adds plan (adding index worker (made_shared plan (calls.Next begin, answers.Shown shown) ∷ [])) self.old self.new) }
    {
        number_fits(self.history);
        shown_fits(shown);
        let said = Said::Next {
            reach: self.history,
            shown,
        };
        self.place(alloc, worker, index, false, Some(said))
    }

    /// What a worker knows.
    fn known(&self, worker: u32) -> &[u64]
        requires { worker < length self.now.workers.items }
        ensures { result.now ≡ known_in self.now worker }
    {
        self.workers[worker as usize].front.as_slice()
    }

    /// Whether a worker waits to be started, and has made nothing yet.
    pub(crate) fn waits(&self, worker: u32) -> bool
        requires { worker < length self.now.workers.items }
        ensures { result ≡ waits_in self.now worker }
    {
        self.workers[worker as usize].waits
    }

    /// What was released on an object.
    fn released(&self, object: usize) -> &[u64]
        requires { object < length self.now.journals.items }
        ensures { result.now ≡ released_in self.now object }
    {
        self.journals[object].released.as_slice()
    }

    /// How many entries an object's journal has.
    fn number(&self, object: usize) -> u64
        requires { object < length self.now.journals.items }
        ensures { result ≡ number_in self.now object }
    {
        self.journals[object].entries
    }

    /// What a worker knows behind an entry of an object's journal: an event that acquires takes in what was released there.
    fn learn(
        &self,
        alloc: Global,
        worker: u32,
        object: usize,
        event: &ObjectEvent,
        answer: &ObjectReply,
    ) -> Result<Seq<u64>, AllocError>
        requires worker { worker < length self.now.workers.items }
        requires object { object < length self.now.journals.items }
        ensures { IfOk result (λ knows. knows ≡ learnt_in self.now worker object (Event event.now answer.now)) }
    {
        joined_if(
            alloc,
            takes(event, answer),
            self.known(worker),
            self.released(object),
        )
    }

    /// The object's journal behind one entry more, at which its worker knows this: an event that releases adds it.
    fn give(
        &self,
        alloc: Global,
        object: usize,
        event: &ObjectEvent,
        answer: &ObjectReply,
        knows: &[u64],
    ) -> Result<JournalState, AllocError>
        requires { object < length self.now.journals.items }
        ensures { IfOk result (λ journal. journal ≡ record { entries = number_in self.now object + 1; released = given (Event event.now answer.now) knows.now (released_in self.now object) }) }
    {
        let entries = one_more(self.number(object))?;
        let released = joined_if(alloc, frees(event, answer), self.released(object), knows)?;
        Ok(JournalState { entries, released })
    }

    /// Makes an entry of the journal of the object with a number.
    fn enter(
        &mut self,
        alloc: Global,
        worker: u32,
        index: Option<usize>,
        object: usize,
        event: &ObjectEvent,
        answer: &ObjectReply,
    ) -> Result<(), AllocError>
        requires worker { worker < length self.old.workers.items }
        requires object { object < length self.old.journals.items }
        ensures { OnOk result (IsEntered worker index object (Event event.now answer.now) self.old self.new) }
    {
        let knows = self.learn(alloc, worker, object, event, answer)?;
        let journal = self.give(alloc, object, event, answer, knows.as_slice())?;
        let front = copied(alloc, knows.as_slice())?;
        let said = entry_said(object, self.number(object), event, answer);
        self.note(worker, index, knows, front, said)?;
        self.journals[object] = journal;
        Ok(())
    }

    /// Adds an entry of the journal of the object with a number.
    pub(crate) fn add_entry(
        &mut self,
        alloc: Global,
        worker: u32,
        index: Option<usize>,
        object: usize,
        event: &ObjectEvent,
        answer: &ObjectReply,
    ) -> Result<(), AllocError>
        requires worker { worker < length self.old.workers.items }
        requires object { object < length self.old.journals.items }
        ensures { OnOk result ((plan : Plan) → Adds plan (adding index worker (made_on plan object worker event.now answer.now ∷ [])) self.old self.new) }
    {
        self.enter(alloc, worker, index, object, event, answer)
    }
}
