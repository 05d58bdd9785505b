//! What the lines of a text say so far.
ghost use Rattle.std.specs.Prelude.{◌≡◌, ℕ, List, Some, ◌≤◌, ◌<◌, ◌+◌, ◌∷◌, [], true, false, length, nat_le, nat_lt, is_some, vec_len, count_by, replicate, IfOk, OnOk};
ghost use Rattle.std.specs.Option.{option_copied, option_map_or, option_to_list};
ghost use Rattle.std.specs.FinMap.{insert};
ghost use Rattle.sync_types.specs.Name.{is_name};
ghost use Rattle.workload.specs.declared.limits.TheConstants.{MAX_KEYS, MAX_WORKERS};
ghost use Rattle.workload.specs.Index.{with_keys, marked};
ghost use Rattle.workload.specs.declared.object.Declared.{Declared};
ghost use Rattle.workload.specs.Plan.{is_dormant};
ghost use Rattle.workload.specs.Draft.{started, with_line, may_follow, declared, is_kind, count_of, count_together, limit_of, call_count, key_count, keys_of, is_range, range_count, tries_of, try_count, is_access, access_count};
ghost use Rattle.script_calls.specs.Starts.{started_by, start_count};

use crate::keys::Keys;
use crate::limits::{MAX_ATOMICS, MAX_KEYS, MAX_MAPS, MAX_OTHERS};
use crate::line::{Line, NameWord};
use crate::object::{Declared, ObjectLine, ObjectWord};
use crate::turn::Turn;
use crate::workload::Workload;
use name_table::NameTable;
use script_calls::{Call, ComposedCall, Operation};
use std::alloc::{AllocError, Global};
use std::marker::Model;
use sync_types::{Name, Seq};

/// The workload that the lines so far say, and the worker whose calls follow. A draft is one pointer, so that it is cheap
/// to hand on from line to line.
#[derive(Drop)]
pub struct Draft {
    parts: Box<Parts>,
}

/// What a draft knows, with tables of the names and keys, so that no look-up scans a list.
#[derive(Drop)]
struct Parts {
    workers: u32,
    objects: Seq<ObjectLine>,
    dormant: Vec<bool>,
    started: Vec<bool>,
    scripts: Seq<Seq<Call>>,
    schedule: Seq<Turn>,
    current: Option<u32>,
    names: NameTable<Declared>,
    keys: NameTable<()>,
    calls: usize,
    ranges: usize,
    tries: usize,
    accesses: usize,
}

impl Model for Draft {
    ghost use Rattle.workload.specs.Draft.{Draft};
    ghost use Rattle.workload.specs.Index.{IsIndexed};

    ghost Value = { Draft };

    ghost view = { λ d. record { plan = record { workers = d.parts.value.workers; objects = d.parts.value.objects; dormant = d.parts.value.dormant.items; scripts = d.parts.value.scripts; schedule = d.parts.value.schedule }; current = d.parts.value.current } };

    ghost invariant = { λ d. IsIndexed (record { workers = d.parts.value.workers; objects = d.parts.value.objects; dormant = d.parts.value.dormant.items; scripts = d.parts.value.scripts; schedule = d.parts.value.schedule }) d.parts.value.current d.parts.value.names d.parts.value.keys d.parts.value.started.items d.parts.value.calls d.parts.value.ranges d.parts.value.tries d.parts.value.accesses };
}

/// As many empty scripts as there are workers.
fn empty_scripts(alloc: Global, workers: u32) -> Result<Seq<Seq<Call>>, AllocError>
    ensures { IfOk result (λ scripts. scripts ≡ replicate workers []) }
{
    let mut scripts = Seq::new(alloc);
    for _ in 0..workers {
        scripts.push(Seq::new(alloc))?;
    }
    Ok(scripts)
}

/// For each worker `false`: it doesn't wait to be started, and no call starts it.
fn none_yet(alloc: Global, workers: u32) -> Result<Vec<bool>, AllocError>
    ensures { IfOk result (λ none. none.items ≡ replicate workers false) }
{
    let mut none = Vec::new(alloc);
    for _ in 0..workers {
        none.push(false)?;
    }
    Ok(none)
}

fn counts_together(word: ObjectWord, other: ObjectWord) -> bool
    ensures { result ≡ count_together word other }
{
    match (word, other) {
        (ObjectWord::Map, ObjectWord::Map) => true,
        (ObjectWord::Atomic(_), ObjectWord::Atomic(_)) => true,
        (ObjectWord::Mutex, ObjectWord::Mutex) => true,
        (ObjectWord::RwMutex, ObjectWord::RwMutex) => true,
        (ObjectWord::Cond, ObjectWord::Cond) => true,
        (ObjectWord::WaitGroup, ObjectWord::WaitGroup) => true,
        (ObjectWord::Once, ObjectWord::Once) => true,
        (ObjectWord::OnceFunc, ObjectWord::OnceFunc) => true,
        (ObjectWord::OnceValue, ObjectWord::OnceValue) => true,
        (ObjectWord::Pool, ObjectWord::Pool) => true,
        (ObjectWord::Sema, ObjectWord::Sema) => true,
        (ObjectWord::Flight, ObjectWord::Flight) => true,
        (ObjectWord::Var, ObjectWord::Var) => true,
        _ => false,
    }
}

fn count(word: ObjectWord, objects: &[ObjectLine]) -> usize
    ensures { result ≡ count_of word objects.now }
{
    objects
        .iter()
        .filter(|object| counts_together(word, object.kind.word()))
        .count()
}

fn limit(word: ObjectWord) -> usize
    ensures { result ≡ limit_of word }
{
    match word {
        ObjectWord::Map => MAX_MAPS,
        ObjectWord::Atomic(_) => MAX_ATOMICS,
        _ => MAX_OTHERS,
    }
}

/// Adds a key, unless it is there.
fn insert_key(alloc: Global, keys: &mut NameTable<()>, key: &[u8]) -> Result<(), AllocError>
    requires { is_name key.now ≡ true }
    ensures { OnOk result (keys.new ≡ insert keys.old key.now tt) }
{
    if keys.get(key).is_some() {
        return Ok(());
    }
    keys.insert(alloc, key, ())
}

/// Adds the key of a call, if it has one.
fn insert_keys(alloc: Global, keys: &mut NameTable<()>, call: &Call) -> Result<(), AllocError>
    ensures { OnOk result (keys.new ≡ with_keys keys.old (keys_of call.now)) }
{
    match call_key(call) {
        None => Ok(()),
        Some(key) => insert_key(alloc, keys, key.as_bytes()),
    }
}

/// The key of a call, if it has one.
pub fn call_key(call: &Call) -> Option<&Name>
    ensures { keys_of call.now ≡ option_to_list (option_copied result) }
{
    match &call.operation {
        Operation::Map(call) => call.key(),
        Operation::Fly(key) => Some(key),
        _ => None,
    }
}

/// How many `range` calls a call is: one or none.
fn ranges_in(call: &Call) -> usize
    ensures { result ≡ count_by is_range (call.now ∷ []) }
{
    match &call.operation {
        Operation::Range => 1,
        _ => 0,
    }
}

/// How many waits a call may make: those of a `waitfor`.
pub fn tries_in(call: &Call) -> usize
    ensures { result ≡ tries_of call.now.operation }
{
    match &call.operation {
        Operation::Composed(ComposedCall::WaitFor { tries, .. }) => *tries as usize,
        _ => 0,
    }
}

/// How many reads and writes of plain variables a call is: one or none.
pub fn accesses_in(call: &Call) -> usize
    ensures { result ≡ count_by is_access (call.now ∷ []) }
{
    match &call.operation {
        Operation::Var(_) => 1,
        _ => 0,
    }
}

/// The worker that a call starts, if it starts one.
fn started_by(call: &Call) -> Option<u32>
    ensures { result ≡ started_by call.now.operation }
{
    match &call.operation {
        Operation::Composed(ComposedCall::Go { worker }) => Some(*worker),
        _ => None,
    }
}

/// Marks the worker that a call starts, if it starts one.
fn mark_started(started: &mut Vec<bool>, call: &Call)
    requires { option_map_or (λ worker. nat_lt worker (vec_len started.old)) (started_by call.now.operation) true ≡ true }
    ensures { started.new.items ≡ marked started.old.items (started_by call.now.operation) }
{
    if let Some(worker) = started_by(call) {
        started[worker as usize] = true;
    }
}

impl Draft {
    /// The draft behind the first line.
    pub fn start(alloc: Global, workers: u32) -> Result<Self, AllocError>
        requires some { 0 < workers }
        requires few { workers ≤ MAX_WORKERS }
        ensures { IfOk result (λ draft. draft ≡ started workers) }
    {
        let parts = Parts {
            workers,
            objects: Seq::new(alloc),
            dormant: none_yet(alloc, workers)?,
            started: none_yet(alloc, workers)?,
            scripts: empty_scripts(alloc, workers)?,
            schedule: Seq::new(alloc),
            current: None,
            names: NameTable::new(alloc)?,
            keys: NameTable::new(alloc)?,
            calls: 0,
            ranges: 0,
            tries: 0,
            accesses: 0,
        };
        Ok(Draft {
            parts: Box::new(alloc, parts)?,
        })
    }

    /// How many workers there are.
    pub fn workers(&self) -> u32
        ensures workers { result ≡ self.now.plan.workers }
        ensures few { result ≤ MAX_WORKERS }
    {
        self.parts.workers
    }

    /// Whether a worker waits to be started.
    pub fn is_dormant(&self, worker: u32) -> bool
        requires { worker < self.now.plan.workers }
        ensures { result ≡ is_dormant self.now.plan worker }
    {
        self.parts.dormant[worker as usize]
    }

    /// Whether a call starts a worker.
    pub fn is_started(&self, worker: u32) -> bool
        requires { worker < self.now.plan.workers }
        ensures { result ≡ nat_lt 0 (start_count worker self.now.plan.scripts) }
    {
        self.parts.started[worker as usize]
    }

    /// Whether a `worker` line came.
    pub fn is_in_worker(&self) -> bool
        ensures { result ≡ is_some self.now.current }
    {
        self.parts.current.is_some()
    }

    /// The object that has a name.
    pub fn declared(&self, name: &[u8]) -> Option<Declared>
        ensures { result ≡ declared self.now name.now }
    {
        self.parts.names.get(name)
    }

    /// What a name finds has its numbers in range.
    pub fn numbers_are_in_range(&self)
        ensures { (name : List ℕ) (found : Declared) → declared self.now name ≡ Some found → is_kind found.kind ≡ true }
    {
        let _workers = self.parts.workers;
    }

    /// Whether one more object of a word is within its limit.
    pub fn has_room_for(&self, word: ObjectWord) -> bool
        ensures { result ≡ nat_lt (count_of word self.now.plan.objects) (limit_of word) }
    {
        count(word, self.parts.objects.as_slice()) < limit(word)
    }

    /// How many calls there are, all workers together.
    pub fn calls(&self) -> usize
        ensures { result ≡ call_count self.now.plan.scripts }
    {
        self.parts.calls
    }

    /// How many `range` calls there are, all workers together.
    pub fn ranges(&self) -> usize
        ensures { result ≡ range_count self.now.plan.scripts }
    {
        self.parts.ranges
    }

    /// How many waits all calls may make, all workers together.
    pub fn tries(&self) -> usize
        ensures { result ≡ try_count self.now.plan.scripts }
    {
        self.parts.tries
    }

    /// How many reads and writes of plain variables there are, all workers together.
    pub fn accesses(&self) -> usize
        ensures { result ≡ access_count self.now.plan.scripts }
    {
        self.parts.accesses
    }

    /// How many items the schedule has.
    pub fn turns(&self) -> usize
        ensures { result ≡ length self.now.plan.schedule }
    {
        self.parts.schedule.len()
    }

    /// How many different keys there are with one that a call brings.
    fn keys_with(&self, key: &[u8]) -> usize
        ensures { result ≡ key_count self.now.plan.scripts (key.now ∷ []) }
    {
        let keys = &self.parts.keys;
        if keys.get(key).is_some() {
            keys.len()
        } else {
            keys.len() + 1
        }
    }

    /// How many different keys there are with that of one more call, if it has one.
    fn keys_with_call(&self, call: &Call) -> usize
        ensures { result ≡ key_count self.now.plan.scripts (keys_of call.now) }
    {
        match call_key(call) {
            None => self.parts.keys.len(),
            Some(key) => self.keys_with(key.as_bytes()),
        }
    }

    /// Whether the key of one more call, if it has one, is within the limit. The key is looked up only where the limit is
    /// reached.
    pub fn has_room_for_key(&self, call: &Call) -> bool
        ensures { result ≡ nat_le (key_count self.now.plan.scripts (keys_of call.now)) MAX_KEYS }
    {
        self.parts.keys.len() < MAX_KEYS || self.keys_with_call(call) <= MAX_KEYS
    }

    fn with_object(
        self,
        alloc: Global,
        object: ObjectLine,
        reference: Option<Name>,
    ) -> Result<Self, AllocError>
        requires { may_follow self (Line.Object object reference) ≡ true }
        ensures { IfOk result (λ draft. draft ≡ with_line self (Line.Object object reference)) }
    {
        let Draft { mut parts } = self;
        let known = &mut *parts;
        let declared = Declared {
            place: known.objects.len(),
            kind: object.kind,
        };
        known.names.insert(alloc, object.name.as_bytes(), declared)?;
        known.objects.push(object)?;
        Ok(Draft { parts })
    }

    fn with_dormant(self, worker: u32) -> Self
        requires { may_follow self (Line.Dormant worker) ≡ true }
        ensures { result ≡ with_line self (Line.Dormant worker) }
    {
        let Draft { mut parts } = self;
        parts.dormant[worker as usize] = true;
        Draft { parts }
    }

    fn with_worker(self, worker: u32) -> Self
        requires { may_follow self (Line.Worker worker) ≡ true }
        ensures { result ≡ with_line self (Line.Worker worker) }
    {
        let Draft { mut parts } = self;
        parts.current = Some(worker);
        Draft { parts }
    }

    fn with_turns(self, turns: &[Turn]) -> Result<Self, AllocError>
        requires { may_follow self (Line.Schedule turns.now) ≡ true }
        ensures { IfOk result (λ draft. draft ≡ with_line self (Line.Schedule turns.now)) }
    {
        let Draft { mut parts } = self;
        parts.schedule.extend_from_slice(turns)?;
        Ok(Draft { parts })
    }

    fn with_call(
        self,
        alloc: Global,
        name: NameWord,
        second: Option<Name>,
        call: Call,
    ) -> Result<Self, AllocError>
        requires { may_follow self (Line.Call name second call) ≡ true }
        ensures { IfOk result (λ draft. draft ≡ with_line self (Line.Call name.entry second call)) }
    {
        let Draft { mut parts } = self;
        let known = &mut *parts;
        let Some(worker) = known.current else {
            unreachable!()
        };
        insert_keys(alloc, &mut known.keys, &call)?;
        known.calls += 1;
        known.ranges += ranges_in(&call);
        known.tries += tries_in(&call);
        known.accesses += accesses_in(&call);
        mark_started(&mut known.started, &call);
        known.scripts.push_at(worker as usize, call)?;
        Ok(Draft { parts })
    }

    /// The draft with one more line.
    pub fn with_line(self, alloc: Global, line: Line) -> Result<Self, AllocError>
        requires { may_follow self line ≡ true }
        ensures { IfOk result (λ draft. draft ≡ with_line self line.entry) }
    {
        match line {
            Line::Object(object, reference) => self.with_object(alloc, object, reference),
            Line::Dormant(worker) => Ok(self.with_dormant(worker)),
            Line::Worker(worker) => Ok(self.with_worker(worker)),
            Line::Schedule(turns) => self.with_turns(turns.as_slice()),
            Line::Call(name, second, call) => self.with_call(alloc, name, second, call),
        }
    }

    /// The workload that all lines say, with the numbers of its keys. Only want of memory is an `Err`.
    pub fn finish(self, alloc: Global) -> Result<Workload, AllocError>
        ensures { IfOk result (λ workload. workload ≡ self.plan) }
    {
        let Parts {
            workers,
            objects,
            dormant,
            scripts,
            schedule,
            ..
        } = Box::into_inner(self.parts);
        let (keys, numbers) = Keys::of_scripts(alloc, scripts.as_slice())?;
        Ok(Workload::new(workers, objects, dormant, scripts, schedule, keys, numbers))
    }
}
