//! A workload that was read.
ghost use Rattle.std.specs.Prelude.{◌≡◌, ◌<◌, true, get_or, [], map, IfOk};
ghost use Rattle.script_calls.specs.Starts.{group_of};
ghost use Rattle.workload.specs.Keys.{keys_in, call_number, numbers_in};
ghost use Rattle.workload.specs.Plan.{is_dormant, has_dormant, is_valid};
ghost use Rattle.workload.specs.Puts.{puts_at};
ghost use Rattle.workload.specs.Readable.{IsReadable};

use crate::groups::group_of;
use crate::keys::Keys;
use crate::object::ObjectLine;
use crate::puts::puts_at;
use crate::turn::Turn;
use script_calls::Call;
use std::alloc::{AllocError, Global};
use std::marker::Model;
use sync_types::Seq;

/// Workers, of which some may wait to be started, objects, a script for each worker and a schedule. Each number in it is in range: a call's
/// object is there and has the call, and a turn's worker is there. The keys of its calls have numbers. Beside the
/// scripts stands the number of each call's key, so that a run needs to look none up.
#[derive(Drop)]
pub struct Workload {
    workers: u32,
    objects: Seq<ObjectLine>,
    dormant: Vec<bool>,
    scripts: Seq<Seq<Call>>,
    schedule: Seq<Turn>,
    keys: Keys,
    numbers: Seq<Seq<u32>>,
}

impl Model for Workload {
    ghost use Rattle.workload.specs.Plan.{Plan};
    ghost use Rattle.std.specs.Prelude.{◌≡◌};
    ghost use Rattle.workload.specs.Keys.{keys_in, numbers_in};
    ghost use Rattle.workload.specs.Readable.{IsReadable};

    ghost Value = { Plan };

    ghost view = { λ w. record { workers = w.workers; objects = w.objects; dormant = w.dormant.items; scripts = w.scripts; schedule = w.schedule } };

    ghost invariant = { λ w. IsReadable (record { workers = w.workers; objects = w.objects; dormant = w.dormant.items; scripts = w.scripts; schedule = w.schedule }) × (w.keys ≡ keys_in w.scripts) × (w.numbers ≡ numbers_in w.scripts) };
}

impl Workload {
    /// A workload of these parts.
    pub(crate) fn new(
        workers: u32,
        objects: Seq<ObjectLine>,
        dormant: Vec<bool>,
        scripts: Seq<Seq<Call>>,
        schedule: Seq<Turn>,
        keys: Keys,
        numbers: Seq<Seq<u32>>,
    ) -> Self
        requires readable { IsReadable (record { workers = workers; objects = objects; dormant = dormant.items; scripts = scripts; schedule = schedule }) }
        requires keys { keys ≡ keys_in scripts }
        requires numbers { numbers ≡ numbers_in scripts }
        ensures { result ≡ record { workers = workers; objects = objects; dormant = dormant.items; scripts = scripts; schedule = schedule } }
    {
        Workload {
            workers,
            objects,
            dormant,
            scripts,
            schedule,
            keys,
            numbers,
        }
    }

    /// How many workers there are, 1 to 32 where the workload was read.
    pub fn workers(&self) -> u32
        ensures workers { result ≡ self.now.workers }
        ensures valid { is_valid self.now ≡ true }
        ensures readable { IsReadable self.now }
    {
        self.workers
    }

    /// The objects, in order of declaration.
    pub fn objects(&self) -> &[ObjectLine]
        ensures objects { result.now ≡ self.now.objects }
        ensures valid { is_valid self.now ≡ true }
    {
        self.objects.as_slice()
    }

    /// Whether a worker waits to be started. One that is never started makes no call.
    pub fn is_dormant(&self, worker: u32) -> bool
        requires { worker < self.now.workers }
        ensures dormant { result ≡ is_dormant self.now worker }
        ensures valid { is_valid self.now ≡ true }
    {
        self.dormant[worker as usize]
    }

    /// For each worker, whether it waits to be started.
    pub fn dormant(&self) -> &[bool]
        ensures dormant { result.now ≡ self.now.dormant }
        ensures valid { is_valid self.now ≡ true }
    {
        self.dormant.as_slice()
    }

    /// Whether any worker waits to be started.
    pub fn has_dormant(&self) -> bool
        ensures { result ≡ has_dormant self.now }
    {
        self.dormant.iter().any(|waits| *waits)
    }

    /// The calls of a worker, in order.
    pub fn script(&self, worker: u32) -> &[Call]
        requires { worker < self.now.workers }
        ensures script { result.now ≡ get_or self.now.scripts worker [] }
        ensures valid { is_valid self.now ≡ true }
    {
        self.scripts.as_slice()[worker as usize].as_slice()
    }

    /// For each call of a worker, in order, the number of its key, or 0 for a call without one.
    pub fn key_numbers(&self, worker: u32) -> &[u32]
        requires { worker < self.now.workers }
        ensures { result.now ≡ map (call_number (keys_in self.now.scripts)) (get_or self.now.scripts worker []) }
    {
        self.numbers.as_slice()[worker as usize].as_slice()
    }

    /// The keys of the calls by first appearance, script by script from worker 0.
    pub fn keys(&self) -> &Keys
        ensures { result.now ≡ keys_in self.now.scripts }
    {
        &self.keys
    }

    /// A copy of these keys, which outlives the workload.
    pub fn copied_keys(&self, alloc: Global) -> Result<Keys, AllocError>
        ensures { IfOk result (λ keys. keys ≡ keys_in self.now.scripts) }
    {
        let (keys, _) = Keys::of_scripts(alloc, self.scripts.as_slice())?;
        Ok(keys)
    }

    /// How many items the scripts put into the pool at this place.
    pub fn puts_at(&self, place: usize) -> u32
        ensures { result ≡ puts_at place self.now.scripts }
    {
        puts_at(self.scripts.as_slice(), place)
    }

    /// The place of the group under which a worker is started, if any call may start it.
    pub fn group_of(&self, worker: u32) -> Option<usize>
        ensures { result ≡ group_of worker self.now.scripts }
    {
        group_of(self.scripts.as_slice(), worker)
    }

    /// The items of the schedule.
    pub fn schedule(&self) -> &[Turn]
        ensures schedule { result.now ≡ self.now.schedule }
        ensures valid { is_valid self.now ≡ true }
    {
        self.schedule.as_slice()
    }
}
