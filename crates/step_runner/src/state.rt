//! What a run knows between two turns.
ghost use Rattle.std.specs.Prelude.{◌≡◌, ◌<◌, ◌+◌, ◌^◌, [], Some, None, map, length, get_or, set, replicate, IfOk, OnOk};
ghost use Rattle.std.specs.List.{range_with_len};
ghost use Rattle.script_calls.specs.Runs.{passed_over};
ghost use Rattle.script_calls.specs.Starts.{started_by};
ghost use Rattle.workload.specs.Readable.{IsReadable};
ghost use Rattle.step_runner.specs.Places.{IsKeptFor, closing_group, places_behind};
ghost use Rattle.step_runner.specs.State.{new_objects, first_stand, start, stand_of, stands_behind, with_begun, with_stand};
ghost use Rattle.step_runner.specs.Turns.{answered, settled_by};
ghost use Rattle.step_runner.specs.declared.state.Stand.TheVariants.{Gone};

use crate::laws;
use crate::step::Step;
use crate::turns::{Answer, ObjectState};
use script_calls::{Call, ComposedCall, Operation, Reply};
use std::alloc::{AllocError, Global};
use std::marker::Model;
use sync_types::{Name, Seq};
use workload::Workload;

/// How a worker stands in a run.
#[derive(Clone, Copy, PartialEq, Eq)]
pub enum Stand {
    /// It waits to be started.
    Waits,
    /// It makes the calls of its script.
    Live,
    /// It was started, and has made all of its script and the `done` behind it.
    Gone,
}

/// The clock's moment, the objects, and for each worker the replies to its calls so far, how many waits of its call it has begun, how it
/// stands, the place of its next call, and the place of the group on which it is done behind its script, if it may be started.
#[derive(Drop)]
pub struct State {
    pub(crate) moment: u64,
    pub(crate) objects: Vec<ObjectState>,
    pub(crate) replies: Seq<Seq<Reply<Name>>>,
    pub(crate) begun: Vec<u32>,
    stands: Vec<Stand>,
    places: Vec<usize>,
    groups: Vec<Option<usize>>,
}

impl Model for State {
    ghost use Rattle.std.specs.Coded.{codes};
    ghost use Rattle.step_runner.specs.Places.{Kept};
    ghost use Rattle.step_runner.specs.contracts.state.Stand as stand;
    ghost use Rattle.step_runner.specs.contracts.turns.object_state.ObjectState as object;

    ghost Value = { Kept };

    ghost coded = { Prim.hlevel (codes, object.the_row.coded, stand.the_row.coded) };

    ghost view = { λ s. record { state = record { moment = s.moment; objects = s.objects.items; replies = s.replies; begun = s.begun.items; stands = s.stands.items }; places = s.places.items; groups = s.groups.items } };
}

/// The objects of a workload as a run begins with them.
fn new_objects(alloc: Global, workload: &Workload) -> Result<Vec<ObjectState>, AllocError>
    ensures { IfOk result (λ objects. objects.items ≡ new_objects workload.now 0 workload.now.objects) }
{
    let mut objects = Vec::new(alloc);
    for (place, line) in workload.objects().iter().enumerate() {
        let room = workload.puts_at(place);
        objects.push(ObjectState::new(alloc, workload, room, line.kind)?)?;
    }
    Ok(objects)
}

/// For each worker no replies.
fn no_replies(alloc: Global, workers: u32) -> Result<Seq<Seq<Reply<Name>>>, AllocError>
    ensures { IfOk result (λ replies. replies ≡ replicate workers []) }
{
    let mut replies = Seq::new(alloc);
    for _ in 0..workers {
        replies.push(Seq::new(alloc))?;
    }
    Ok(replies)
}

/// For each worker no wait that was begun.
fn no_waits(alloc: Global, workers: u32) -> Result<Vec<u32>, AllocError>
    ensures { IfOk result (λ begun. begun.items ≡ replicate workers 0) }
{
    vec![in alloc; 0; workers as usize]
}

/// How each worker stands before the first turn.
fn first_stands(alloc: Global, workload: &Workload) -> Result<Vec<Stand>, AllocError>
    ensures { IfOk result (λ stands. stands.items ≡ map first_stand workload.now.dormant) }
{
    let mut stands = Vec::new(alloc);
    for waits in workload.dormant() {
        stands.push(if *waits { Stand::Waits } else { Stand::Live })?;
    }
    Ok(stands)
}

/// For each worker the first place of its script.
fn first_places(alloc: Global, workers: u32) -> Result<Vec<usize>, AllocError>
    ensures { IfOk result (λ places. places.items ≡ replicate workers 0) }
{
    vec![in alloc; 0; workers as usize]
}

/// The place of the group on which a worker is done behind its script, if it may be started.
fn closing_group(workload: &Workload, worker: u32) -> Option<usize>
    requires { worker < workload.now.workers }
    ensures { result ≡ closing_group workload.now worker }
{
    if workload.is_dormant(worker) {
        workload.group_of(worker)
    } else {
        None
    }
}

/// That of each worker.
fn closing_groups(alloc: Global, workload: &Workload) -> Result<Vec<Option<usize>>, AllocError>
    ensures { IfOk result (λ groups. groups.items ≡ map (closing_group workload.now) (range_with_len 0 workload.now.workers)) }
{
    let mut groups = Vec::new(alloc);
    for worker in 0..workload.workers() {
        groups.push(closing_group(workload, worker))?;
    }
    Ok(groups)
}

/// Starts the worker that a call starts, if it starts one: whoever waits to be started is live then.
fn start(stands: &mut [Stand], call: &Call)
    ensures { stands.new ≡ stands_behind (started_by call.now.operation) stands.old }
{
    if let Operation::Composed(ComposedCall::Go { worker }) = call.operation {
        wake(stands, worker as usize);
    }
}

/// Whoever waits to be started is live, and any other stands as it did.
fn wake(stands: &mut [Stand], worker: usize)
    ensures { stands.new ≡ stands_behind (Some worker) stands.old }
{
    if let Some(Stand::Waits) = stands.get(worker) {
        stands[worker] = Stand::Live;
    }
}

impl State {
    /// The state in which a run begins. The clock stands at 0.
    pub fn start(alloc: Global, workload: &Workload) -> Result<Self, AllocError>
        ensures start { IfOk result (λ kept. kept.state ≡ start workload.now) }
        ensures of { IfOk result (IsKeptFor workload.now) }
        ensures readable { IfOk result (λ _. IsReadable workload.now) }
    {
        laws::validity();
        let workers = workload.workers();
        let objects = new_objects(alloc, workload)?;
        let replies = no_replies(alloc, workers)?;
        let begun = no_waits(alloc, workers)?;
        let stands = first_stands(alloc, workload)?;
        let places = first_places(alloc, workers)?;
        let groups = closing_groups(alloc, workload)?;
        Ok(State {
            moment: 0,
            objects,
            replies,
            begun,
            stands,
            places,
            groups,
        })
    }

    /// How a worker stands.
    pub fn stand(&self, worker: u32) -> Stand
        requires { worker < length self.now.state.stands }
        ensures { result ≡ stand_of worker self.now.state }
    {
        self.stands[worker as usize]
    }

    /// The place of a worker's next call in its script. No call stands there where the script has ended.
    pub fn place(&self, worker: u32) -> usize
        requires { worker < length self.now.places }
        ensures { result ≡ get_or self.now.places worker 0 }
    {
        self.places[worker as usize]
    }

    /// The place of the group on which a worker is done behind its script, if it may be started.
    pub fn group(&self, worker: u32) -> Option<usize>
        requires { worker < length self.now.groups }
        ensures { result ≡ get_or self.now.groups worker None }
    {
        self.groups[worker as usize]
    }

    /// Completes a worker's call with its reply, and starts the worker that the call starts, if any. Calls that this passes over are left
    /// out. Of the next call no wait was begun.
    fn complete(&mut self, worker: u32, call: &Call, reply: Reply<Name>) -> Result<(), AllocError>
        requires replies { worker < length self.old.state.replies }
        requires waits { worker < length self.old.state.begun }
        requires places { worker < length self.old.places }
        requires room { get_or self.old.places worker 0 < 2 ^ 63 }
        ensures state { OnOk result (self.new.state ≡ answered worker call.now reply self.old.state) }
        ensures places { OnOk result (self.new.places ≡ set self.old.places worker (get_or self.old.places worker 0 + 1 + passed_over call.now reply)) }
        ensures groups { self.new.groups ≡ self.old.groups }
    {
        self.places[worker as usize] += 1 + call.passed_over(&reply);
        self.begun[worker as usize] = 0;
        start(&mut self.stands, call);
        self.replies.push_at(worker as usize, reply)
    }

    /// Settles what a turn before a call of a worker's script means, behind which so many waits of the call were begun: only an answer that
    /// completes the call adds a reply.
    pub fn settle(
        &mut self,
        worker: u32,
        call: &Call,
        begun: u32,
        answer: Answer,
    ) -> Result<Step, AllocError>
        requires replies { worker < length self.old.state.replies }
        requires waits { worker < length self.old.state.begun }
        requires places { worker < length self.old.places }
        requires room { get_or self.old.places worker 0 < 2 ^ 63 }
        ensures settled { IfOk result (λ step. (settled_by (answered worker call.now) answer (with_begun worker begun self.old.state) ≡ (self.new.state, step)) × (self.new.places ≡ places_behind worker call.now answer self.old.places)) }
        ensures groups { self.new.groups ≡ self.old.groups }
    {
        self.begun[worker as usize] = begun;
        match answer {
            Answer::Still => Ok(Step::Still),
            Answer::Unfinished => Ok(Step::Made),
            Answer::Completed(reply) => {
                self.complete(worker, call, reply)?;
                Ok(Step::Made)
            }
            Answer::Misused(misuse) => Ok(Step::Misused(misuse)),
        }
    }

    /// Settles what the turn of the `done` behind a worker's script means: once it is completed, the worker is gone.
    pub fn close(&mut self, worker: u32, answer: Answer) -> Step
        requires { worker < length self.old.state.stands }
        ensures state { settled_by (λ reply. with_stand worker Gone) answer self.old.state ≡ (self.new.state, result) }
        ensures places { self.new.places ≡ self.old.places }
        ensures groups { self.new.groups ≡ self.old.groups }
    {
        match answer {
            Answer::Still => Step::Still,
            Answer::Unfinished => Step::Made,
            Answer::Completed(_) => {
                self.stands[worker as usize] = Stand::Gone;
                Step::Made
            }
            Answer::Misused(misuse) => Step::Misused(misuse),
        }
    }
}
