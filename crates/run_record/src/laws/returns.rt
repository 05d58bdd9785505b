//! What a call has made when it returns, by its items: what it has taken in from earlier calls, and what it leaves for later
//! ones. So what is said of a journal's entries is said of the calls that users make.
ghost use Rattle.std.specs.Prelude.{◌≡◌, ℕ, ℤ, ◌<◌, List, Some, Ok, slice_get};
ghost use Rattle.workload.specs.Keys.{keys_in, key_number};
ghost use Rattle.workload.specs.Plan.{Plan};
ghost use Rattle.run_record.specs.Calls.{SpellsCall};
ghost use Rattle.run_record.specs.Objects.{atomic_number, first_part};
ghost use Rattle.run_record.specs.Record.{object_number};
ghost use Rattle.run_record.specs.Returns.{MutexReturns, RwMutexReturns, CondReturns, WaitGroupReturns, OnceReturns, OnceFuncReturns, OnceValueReturns, PoolReturns, SemaReturns, FlightReturns};

use crate::made::Made;
use flight_core::FlightCore;
use mutex_core::MutexCore;
use pool_core::laws::looks_everywhere;
use protocols::laws::{calls_gain_at_their_end, calls_give_what_they_may};
use rw_core::RwCore;
use script_calls::{Call, Operation, Reply};
use sema_core::SemaCore;
use sync_model::Answer;
use sync_types::{CondCall, MutexCall, PoolCall, RwMutexCall, SemaCall, WaitGroupCall};
use wait_cores::{GroupCore, NotifyCore, OnceCore};
use workload::{ObjectKind, ObjectLine};

/// A lock of a mutex takes in, by its last event, what each unlock before it left. A try is one event, and answers what that was
/// answered. An unlock that is done is one event, which leaves what its caller knows.
pub fn what_a_mutex_call_has_done()
    ensures { (plan : Plan) (worker before : ℕ) (object : ObjectLine) (call : Call) (of : MutexCall) (items : List Made) (answer : Reply ℕ)
        → slice_get plan.objects call.object ≡ Some object → object.kind ≡ ObjectKind.Mutex → call.operation ≡ Operation.Mutex of
        → SpellsCall plan worker before call items (Answer.Done (Ok answer)) → MutexReturns (object_number call.object) of items answer }
{
    calls_gain_at_their_end::<MutexCore>();
    calls_give_what_they_may::<MutexCore>();
}

/// The same of a reader/writer mutex, whose readers come and go by events of their own.
pub fn what_an_rw_mutex_call_has_done()
    ensures { (plan : Plan) (worker before : ℕ) (object : ObjectLine) (call : Call) (of : RwMutexCall) (items : List Made) (answer : Reply ℕ)
        → slice_get plan.objects call.object ≡ Some object → object.kind ≡ ObjectKind.RwMutex → call.operation ≡ Operation.RwMutex of
        → SpellsCall plan worker before call items (Answer.Done (Ok answer)) → RwMutexReturns (object_number call.object) of items answer }
{
    calls_gain_at_their_end::<RwCore>();
    calls_give_what_they_may::<RwCore>();
}

/// A wait on a cond took a ticket, then unlocked the cond's mutex, left the cond by an event that takes in what notified it, and
/// at last locked the mutex again. A signal is one event, and a broadcast another one.
pub fn what_a_cond_call_has_done()
    ensures { (plan : Plan) (worker before mutex : ℕ) (object : ObjectLine) (call : Call) (of : CondCall) (items : List Made) (answer : Reply ℕ)
        → slice_get plan.objects call.object ≡ Some object → object.kind ≡ ObjectKind.Cond mutex → call.operation ≡ Operation.Cond of
        → SpellsCall plan worker before call items (Answer.Done (Ok answer)) → CondReturns (object_number call.object) (object_number mutex) of items answer }
{
    calls_gain_at_their_end::<NotifyCore>();
    calls_gain_at_their_end::<MutexCore>();
    calls_give_what_they_may::<MutexCore>();
}

/// An `add` to a wait group is one event, and so is a `done`, which adds -1. A wait takes in, by its last event, what each addition
/// below 0 before it left.
pub fn what_a_wait_group_call_has_done()
    ensures { (plan : Plan) (worker before start : ℕ) (object : ObjectLine) (call : Call) (of : WaitGroupCall) (items : List Made) (answer : Reply ℕ)
        → slice_get plan.objects call.object ≡ Some object → object.kind ≡ ObjectKind.WaitGroup start → call.operation ≡ Operation.WaitGroup of
        → SpellsCall plan worker before call items (Answer.Done (Ok answer)) → WaitGroupReturns (object_number call.object) of items answer }
{
    calls_gain_at_their_end::<GroupCore>();
}

/// A `do` whose once nobody had called ran the function between the events that begin and end it: it added, and answers the
/// sum. Any other was told by its last event what the function had come to, and so takes in what the end left.
pub fn what_a_do_has_done()
    ensures { (plan : Plan) (worker before atomic : ℕ) (amount : ℤ) (object : ObjectLine) (call : Call) (items : List Made) (answer : Reply ℕ)
        → slice_get plan.objects call.object ≡ Some object → object.kind ≡ ObjectKind.Once atomic amount → call.operation ≡ Operation.Once
        → SpellsCall plan worker before call items (Answer.Done (Ok answer)) → OnceReturns (object_number call.object) (atomic_number plan.objects atomic) amount items answer }
{
    calls_give_what_they_may::<OnceCore<i64>>();
}

/// A call of a function made by `OnceFunc` or `OnceValue` runs it, where it is the first, and else is told what it came to. It
/// answers just that.
pub fn what_a_call_of_a_function_has_done()
    ensures func { (plan : Plan) (worker before code : ℕ) (object : ObjectLine) (call : Call) (items : List Made) (answer : Reply ℕ)
        → slice_get plan.objects call.object ≡ Some object → object.kind ≡ ObjectKind.OnceFunc code → call.operation ≡ Operation.OnceFunc
        → SpellsCall plan worker before call items (Answer.Done (Ok answer)) → OnceFuncReturns (object_number call.object) code items answer }
    ensures value { (plan : Plan) (worker before value : ℕ) (object : ObjectLine) (call : Call) (items : List Made) (answer : Reply ℕ)
        → slice_get plan.objects call.object ≡ Some object → object.kind ≡ ObjectKind.OnceValue value → call.operation ≡ Operation.OnceValue
        → SpellsCall plan worker before call items (Answer.Done (Ok answer)) → OnceValueReturns (object_number call.object) value items answer }
{
    calls_give_what_they_may::<OnceCore<u32>>();
    calls_give_what_they_may::<OnceCore<u64>>();
}

/// A `put` is one event at its worker's own part. A `get` took its item by its last look, which it takes in from the put of it; or
/// it answers a new one, and found nothing at any part, its own and the others, and at no part's victims. A sweep sweeps each
/// part once.
pub fn what_a_pool_call_has_done()
    ensures { (plan : Plan) (worker before : ℕ) (object : ObjectLine) (call : Call) (of : PoolCall) (items : List Made) (answer : Reply ℕ)
        → slice_get plan.objects call.object ≡ Some object → object.kind ≡ ObjectKind.Pool → call.operation ≡ Operation.Pool of → worker < plan.workers
        → SpellsCall plan worker before call items (Answer.Done (Ok answer)) → PoolReturns plan.workers worker (first_part plan call.object) of items answer }
{
    looks_everywhere();
}

/// An acquire of a semaphore takes in, by its last event, what each release before it left. A try is one event, and tells whether it
/// has its weight. A release that is done is one event, which leaves what its caller knows.
pub fn what_a_semaphore_call_has_done()
    ensures { (plan : Plan) (worker before size : ℕ) (object : ObjectLine) (call : Call) (of : SemaCall) (items : List Made) (answer : Reply ℕ)
        → slice_get plan.objects call.object ≡ Some object → object.kind ≡ ObjectKind.Sema size → call.operation ≡ Operation.Sema of
        → SpellsCall plan worker before call items (Answer.Done (Ok answer)) → SemaReturns (object_number call.object) of items answer }
{
    calls_gain_at_their_end::<SemaCore>();
    calls_give_what_they_may::<SemaCore>();
}

/// A `fly` led a flight of its key or joined one. Where it led, it added once, between the events that lead and land the flight, and
/// answers the sum, and whether somebody joined it. Where it joined, it was told by its last event what the flight had come to.
pub fn what_a_fly_has_done()
    ensures { (plan : Plan) (worker before atomic : ℕ) (amount : ℤ) (key : List ℕ) (object : ObjectLine) (call : Call) (items : List Made) (answer : Reply ℕ)
        → slice_get plan.objects call.object ≡ Some object → object.kind ≡ ObjectKind.Flight atomic amount → call.operation ≡ Operation.Fly key
        → SpellsCall plan worker before call items (Answer.Done (Ok answer))
        → FlightReturns (object_number call.object) (atomic_number plan.objects atomic) amount (key_number (keys_in plan.scripts) key) items answer }
{
    calls_give_what_they_may::<FlightCore>();
}
