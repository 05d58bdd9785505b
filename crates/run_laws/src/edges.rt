//! What one event makes known to another: the edges between the events of a run's objects are those that Go documents, and a front
//! counts calls that were made. Each law is the contract of a function that does nothing.
ghost use Rattle.std.specs.Prelude.{◌≡◌, ◌↔◌, ◌⊎◌, ◌<◌, ℕ, ℤ, true, IsFalse, Some, slice_get, slice_index};
ghost use Rattle.flight_core.specs.FlightMachine as flight;
ghost use Rattle.mutex_core.specs.MutexMachine as mutex;
ghost use Rattle.pool_core.specs.PartMachine.{PartState, part_next};
ghost use Rattle.rw_core.specs.RwMachine as rw;
ghost use Rattle.wait_cores.specs.OnceMachine as once;
ghost use Rattle.workload.specs.Plan.{Plan};
ghost use Rattle.run_record.specs.Edges.{frees, takes};
ghost use Rattle.run_record.specs.Explains.{IsRecordOf};
ghost use Rattle.run_record.specs.Record.{Record, list_of, calls_of, front_of};
ghost use Rattle.run_laws.specs.DocumentedEdges.{CondWaitGoesOn, Dones, FlightCallGoesOn, FlightLands, FunctionCompletes, Gets, GoStarts, GroupWaitReturns, Locks, Notifies, OnceCallReturns, Puts, RwLocks, RwUnlocks, SemaAcquires, SemaReleases, StartedGoes, Unlocks, WorkerEnds, is_of_its_kind};

use flight_core::FlightEvent;
use mutex_core::MutexEvent;
use pool_core::PoolEvent;
use run_record::Made;
use run_record::entered::{ObjectEvent, ObjectReply};
use rw_core::RwEvent;
use sema_core::{SemaEvent, SemaReply};
use starts_core::{StartEvent, StartReply};
use sync_model::Item;
use wait_cores::{GroupEvent, GroupReply, NotifyEvent, NotifyReply, OnceEvent};

/// An event releases exactly where Go's memory model, or the documentation of its `sync`, names it as the first of two that
/// are synchronized, and acquires exactly where it is the second: of each kind of object, whatever its state is and
/// whoever makes the event. An event that is answered by a misuse, by an object of another kind, or not at all, does neither.
/// Some are choices of this profile: one release more, the end of a worker in a workload where some wait to be started; and all of
/// semaphores and flights, of which the documentation of `golang.org/x/sync` names none.
pub fn the_edges_are_those_that_go_documents()
    ensures mutex { (state : mutex.State) (caller : ℕ) (event : MutexEvent) → let reply = (mutex.next state caller event).1 in
        (frees (ObjectEvent.Mutex event) (ObjectReply.Mutex reply) ≡ true ↔ Unlocks event reply)
        × (takes (ObjectEvent.Mutex event) (ObjectReply.Mutex reply) ≡ true ↔ Locks event reply) }
    ensures rw_mutex { (state : rw.State) (caller : ℕ) (event : RwEvent) → let reply = (rw.next state caller event).1 in
        (frees (ObjectEvent.RwMutex event) (ObjectReply.RwMutex reply) ≡ true ↔ RwUnlocks event reply)
        × (takes (ObjectEvent.RwMutex event) (ObjectReply.RwMutex reply) ≡ true ↔ RwLocks event reply) }
    ensures wait_group { (event : GroupEvent) (reply : GroupReply)
        → (frees (ObjectEvent.WaitGroup event) (ObjectReply.WaitGroup reply) ≡ true ↔ Dones event reply)
        × (takes (ObjectEvent.WaitGroup event) (ObjectReply.WaitGroup reply) ≡ true ↔ GroupWaitReturns event reply) }
    ensures once { (state : once.OnceState ℤ) (caller : ℕ) (event : OnceEvent ℤ) → let reply = (once.next state caller event).1 in
        (frees (ObjectEvent.Once event) (ObjectReply.Once reply) ≡ true ↔ FunctionCompletes event reply)
        × (takes (ObjectEvent.Once event) (ObjectReply.Once reply) ≡ true ↔ OnceCallReturns event reply) }
    ensures once_func { (state : once.OnceState ℕ) (caller : ℕ) (event : OnceEvent ℕ) → let reply = (once.next state caller event).1 in
        (frees (ObjectEvent.OnceFunc event) (ObjectReply.OnceFunc reply) ≡ true ↔ FunctionCompletes event reply)
        × (takes (ObjectEvent.OnceFunc event) (ObjectReply.OnceFunc reply) ≡ true ↔ OnceCallReturns event reply) }
    ensures once_value { (state : once.OnceState ℕ) (caller : ℕ) (event : OnceEvent ℕ) → let reply = (once.next state caller event).1 in
        (frees (ObjectEvent.OnceValue event) (ObjectReply.OnceValue reply) ≡ true ↔ FunctionCompletes event reply)
        × (takes (ObjectEvent.OnceValue event) (ObjectReply.OnceValue reply) ≡ true ↔ OnceCallReturns event reply) }
    ensures cond { (event : NotifyEvent) (reply : NotifyReply)
        → (frees (ObjectEvent.Cond event) (ObjectReply.Cond reply) ≡ true ↔ Notifies event reply)
        × (takes (ObjectEvent.Cond event) (ObjectReply.Cond reply) ≡ true ↔ CondWaitGoesOn event reply) }
    ensures pool { (state : PartState ℕ) (caller : ℕ) (event : PoolEvent ℕ) → let reply = (part_next state caller event).1 in
        (frees (ObjectEvent.Pool event) (ObjectReply.Pool reply) ≡ true ↔ Puts event reply)
        × (takes (ObjectEvent.Pool event) (ObjectReply.Pool reply) ≡ true ↔ Gets event reply) }
    ensures sema { (event : SemaEvent) (reply : SemaReply)
        → (frees (ObjectEvent.Sema event) (ObjectReply.Sema reply) ≡ true ↔ SemaReleases event reply)
        × (takes (ObjectEvent.Sema event) (ObjectReply.Sema reply) ≡ true ↔ SemaAcquires event reply) }
    ensures flight { (state : flight.FlightState) (caller : ℕ) (event : FlightEvent) → let reply = (flight.next state caller event).1 in
        (frees (ObjectEvent.Flight event) (ObjectReply.Flight reply) ≡ true ↔ FlightLands event reply)
        × (takes (ObjectEvent.Flight event) (ObjectReply.Flight reply) ≡ true ↔ FlightCallGoesOn event reply) }
    ensures starts { (event : StartEvent) (reply : StartReply)
        → (frees (ObjectEvent.Starts event) (ObjectReply.Starts reply) ≡ true ↔ GoStarts event reply ⊎ WorkerEnds event reply)
        × (takes (ObjectEvent.Starts event) (ObjectReply.Starts reply) ≡ true ↔ StartedGoes event reply) }
    ensures apart { (event : ObjectEvent) (reply : ObjectReply)
        → IsFalse (is_of_its_kind event reply) → IsFalse (frees event reply) × IsFalse (takes event reply) }
{
    mutex_core::laws::standing();
    mutex_core::laws::still();
    rw_core::laws::standing();
    rw_core::laws::still();
    wait_cores::laws::once::knows_where_it_stands::<i64>();
    wait_cores::laws::once::knows_where_it_stands::<u32>();
    pool_core::part_laws::a_part_answers();
    flight_core::laws::knows_where_it_stands();
}

/// Each call that a front counts was made: nobody knows of a call that there isn't.
pub fn a_front_counts_calls_that_were_made()
    ensures { (plan : Plan) (r : Record) (worker i other known : ℕ) (made : Made)
        → IsRecordOf plan r → slice_get (list_of r worker) i ≡ Some made → known < slice_index (front_of made) other
        → (call : Item) × (slice_get (calls_of r other) known ≡ Some call) }
{}
