//! What completed calls of a run order: the rows of the table in the words of the scripts.
ghost use Rattle.std.specs.Prelude.{◌≡◌, ◌≢◌, ℕ, ℤ, negsuc, ◌<◌, true, All, List};
ghost use Rattle.script_calls.specs.declared.call.Operation.TheVariants as operations;
ghost use Rattle.script_calls.specs.declared.call.Reply.{Reply};
ghost use Rattle.script_calls.specs.declared.call.Reply.TheVariants as replies;
ghost use Rattle.sync_types.specs.declared.atomic_object.AtomicCall.{AtomicCall};
ghost use Rattle.sync_types.specs.declared.map_object.MapCall.{MapCall};
ghost use Rattle.sync_types.specs.declared.lock_call.LockReply.TheVariants as locks;
ghost use Rattle.sync_types.specs.declared.lock_call.MutexCall.TheVariants as mutex_calls;
ghost use Rattle.sync_types.specs.declared.lock_call.RwMutexCall.TheVariants as rw_calls;
ghost use Rattle.sync_types.specs.declared.sema_call.SemaCall.TheVariants as sema_calls;
ghost use Rattle.sync_types.specs.declared.wait_call.WaitGroupCall.TheVariants as group_calls;
ghost use Rattle.workload.specs.Plan.{Plan};
ghost use Rattle.step_runner.specs.Traces.{trace_of};
ghost use Rattle.step_runner.specs.declared.turns.item.Deed.{Deed};
ghost use Rattle.step_runner.specs.declared.turns.item.Deed.TheVariants as deeds;
ghost use Rattle.step_runner.specs.declared.turns.item.Item.{Item};
ghost use Rattle.race_clocks.specs.Deeds.{enters_atomic, finds_atomic, finds_in_map};
ghost use Rattle.race_clocks.specs.Seen.{map_behind, enters_key};
ghost use Rattle.race_clocks.specs.HappensBefore.{done_before, Before};
ghost use Rattle.race_clocks.specs.Rows.{Makes, earlier_of, Completes, IsMutexUnlock, writer_unlock, reader_unlock, gave_back};

use script_calls::ComposedCall;
use step_runner::laws::a_trace_tells_what_turns_made;
use sync_types::once_call::DoReply;

/// An unlock of a mutex is before each later turn that completes a `lock` of it, or a `trylock` that is true.
pub fn an_unlock_is_before_each_later_completed_lock()
    ensures lock { (plan : Plan) (i j mutex w : ℕ) (d : Deed) (reply : Reply (List ℕ)) → i < j → Makes (trace_of plan) i mutex w d → IsMutexUnlock d
        → Completes (trace_of plan) j mutex (operations.Mutex mutex_calls.Lock) reply → Before plan (trace_of plan) i j }
    ensures try_lock { (plan : Plan) (i j mutex w : ℕ) (d : Deed) → i < j → Makes (trace_of plan) i mutex w d → IsMutexUnlock d
        → Completes (trace_of plan) j mutex (operations.Mutex mutex_calls.TryLock) (replies.Lock (locks.Tried true)) → Before plan (trace_of plan) i j }
{
    a_trace_tells_what_turns_made();
}

/// A writer's unlock of a reader/writer mutex is before each later turn that completes a `lock` or an `rlock` of it, or a try that is
/// true.
pub fn a_writers_unlock_is_before_each_later_completed_lock()
    ensures lock { (plan : Plan) (i j place w : ℕ) (d : Deed) (reply : Reply (List ℕ)) → i < j → Makes (trace_of plan) i place w d → d ≡ writer_unlock
        → Completes (trace_of plan) j place (operations.RwMutex rw_calls.Lock) reply → Before plan (trace_of plan) i j }
    ensures r_lock { (plan : Plan) (i j place w : ℕ) (d : Deed) (reply : Reply (List ℕ)) → i < j → Makes (trace_of plan) i place w d → d ≡ writer_unlock
        → Completes (trace_of plan) j place (operations.RwMutex rw_calls.RLock) reply → Before plan (trace_of plan) i j }
    ensures try_lock { (plan : Plan) (i j place w : ℕ) (d : Deed) → i < j → Makes (trace_of plan) i place w d → d ≡ writer_unlock
        → Completes (trace_of plan) j place (operations.RwMutex rw_calls.TryLock) (replies.Lock (locks.Tried true)) → Before plan (trace_of plan) i j }
    ensures try_r_lock { (plan : Plan) (i j place w : ℕ) (d : Deed) → i < j → Makes (trace_of plan) i place w d → d ≡ writer_unlock
        → Completes (trace_of plan) j place (operations.RwMutex rw_calls.TryRLock) (replies.Lock (locks.Tried true)) → Before plan (trace_of plan) i j }
{
    a_trace_tells_what_turns_made();
}

/// A reader's unlock is before each later turn that completes a `lock`, or a `trylock` that is true.
pub fn a_readers_unlock_is_before_each_later_completed_lock()
    ensures lock { (plan : Plan) (i j place w : ℕ) (d : Deed) (reply : Reply (List ℕ)) → i < j → Makes (trace_of plan) i place w d → d ≡ reader_unlock
        → Completes (trace_of plan) j place (operations.RwMutex rw_calls.Lock) reply → Before plan (trace_of plan) i j }
    ensures try_lock { (plan : Plan) (i j place w : ℕ) (d : Deed) → i < j → Makes (trace_of plan) i place w d → d ≡ reader_unlock
        → Completes (trace_of plan) j place (operations.RwMutex rw_calls.TryLock) (replies.Lock (locks.Tried true)) → Before plan (trace_of plan) i j }
{
    a_trace_tells_what_turns_made();
}

/// A release of a weighted semaphore is before each later turn that completes an `acquire` of it, or a `tryacquire` that is true.
pub fn a_release_is_before_each_later_completed_acquire()
    ensures acquire { (plan : Plan) (i j sema w given weight : ℕ) (d : Deed) (reply : Reply (List ℕ)) → i < j → Makes (trace_of plan) i sema w d → d ≡ gave_back given
        → Completes (trace_of plan) j sema (operations.Sema (sema_calls.Acquire weight)) reply → Before plan (trace_of plan) i j }
    ensures try_acquire { (plan : Plan) (i j sema w given weight : ℕ) (d : Deed) → i < j → Makes (trace_of plan) i sema w d → d ≡ gave_back given
        → Completes (trace_of plan) j sema (operations.Sema (sema_calls.TryAcquire weight)) (replies.Lock (locks.Tried true)) → Before plan (trace_of plan) i j }
{
    a_trace_tells_what_turns_made();
}

/// A completed `done`, and a completed `add` below 0, is before each later turn that completes a `wait` on the group.
pub fn a_completed_done_is_before_each_later_completed_wait()
    ensures done { (plan : Plan) (i j group : ℕ) (said reply : Reply (List ℕ)) → i < j → Completes (trace_of plan) i group (operations.WaitGroup group_calls.Done) said
        → Completes (trace_of plan) j group (operations.WaitGroup group_calls.Wait) reply → Before plan (trace_of plan) i j }
    ensures add { (plan : Plan) (i j group n : ℕ) (said reply : Reply (List ℕ)) → i < j → Completes (trace_of plan) i group (operations.WaitGroup (group_calls.Add (negsuc n))) said
        → Completes (trace_of plan) j group (operations.WaitGroup group_calls.Wait) reply → Before plan (trace_of plan) i j }
{
    a_trace_tells_what_turns_made();
}

/// A completed call that is an entry on an atomic is before each later completed call on it but a `store`, up to and with the next
/// entry.
pub fn a_completed_entry_is_before_each_later_completed_call()
    ensures { (plan : Plan) (i j atomic : ℕ) (call other : AtomicCall) (reply answer : Reply (List ℕ)) → i < j
        → Completes (trace_of plan) i atomic (operations.Atomic call) reply → Completes (trace_of plan) j atomic (operations.Atomic other) answer
        → enters_atomic (deeds.Placed (operations.Atomic call) reply) ≡ true → finds_atomic (deeds.Placed (operations.Atomic other) answer) ≡ true
        → ((k place u : ℕ) (f : Deed) → i < k → k < j → Makes (trace_of plan) k place u f → place ≡ atomic → enters_atomic f ≡ true → ⊥)
        → Before plan (trace_of plan) i j }
{
    a_trace_tells_what_turns_made();
}

/// The same of a key: a completed call that is an entry on it, by what the map contains then, is before each later completed call that
/// finds the key.
pub fn a_completed_entry_on_a_key_is_before_each_later_completed_call()
    ensures { (plan : Plan) (i j place : ℕ) (call other : MapCall (List ℕ)) (reply answer : Reply (List ℕ)) (key : List ℕ) → i < j
        → Completes (trace_of plan) i place (operations.Map call) reply → Completes (trace_of plan) j place (operations.Map other) answer
        → enters_key key (map_behind place (done_before (trace_of plan) i)) (deeds.Placed (operations.Map call) reply) ≡ true
        → finds_in_map key (deeds.Placed (operations.Map other) answer) ≡ true
        → ((k at u : ℕ) (f : Deed) → i < k → k < j → (m : Makes (trace_of plan) k at u f) → at ≡ place
        → enters_key key (map_behind place (earlier_of (trace_of plan) k at u f m)) f ≡ true → ⊥)
        → Before plan (trace_of plan) i j }
{
    a_trace_tells_what_turns_made();
}

/// A completed `go` is before the first item of the worker that it starts.
pub fn a_completed_go_is_before_the_first_item_of_its_worker()
    ensures { (plan : Plan) (i j group place started : ℕ) (reply : Reply (List ℕ)) (e : Deed) → i < j
        → Completes (trace_of plan) i group (operations.Composed (ComposedCall.Go started)) reply → (m : Makes (trace_of plan) j place started e)
        → All (λ (other : Item). other.caller ≢ started) (earlier_of (trace_of plan) j place started e m) → Before plan (trace_of plan) i j }
{
    a_trace_tells_what_turns_made();
}

/// A completed `do` that ran the once's function is before each later completed `do` of that once.
pub fn a_do_that_ran_is_before_each_later_do()
    ensures { (plan : Plan) (i j once : ℕ) (sum : ℤ) → i < j → Completes (trace_of plan) i once operations.Once (replies.Once (DoReply.Ran sum))
        → Completes (trace_of plan) j once operations.Once (replies.Once DoReply.Done) → Before plan (trace_of plan) i j }
{
    a_trace_tells_what_turns_made();
}
