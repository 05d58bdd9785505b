//! What mutexes and reader/writer mutexes order.
ghost use Rattle.std.specs.Prelude.{◌≡◌, ◌≢◌, ℕ, ◌<◌, List, [], ◌∷◌, Some, slice_get};
ghost use Rattle.workload.specs.Plan.{Plan};
ghost use Rattle.step_runner.specs.declared.trace.TraceItem.{TraceItem};
ghost use Rattle.step_runner.specs.declared.turns.item.Deed.{Deed};
ghost use Rattle.race_clocks.specs.HappensBefore.{Edge, Before};
ghost use Rattle.race_clocks.specs.Rows.{Makes, IsMutexUnlock, IsMutexLock, writer_unlock, reader_unlock, IsRwLock, IsWritersCall, IsReadersCall, EachDoes, IsReaders, IsOwn};
ghost use Rattle.race_clocks.specs.Races.{Conflicts, IsRace};

/// An unlock of a mutex, that of a cond's `wait` too, is before each later acquisition of it: an arrival or a going on that acquires, a
/// try that is true.
pub fn an_unlock_is_before_each_later_lock()
    ensures { (plan : Plan) (trace : List TraceItem) (i j mutex w v : ℕ) (d e : Deed) → i < j
        → Makes trace i mutex w d → Makes trace j mutex v e → IsMutexUnlock d → IsMutexLock e → Before plan trace i j }
{}

/// A writer's unlock of a reader/writer mutex is before each later `lock` and `rlock` of it that is completed, and each later try of
/// it that is true.
pub fn a_writers_unlock_is_before_each_later_lock_and_rlock()
    ensures { (plan : Plan) (trace : List TraceItem) (i j lock w v : ℕ) (d e : Deed) → i < j
        → Makes trace i lock w d → Makes trace j lock v e → d ≡ writer_unlock → IsRwLock e → Before plan trace i j }
{}

/// A reader's unlock is before each later `lock` that is completed, and each later `trylock` that is true.
pub fn a_readers_unlock_is_before_each_later_lock()
    ensures { (plan : Plan) (trace : List TraceItem) (i j lock w v : ℕ) (d e : Deed) → i < j
        → Makes trace i lock w d → (m : Makes trace j lock v e) → d ≡ reader_unlock → IsRwLock e → IsWritersCall m.turn.call → Before plan trace i j }
{}

/// Of itself it is before no later `rlock` or `tryrlock`: no edge leads from a turn that makes nothing else to such a call of
/// another worker's. So in a trace of these two turns the one isn't before the other.
pub fn a_readers_unlock_is_not_before_a_later_rlock()
    ensures edge { (plan : Plan) (trace : List TraceItem) (i j : ℕ) (x y : TraceItem) → slice_get trace i ≡ Some x → slice_get trace j ≡ Some y
        → x.worker ≢ y.worker → EachDoes (λ d. d ≡ reader_unlock) x → IsReadersCall y.call → Edge plan trace i j → ⊥ }
    ensures two { (plan : Plan) (x y : TraceItem) → x.worker ≢ y.worker → EachDoes (λ d. d ≡ reader_unlock) x → IsReadersCall y.call
        → Before plan (x ∷ y ∷ []) 0 1 → ⊥ }
{}

/// Readers order nothing among themselves. In a trace of turns that only `rlock`, `runlock`, read and write, and what else hands on
/// nothing, a turn is before another one only where both are of one worker. So two accesses of two workers that conflict race there,
/// though both hold the mutex as readers.
pub fn readers_are_not_ordered()
    ensures own { (plan : Plan) (trace : List TraceItem) → ((n : ℕ) (one : TraceItem) → slice_get trace n ≡ Some one → IsReaders one)
        → (i j : ℕ) → Before plan trace i j → IsOwn trace i j }
    ensures race { (plan : Plan) (trace : List TraceItem) → ((n : ℕ) (one : TraceItem) → slice_get trace n ≡ Some one → IsReaders one)
        → (i j : ℕ) (x y : TraceItem) → slice_get trace i ≡ Some x → slice_get trace j ≡ Some y → i < j → Conflicts x y → IsRace plan trace i j }
{}
