//! What conds, wait groups, onces, semaphores, flights and `go` order.
ghost use Rattle.std.specs.Prelude.{◌≡◌, ◌≢◌, ℕ, ℤ, Bool, negsuc, ◌<◌, ◌≤◌, true, false, All, List, [], ◌∷◌, ◌++◌, Some, slice_get};
ghost use Rattle.wait_cores.specs.NotifyMachine as notify;
ghost use Rattle.workload.specs.Plan.{Plan};
ghost use Rattle.step_runner.specs.declared.trace.TraceItem.{TraceItem};
ghost use Rattle.step_runner.specs.declared.turns.item.Deed.{Deed};
ghost use Rattle.step_runner.specs.declared.turns.item.Item.{Item};
ghost use Rattle.race_clocks.specs.HappensBefore.{Before};
ghost use Rattle.race_clocks.specs.Seen.{cond_behind, notifies};
ghost use Rattle.race_clocks.specs.Rows.{item, Makes, earlier_of, signal, broadcast, leaving, added, IsGroupReturn, IsOnceEnd, IsOnceReturn, gave_back, IsWeightHad, landed, IsFlightKnown, start_of};

use wait_cores::NotifyPlace;

/// An item that notifies the ticket with which a worker waits at a cond, a signal or a broadcast, is before the worker's later
/// leaving: the worker waits there before the item, and is notified behind it.
pub fn a_notice_is_before_the_leaving()
    ensures { (plan : Plan) (trace : List TraceItem) (i j place w v : ℕ) (d e : Deed) → i < j → (m : Makes trace i place w d) → Makes trace j place v e
        → notify.place_of (cond_behind plan place (earlier_of trace i place w d m)) v ≡ NotifyPlace.Waiting
        → notify.place_of (cond_behind plan place (earlier_of trace i place w d m ++ item place w d ∷ [])) v ≡ NotifyPlace.Notified
        → e ≡ leaving → Before plan trace i j }
{}

/// A signal notifies the first ticket that isn't notified yet, and of two workers that wait never the one with the later ticket. So it
/// is for whoever has waited longest.
pub fn a_signal_is_for_whoever_waits_longest()
    ensures first { (plan : Plan) (place caller w a : ℕ) (earlier : List Item) → caller < notify.callers_of (cond_behind plan place earlier)
        → slice_get (cond_behind plan place earlier).tickets w ≡ Some (Some a) → a ≡ (cond_behind plan place earlier).notified
        → a < (cond_behind plan place earlier).next_ticket → notifies plan place w earlier (item place caller signal) ≡ true }
    ensures later { (plan : Plan) (place caller w v a b : ℕ) (earlier : List Item) → slice_get (cond_behind plan place earlier).tickets w ≡ Some (Some a)
        → slice_get (cond_behind plan place earlier).tickets v ≡ Some (Some b) → a < b
        → notify.place_of (cond_behind plan place earlier) w ≡ NotifyPlace.Waiting → notifies plan place v earlier (item place caller signal) ≡ false }
{}

/// A broadcast notifies each ticket that was taken and isn't notified yet.
pub fn a_broadcast_is_for_all_who_wait()
    ensures { (plan : Plan) (place caller w a : ℕ) (earlier : List Item) → caller < notify.callers_of (cond_behind plan place earlier)
        → slice_get (cond_behind plan place earlier).tickets w ≡ Some (Some a) → (cond_behind plan place earlier).notified ≤ a
        → a < (cond_behind plan place earlier).next_ticket → notifies plan place w earlier (item place caller broadcast) ≡ true }
{}

/// An `add` below 0 to a wait group, a `done` among them, is before each later return of a `wait` on it.
pub fn a_done_is_before_each_later_return()
    ensures { (plan : Plan) (trace : List TraceItem) (i j group w v n : ℕ) (d e : Deed) → i < j
        → Makes trace i group w d → Makes trace j group v e → d ≡ added (negsuc n) → IsGroupReturn e → Before plan trace i j }
{}

/// The end of a once's function is before each later return of a call on that once, and so of a `OnceFunc` and a `OnceValue`.
pub fn the_end_of_a_function_is_before_each_later_return()
    ensures { (plan : Plan) (trace : List TraceItem) (i j once w v : ℕ) (d e : Deed) → i < j
        → Makes trace i once w d → Makes trace j once v e → IsOnceEnd d → IsOnceReturn e → Before plan trace i j }
{}

/// A release of a weighted semaphore is before each later event with which a caller has its weight: an `acquire` or a `tryacquire` that is
/// done, or the leaving of one that waited.
pub fn a_release_is_before_each_later_weight()
    ensures { (plan : Plan) (trace : List TraceItem) (i j sema w v weight : ℕ) (d e : Deed) → i < j
        → Makes trace i sema w d → Makes trace j sema v e → d ≡ gave_back weight → IsWeightHad e → Before plan trace i j }
{}

/// A landing is before each later beginning of a flight of its group, and before each later leaving with what a flight came to.
pub fn a_landing_is_before_each_later_flight_and_return()
    ensures { (plan : Plan) (trace : List TraceItem) (i j group w v : ℕ) (value : ℤ) (shared : Bool) (d e : Deed) → i < j
        → Makes trace i group w d → Makes trace j group v e → d ≡ landed value shared → IsFlightKnown e → Before plan trace i j }
{}

/// A `go` is before the first item of the worker that it starts.
pub fn a_go_is_before_the_first_item_of_its_worker()
    ensures { (plan : Plan) (trace : List TraceItem) (i j starts place w v : ℕ) (d e : Deed) → i < j
        → Makes trace i starts w d → (m : Makes trace j place v e) → d ≡ start_of v
        → All (λ (other : Item). other.caller ≢ v) (earlier_of trace j place v e m) → Before plan trace i j }
{}
