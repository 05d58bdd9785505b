//! What holds of the machine, whatever its callers do. A log lists who did what, and what it was answered. It follows the
//! machine, from the unlocked mutex on, where each of its answers is the machine's.
ghost use Rattle.std.specs.Prelude.{◌≡◌, ◌≢◌, ◌↔◌, ℕ, ◌+◌, ◌*◌, ◌<◌, ◌≤◌, false, true, IsTrue, ◌∷◌, ◌++◌, IsFalse, length, nat_lt};
ghost use Rattle.std.specs.List.{list_any};
ghost use Rattle.sync_model.specs.Log.{Entry, after, Follows};
ghost use Rattle.mutex_core.specs.declared.event.MutexEvent.{MutexEvent};
ghost use Rattle.mutex_core.specs.declared.reply.MutexReply.{MutexReply};
ghost use Rattle.mutex_core.specs.MutexMachine.{is_open, next, start, IsValid, State, may_make, place_of, waiting_by};
ghost use Rattle.mutex_core.specs.Word.{bit, word_of, is_quiet, is_uncontended};
ghost use Rattle.mutex_core.specs.EventsLeft.{events_left, given_by, used_by};
ghost use Rattle.mutex_core.specs.Edges.{Log, acquires, releases};
ghost use Rattle.mutex_core.specs.Exclusion.{TakesTurns};
ghost use Rattle.mutex_core.specs.HandOff.{HandsOff};
ghost use Rattle.mutex_core.specs.Moves.{place_after, tells};
ghost use Rattle.mutex_core.specs.Modes.{StarvesAndLoses, IsTheLastToStarve};
ghost use Rattle.mutex_core.specs.Order.{QueuesOn};
ghost use Rattle.mutex_core.specs.declared.reply.Arrival.{Arrival};
ghost use Rattle.mutex_core.specs.Standing.{is_answer, is_waiting};
ghost use Rattle.mutex_core.specs.declared.place.Place.{Place};

use crate::mutex::MutexCore;
use sync_model::laws::logs::logs_go_on;

/// The unlocked mutex is valid, and stays so with each event, and so after any events. The callers stay the same.
pub fn validity()
    ensures begins { (callers : ℕ) → IsValid (start callers) }
    ensures goes_on { (state : State) (caller : ℕ) (event : MutexEvent)
        → IsValid state → IsValid (next state caller event).0 }
    ensures always { (callers : ℕ) (log : Log) → IsValid (after next (start callers) log) }
    ensures same_callers { (state : State) (caller : ℕ) (event : MutexEvent)
        → (next state caller event).0.callers ≡ state.callers }
    ensures callers { (callers : ℕ) (log : Log) → (after next (start callers) log).callers ≡ callers }
{}

/// Mutual exclusion: between two answers by which a caller has the mutex stands an unlock that isn't a misuse. More
/// exactly, such answers and such unlocks take turns: no caller acquires the mutex while somebody has it, and an unlock
/// while nobody has it is no more than a misuse.
pub fn mutual_exclusion()
    ensures unlocked_between { (callers : ℕ) (earlier between later : Log) (first second : Entry MutexEvent MutexReply)
        → Follows next (start callers) (earlier ++ first ∷ (between ++ second ∷ later))
        → IsTrue (acquires first.reply) → IsTrue (acquires second.reply)
        → IsTrue (list_any (λ entry. releases entry.reply) between) }
    ensures in_turn { (callers : ℕ) (log : Log)
        → Follows next (start callers) log → TakesTurns false log }
{}

/// A newcomer at an open mutex acquires it at once, and is never queued. Its moment decides nothing: at any other moment the
/// machine answers the same, and comes to the same state. So it is too of each arrival that acquires the mutex.
pub fn newcomers()
    ensures at_once { (state : State) (caller now : ℕ)
        → is_open state ≡ true → nat_lt caller state.callers ≡ true → place_of state caller ≡ Place.Out
        → (next state caller (MutexEvent.Arrive now)).1 ≡ MutexReply.Arrived Arrival.Acquired }
    ensures unqueued { (state : State) (caller now ticket : ℕ)
        → is_open state ≡ true → (next state caller (MutexEvent.Arrive now)).1 ≢ MutexReply.Arrived (Arrival.Queued ticket) }
    ensures any_moment { (state : State) (caller now other : ℕ)
        → is_open state ≡ true → next state caller (MutexEvent.Arrive now) ≡ next state caller (MutexEvent.Arrive other) }
    ensures acquired { (state : State) (caller now other : ℕ)
        → (next state caller (MutexEvent.Arrive now)).1 ≡ MutexReply.Arrived Arrival.Acquired
        → next state caller (MutexEvent.Arrive other) ≡ next state caller (MutexEvent.Arrive now) }
{}

/// In starvation mode an unlock of the locked mutex hands it to the waiter at the front of the queue: nobody acquires it,
/// however fast, until that waiter goes on, and then it is the waiter's.
pub fn hand_off()
    ensures { (callers : ℕ) (earlier later : Log) (unlock : Entry MutexEvent MutexReply)
        → Follows next (start callers) (earlier ++ unlock ∷ later)
        → unlock.event ≡ MutexEvent.Unlock → unlock.caller < callers
        → IsTrue (after next (start callers) earlier).locked
        → IsTrue (after next (start callers) earlier).starving
        → HandsOff (after next (start callers) earlier).queue unlock.reply later }
{
    logs_go_on::<MutexCore>();
}

/// Callers can't go on for ever without completing a call: what they can still do without that is `events_left`. One that
/// queues uses up two of it, and one that goes back to the queue uses up one. Only an unlock that tells a waiter, and a lock
/// that had to wait, give any back, one each.
pub fn events_are_used_up()
    ensures { (state : State) (caller : ℕ) (event : MutexEvent) → IsValid state
        → events_left (next state caller event).0 + used_by (next state caller event).1
        ≤ events_left state + given_by (next state caller event).1 }
{}

/// An event that its caller may make gets an answer of its kind. A caller knows from its own answers whether it waits:
/// where they don't leave it waiting, it is `Out`, and where they do, it isn't, whatever the others did.
pub fn standing()
    ensures answered { (state : State) (caller : ℕ) (event : MutexEvent)
        → IsTrue (may_make state caller event) → IsTrue (is_answer event (next state caller event).1) }
    ensures out { (callers : ℕ) (log : Log) (caller : ℕ)
        → Follows next (start callers) log → IsFalse (is_waiting false caller log)
        → place_of (after next (start callers) log) caller ≡ Place.Out }
    ensures waits { (callers : ℕ) (log : Log) (caller : ℕ)
        → Follows next (start callers) log → IsTrue (is_waiting false caller log)
        → place_of (after next (start callers) log) caller ≡ Place.Out → ⊥ }
{}

/// An event moves callers from place to place as its answer says, and nobody else: one that queues, or goes back to the
/// queue, waits; one that goes on and acquires is out; and only an unlock moves another caller, the one that it tells to go
/// on, which waited in the queue.
pub fn moves()
    ensures moved { (state : State) (caller by : ℕ) (event : MutexEvent) → IsValid state
        → place_of (next state by event).0 caller ≡ place_after caller by (place_of state caller) (next state by event).1 }
    ensures told { (state : State) (caller by : ℕ) (event : MutexEvent) → IsValid state
        → IsTrue (tells caller (next state by event).1) → (event ≡ MutexEvent.Unlock) × (place_of state caller ≡ Place.Waiting) }
    ensures unmoved { (state : State) (caller by : ℕ) (event : MutexEvent) → IsValid state → caller ≢ by
        → IsFalse (tells caller (next state by event).1) → place_of (next state by event).0 caller ≡ place_of state caller }
{}

/// An event is made exactly where its caller may make it: it is one of the mutex's, and at the place that the event needs.
/// Any other is answered `Still` and changes nothing.
pub fn still()
    ensures made { (state : State) (caller : ℕ) (event : MutexEvent)
        → IsTrue (may_make state caller event) → (next state caller event).1 ≢ MutexReply.Still }
    ensures unmade { (state : State) (caller : ℕ) (event : MutexEvent)
        → IsFalse (may_make state caller event) → next state caller event ≡ (state, MutexReply.Still) }
{}

/// The queue is first in, first out, in both modes: who joins it joins at its tail, and who is told to go on is its front. A
/// woken waiter that loses against a newcomer joins again at the front, with the arrival that it came with, so that
/// it starves on the sum of its waiting.
pub fn first_in_first_out()
    ensures { (state : State) (caller : ℕ) (event : MutexEvent)
        → QueuesOn state caller event (next state caller event).1 (next state caller event).0 }
{}

/// A try acquires the mutex exactly where an arrival would, and leaves it as the arrival would.
pub fn tries_as_it_would_arrive()
    ensures acquires { (state : State) (caller now : ℕ)
        → (next state caller MutexEvent.Try).1 ≡ MutexReply.Tried true ↔ (next state caller (MutexEvent.Arrive now)).1 ≡ MutexReply.Arrived Arrival.Acquired }
    ensures leaves { (state : State) (caller now : ℕ)
        → (next state caller MutexEvent.Try).1 ≡ MutexReply.Tried true
        → (next state caller MutexEvent.Try).0 ≡ (next state caller (MutexEvent.Arrive now)).0 }
{}

/// Starvation mode begins exactly where a woken waiter that starves loses against a newcomer. It ends exactly where a waiter
/// that was handed the mutex goes on and either doesn't starve itself or has nobody behind it.
pub fn changes_of_mode()
    ensures begins { (state : State) (caller : ℕ) (event : MutexEvent)
        → IsFalse state.starving → IsTrue (next state caller event).0.starving → StarvesAndLoses state event (next state caller event).1 }
    ensures begun { (state : State) (caller : ℕ) (event : MutexEvent)
        → StarvesAndLoses state event (next state caller event).1 → IsTrue (next state caller event).0.starving }
    ensures ends { (state : State) (caller : ℕ) (event : MutexEvent)
        → IsTrue state.starving → IsFalse (next state caller event).0.starving → IsTheLastToStarve state event (next state caller event).1 }
    ensures ended { (state : State) (caller : ℕ) (event : MutexEvent)
        → IsTheLastToStarve state event (next state caller event).1 → IsFalse (next state caller event).0.starving }
{}

/// What the packed word tells. It is 0 or 1 exactly where nobody waits and nobody is in flight, and then it is 1 exactly
/// where the mutex is locked. It counts each waiter in the queue, one that was handed the mutex too, and none that is woken.
pub fn the_word()
    ensures quiet { (state : State) → IsValid state → word_of state ≤ 1 ↔ IsTrue (is_quiet state) }
    ensures locked { (state : State) → IsValid state → IsTrue (is_quiet state) → word_of state ≡ bit state.locked }
    ensures waiters { (state : State) → IsValid state
        → word_of state + 8 * bit state.woken ≡ bit state.locked + 2 * bit state.woken + 4 * bit state.starving + 8 * length (waiting_by state.flight state.queue) }
{}

/// An uncontended event, which finds an empty queue and nobody in flight and doesn't queue its caller, changes at most
/// whether the mutex is locked. So the packed word alone decides it.
pub fn uncontended_events()
    ensures leaves { (state : State) (caller : ℕ) (event : MutexEvent) → IsValid state → IsTrue (is_uncontended state caller event)
        → (next state caller event).0 ≡ record state { locked = (next state caller event).0.locked } }
    ensures word { (state : State) (caller : ℕ) (event : MutexEvent) → IsValid state → IsTrue (is_uncontended state caller event)
        → word_of (next state caller event).0 ≡ bit (next state caller event).0.locked }
{}
