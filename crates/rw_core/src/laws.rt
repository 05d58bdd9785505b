//! What holds of the machine, whatever its callers do. A log lists who did what, and what it was answered. It follows the
//! machine, from the unlocked lock on, where each of its answers is the machine's.
ghost use Rattle.std.specs.Prelude.{◌≡◌, ◌≢◌, ℕ, ◌+◌, ◌<◌, ◌≤◌, IsTrue, ◌∷◌, ◌++◌, length, filter, true, false, IsFalse};
ghost use Rattle.std.specs.List.{list_any};
ghost use Rattle.sync_model.specs.Log.{Entry, after, Follows};
ghost use Rattle.rw_core.specs.declared.event.RwEvent.{RwEvent};
ghost use Rattle.rw_core.specs.declared.reply.RwReply.{RwReply};
ghost use Rattle.rw_core.specs.declared.reply.Unlocking.{Unlocking};
ghost use Rattle.rw_core.specs.RwMachine.{State, next, start, is_announced, is_open, may_make, place_of, IsValid};
ghost use Rattle.rw_core.specs.Admission.{Admits};
ghost use Rattle.rw_core.specs.EventsLeft.{events_left, given_by, used_by};
ghost use Rattle.rw_core.specs.Moves.{MovesOther, MovesOwn};
ghost use Rattle.rw_core.specs.Standing.{is_answer, is_waiting};
ghost use Rattle.rw_core.specs.declared.place.Place.{Place};
ghost use Rattle.rw_core.specs.Edges.{Log, acquires, releases, is_acquired, read_acquires, read_releases, write_acquires, write_releases};
ghost use Rattle.rw_core.specs.declared.reply.Arrival.{Arrival};
ghost use Rattle.rw_core.specs.declared.reply.Resumption.{Resumption};
ghost use Rattle.sync_types.specs.declared.misuse.Misuse.{Misuse};

use crate::rw::RwCore;
use mutex_core::laws;
use sync_model::laws::logs::logs_go_on;

/// The unlocked lock is valid, and stays so with each event, and so after any events. The callers stay the same.
pub fn validity()
    ensures begins { (callers : ℕ) → IsValid (start callers) }
    ensures goes_on { (state : State) (caller : ℕ) (event : RwEvent)
        → IsValid state → IsValid (next state caller event).0 }
    ensures always { (callers : ℕ) (log : Log) → IsValid (after next (start callers) log) }
    ensures same_callers { (state : State) (caller : ℕ) (event : RwEvent)
        → (next state caller event).0.callers ≡ state.callers }
    ensures callers { (callers : ℕ) (log : Log) → (after next (start callers) log).callers ≡ callers }
{
    laws::validity();
}

/// Exclusion, by what callers are answered: after a writer has acquired the lock nobody acquires it before a writer's
/// unlock, and after a reader has acquired it no writer does before a reader's unlock. More exactly, from any moment on as
/// many unlocks of readers come before a writer acquires it as readers hold it at that moment. A writer that is granted the
/// lock and a reader that is admitted get it by another's unlock and by no answer of their own: of these speak
/// `announced_writer` and `admission`.
pub fn exclusion()
    ensures after_writer { (callers : ℕ) (earlier between later : Log) (first second : Entry RwEvent RwReply)
        → Follows next (start callers) (earlier ++ first ∷ (between ++ second ∷ later))
        → IsTrue (write_acquires first) → IsTrue (is_acquired second.reply)
        → IsTrue (list_any write_releases between) }
    ensures after_reader { (callers : ℕ) (earlier between later : Log) (first second : Entry RwEvent RwReply)
        → Follows next (start callers) (earlier ++ first ∷ (between ++ second ∷ later))
        → IsTrue (read_acquires first) → IsTrue (write_acquires second)
        → IsTrue (list_any read_releases between) }
    ensures beside_readers { (callers : ℕ) (earlier between later : Log) (second : Entry RwEvent RwReply)
        → Follows next (start callers) (earlier ++ (between ++ second ∷ later))
        → IsTrue (write_acquires second)
        → (after next (start callers) earlier).readers ≤ length (filter read_releases between) }
{
    laws::validity();
    logs_go_on::<RwCore>();
}

/// A writer that arrives at an open lock acquires it at once, and is never queued. Its moment decides nothing: at any other
/// moment the machine answers the same, and comes to the same state. So it is too of each arrival by which a writer acquires the
/// lock.
pub fn newcomers()
    ensures unqueued { (state : State) (caller now : ℕ)
        → IsValid state → is_open state ≡ true
        → (next state caller (RwEvent.WriteArrive now)).1 ≢ RwReply.Arrived Arrival.Queued }
    ensures any_moment { (state : State) (caller now other : ℕ)
        → is_open state ≡ true → next state caller (RwEvent.WriteArrive now) ≡ next state caller (RwEvent.WriteArrive other) }
    ensures acquired { (state : State) (caller now other : ℕ)
        → (next state caller (RwEvent.WriteArrive now)).1 ≡ RwReply.Arrived Arrival.Acquired
        → next state caller (RwEvent.WriteArrive other) ≡ next state caller (RwEvent.WriteArrive now) }
{
    laws::newcomers();
}

/// A writer that waits for readers, or holds the lock, is passed by nobody: while it is announced no caller is answered that
/// it has acquired the lock, and only a writer's unlock ends that.
pub fn announced_writer()
    ensures { (callers : ℕ) (earlier between later : Log) (second : Entry RwEvent RwReply)
        → Follows next (start callers) (earlier ++ (between ++ second ∷ later))
        → IsTrue (is_announced (after next (start callers) earlier).writer)
        → IsTrue (is_acquired second.reply)
        → IsTrue (list_any write_releases between) }
{
    laws::validity();
    logs_go_on::<RwCore>();
}

/// Each reader that waits when a writer unlocks is admitted by that unlock, and nobody else holds the
/// lock then.
pub fn admission()
    ensures { (state : State) (caller : ℕ)
        → (next state caller RwEvent.WriteUnlock).1 ≡ RwReply.Unlocked Unlocking.Done
        → Admits state (next state caller RwEvent.WriteUnlock).0 }
{}

/// Callers can't go on for ever without completing a call: what they can still do without that is `events_left`. One that
/// queues uses up two of it, and a writer that goes on and waits again uses up one. Only a call that is completed gives any
/// back: an unlock, and a writer's lock that had to wait, one at most, and a leave two.
pub fn events_are_used_up()
    ensures { (state : State) (caller : ℕ) (event : RwEvent) → IsValid state
        → events_left (next state caller event).0 + used_by (next state caller event).1
        ≤ events_left state + given_by (next state caller event).1 }
{
    laws::validity();
    laws::events_are_used_up();
}

/// An event that its caller may make gets an answer of its kind. A caller knows from its own answers whether it waits:
/// where they don't leave it waiting, it is `Out`, and where they do, it isn't, whatever the others did.
pub fn standing()
    ensures answered { (state : State) (caller : ℕ) (event : RwEvent)
        → IsTrue (may_make state caller event) → IsTrue (is_answer event (next state caller event).1) }
    ensures out { (callers : ℕ) (log : Log) (caller : ℕ)
        → Follows next (start callers) log → IsFalse (is_waiting false caller log)
        → place_of (after next (start callers) log) caller ≡ Place.Out }
    ensures waits { (callers : ℕ) (log : Log) (caller : ℕ)
        → Follows next (start callers) log → IsTrue (is_waiting false caller log)
        → place_of (after next (start callers) log) caller ≡ Place.Out → ⊥ }
{
    laws::validity();
}

/// An event moves callers from place to place as the tables say: the caller that makes it by its answer, and any other only where
/// it is an unlock, which tells a writer in the queue to go on, admits the readers that wait, or grants the lock to the announced
/// writer.
pub fn moves()
    ensures own { (state : State) (caller : ℕ) (event : RwEvent) → IsValid state
        → MovesOwn (next state caller event).1 (place_of state caller) (place_of (next state caller event).0 caller) }
    ensures others { (state : State) (caller by : ℕ) (event : RwEvent) → IsValid state → caller ≢ by
        → MovesOther event (place_of state caller) (place_of (next state by event).0 caller) }
{
    laws::moves();
}

/// An event is made exactly where its caller may make it: it is one of the lock's, and at the place that the event needs.
/// Any other is answered `Still` and changes nothing.
pub fn still()
    ensures made { (state : State) (caller : ℕ) (event : RwEvent)
        → IsTrue (may_make state caller event) → (next state caller event).1 ≢ RwReply.Still }
    ensures unmade { (state : State) (caller : ℕ) (event : RwEvent)
        → IsFalse (may_make state caller event) → next state caller event ≡ (state, RwReply.Still) }
{}

/// What completes a lock acquires: the arrival or the try that has it at once, the writer's going on after waiting, and the
/// leaving of a writer that was granted it or a reader that was admitted. An unlock that isn't a misuse releases. An answer by
/// which a caller waits, a try that fails, a misuse and `Still` do neither.
pub fn synchronizes()
    ensures left { (state : State) (caller : ℕ)
        → IsTrue (may_make state caller RwEvent.Leave) → IsTrue (acquires (next state caller RwEvent.Leave).1) }
    ensures acquired { IsTrue (acquires (RwReply.Arrived Arrival.Acquired)) × IsTrue (acquires (RwReply.Tried true)) × IsTrue (acquires (RwReply.Resumed Resumption.Acquired)) }
    ensures unlocked { IsTrue (releases (RwReply.Unlocked Unlocking.Done)) }
    ensures waiting { IsFalse (acquires (RwReply.Arrived Arrival.Queued)) × IsFalse (acquires (RwReply.Resumed Resumption.Queued)) × IsFalse (acquires (RwReply.Resumed Resumption.Requeued)) }
    ensures unmoved { IsFalse (acquires (RwReply.Tried false)) × IsFalse (acquires RwReply.Still) × IsFalse (releases RwReply.Still) }
    ensures misused { (misuse : Misuse) → IsFalse (acquires (RwReply.Unlocked (Unlocking.Misuse misuse))) × IsFalse (releases (RwReply.Unlocked (Unlocking.Misuse misuse))) }
{}
