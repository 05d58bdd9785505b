//! When a wait of a wait group returns, and what a misuse leaves.
ghost use Rattle.std.specs.Prelude.{◌≡◌, ◌≢◌, ◌↔◌, ℕ, pos, ◌+◌, ◌-◌, ◌^◌, ◌<◌, ◌≤◌, false, IsTrue, ◌∷◌, ◌++◌, slice_set, IsFalse};
ghost use Rattle.std.specs.List.{list_any};
ghost use Rattle.sync_model.specs.Log.{Follows};
ghost use Rattle.wait_cores.specs.GroupEdges.{group_releases, group_acquires};
ghost use Rattle.wait_cores.specs.GroupEventsLeft.{group_left, group_used, group_given};
ghost use Rattle.wait_cores.specs.GroupMachine.{GroupState, start, next, callers_of, place_of, is_waiting};
ghost use Rattle.wait_cores.specs.GroupStanding.{answers, may_make, waits_at, waits_after};
ghost use Rattle.wait_cores.specs.GroupLaws.{Log, WasZero, state_after, wait_by, leave_by, additions};

use crate::group::{GroupCore, GroupEvent, GroupPlace, GroupReply};
use sync_model::laws::logs::logs_go_on;
use sync_types::Misuse;

/// A wait returns only after the counter was 0, whatever callers do and whatever the state was: one that returns at once finds
/// it at 0, and for one that queued it was 0 at a moment between that and the return, also where the return is a misuse.
pub fn waits_for_zero()
    ensures at_once { (state : GroupState) (caller : ℕ) (rest : Log)
        → Follows next state (wait_by caller GroupReply.Done ∷ rest) → state.counter ≡ 0 }
    ensures queued { (state : GroupState) (caller : ℕ) (between rest : Log) (reply : GroupReply)
        → reply ≢ GroupReply.Still
        → Follows next state (wait_by caller GroupReply.Queued ∷ (between ++ leave_by caller reply ∷ rest))
        → WasZero (next state caller GroupEvent.Wait).0 between }
{
    logs_go_on::<GroupCore>();
}

/// Nobody is left behind: after any events from the start on, nobody waits where the counter is 0.
pub fn nobody_waits_at_zero()
    ensures { (callers : ℕ) (log : Log) → (state_after callers log).counter ≡ 0
        → IsFalse (list_any is_waiting (state_after callers log).places) }
{}

/// The counter is the sum of all additions that were made, and stays in its range, 0 to 2^31 - 1.
pub fn counts_additions()
    ensures sum { (callers : ℕ) (log : Log) → Follows next (start callers) log
        → pos (state_after callers log).counter ≡ additions log }
    ensures range { (callers : ℕ) (log : Log) → (state_after callers log).counter ≤ 2 ^ 31 - 1 }
{}

/// A misuse changes nothing, except that a caller whose leaving is answered by one is out.
pub fn misuses_change_nothing()
    ensures counter { (state : GroupState) (caller : ℕ) (event : GroupEvent)
        → (next state caller event).1 ≡ GroupReply.Misused Misuse.NegativeWaitGroupCounter
        → (next state caller event).0 ≡ state }
    ensures reuse { (state : GroupState) (caller : ℕ) (event : GroupEvent)
        → (next state caller event).1 ≡ GroupReply.Misused Misuse.WaitGroupReused
        → (next state caller event).0 ≡ record state { places = slice_set state.places caller GroupPlace.Out } }
{}

/// A caller that was released finds the group in use again, which is a misuse, exactly where the counter isn't 0 when it
/// leaves. Where it is 0 its wait returns.
pub fn a_leaving_finds_the_group_reused()
    ensures reused { (callers caller : ℕ) (log : Log)
        → caller < callers_of (state_after callers log) → place_of (state_after callers log) caller ≡ GroupPlace.Released
        → (next (state_after callers log) caller GroupEvent.Leave).1 ≡ GroupReply.Misused Misuse.WaitGroupReused ↔ (state_after callers log).counter ≢ 0 }
    ensures returned { (callers caller : ℕ) (log : Log)
        → caller < callers_of (state_after callers log) → place_of (state_after callers log) caller ≡ GroupPlace.Released
        → (next (state_after callers log) caller GroupEvent.Leave).1 ≡ GroupReply.Done ↔ (state_after callers log).counter ≡ 0 }
{}

/// A caller knows from its own answers whether it is in a wait, released or not: nobody else's event lets it in or out. So it
/// knows what its events may be answered. The callers stay the same.
pub fn knows_where_it_stands()
    ensures own { (state : GroupState) (caller : ℕ) (event : GroupEvent)
        → waits_at (next state caller event).0 caller ≡ waits_after (waits_at state caller) event (next state caller event).1 }
    ensures others { (state : GroupState) (caller other : ℕ) (event : GroupEvent)
        → caller ≢ other → waits_at (next state other event).0 caller ≡ waits_at state caller }
    ensures answers { (state : GroupState) (caller : ℕ) (event : GroupEvent)
        → caller < callers_of state → IsTrue (answers (waits_at state caller) event (next state caller event).1) }
    ensures callers { (state : GroupState) (caller : ℕ) (event : GroupEvent)
        → callers_of (next state caller event).0 ≡ callers_of state }
    ensures first { (callers caller : ℕ) → waits_at (start callers) caller ≡ false }
{}

/// What unblocks a wait synchronizes before its return: between a wait that queued and its leaving stands an event that releases. A
/// return acquires, at once or with the leaving. An event that is answered `Still` or by a misuse does neither.
pub fn synchronizes()
    ensures unblocked { (state : GroupState) (caller : ℕ) (between rest : Log) (reply : GroupReply)
        → reply ≢ GroupReply.Still
        → Follows next state (wait_by caller GroupReply.Queued ∷ (between ++ leave_by caller reply ∷ rest))
        → IsTrue (list_any (λ e. group_releases e.event e.reply) between) }
    ensures returned { IsTrue (group_acquires GroupEvent.Wait GroupReply.Done) × IsTrue (group_acquires GroupEvent.Leave GroupReply.Done) }
    ensures unmoved { (event : GroupEvent)
        → IsFalse (group_releases event GroupReply.Still) × IsFalse (group_acquires event GroupReply.Still) }
    ensures misused { (event : GroupEvent) (misuse : Misuse)
        → IsFalse (group_releases event (GroupReply.Misused misuse)) × IsFalse (group_acquires event (GroupReply.Misused misuse)) }
{
    logs_go_on::<GroupCore>();
}

/// Callers can't go on for ever without a call returning: what they can still do without that is `group_left`. One that comes to
/// wait uses up one of it, and only one that leaves gives any back.
pub fn events_are_used_up()
    ensures { (state : GroupState) (caller : ℕ) (event : GroupEvent)
        → group_left (next state caller event).0 + group_used (next state caller event).1
        ≤ group_left state + group_given event (next state caller event).1 }
{}

/// An event is made exactly where its caller may make it: it is one of the group's, is out for a wait, and is released for a
/// leaving. Any other is answered `Still` and changes nothing.
pub fn still()
    ensures made { (state : GroupState) (caller : ℕ) (event : GroupEvent)
        → IsTrue (may_make state caller event) → (next state caller event).1 ≢ GroupReply.Still }
    ensures unmade { (state : GroupState) (caller : ℕ) (event : GroupEvent)
        → IsFalse (may_make state caller event) → next state caller event ≡ (state, GroupReply.Still) }
{}
