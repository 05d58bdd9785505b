//! When a ticket of a cond is notified.
ghost use Rattle.std.specs.Prelude.{◌≡◌, ◌≢◌, ℕ, ◌<◌, ◌≤◌, ◌+◌, ◌-◌, ◌^◌, ◌==◌, min, false, not, ◌∷◌, ◌++◌, count_by, IsTrue, IsFalse};
ghost use Rattle.std.specs.List.{list_all, list_any};
ghost use Rattle.wait_cores.specs.NotifyEdges.{notify_releases, notify_acquires};
ghost use Rattle.wait_cores.specs.NotifyMachine.{NotifyState, start, next, callers_of, place_of};
ghost use Rattle.wait_cores.specs.NotifyStanding.{has_ticket, has_after, may_make};
ghost use Rattle.wait_cores.specs.NotifyEventsLeft.{notify_left, notify_used, notify_given};
ghost use Rattle.wait_cores.specs.NotifyLaws.{Log, IsLog, state_after, ticket_by, leave_by, is_ticket, pending_of, answers, NotifiesAfter};

use crate::notify::{NotifyCore, NotifyEvent, NotifyPlace, NotifyReply};
use sync_model::laws::logs::logs_go_on;

/// A caller leaves only after its ticket was notified. Between the ticket and the leaving stands a broadcast, or more signals
/// than there were tickets pending before it, taken and not notified. So signals notify in the order of the tickets, and a
/// signal that found no ticket pending counts for none that comes later.
pub fn leaves_when_notified()
    ensures { (callers : ℕ) (before between rest : Log) (caller : ℕ)
        → IsLog callers (before ++ ticket_by caller ∷ (between ++ leave_by caller ∷ rest))
        → NotifiesAfter (pending_of (state_after callers before)) between }
{
    logs_go_on::<NotifyCore>();
}

/// So many signals, or a broadcast, do notify the ticket of a caller that does nothing meanwhile: no signal is lost on the way,
/// unless 2^64 - 1 tickets were taken before.
pub fn notifies_in_order()
    ensures { (callers : ℕ) (before between : Log) (caller : ℕ)
        → IsLog callers (before ++ ticket_by caller ∷ between)
        → count_by is_ticket before < 2 ^ 64 - 1
        → IsTrue (list_all (λ e. not (e.caller == caller)) between)
        → NotifiesAfter (pending_of (state_after callers before)) between
        → place_of (state_after callers (before ++ ticket_by caller ∷ between)) caller ≡ NotifyPlace.Notified }
{
    logs_go_on::<NotifyCore>();
}

/// The next ticket's number is the number of tickets taken, up to 2^64 - 1, and no ticket is notified before it is taken.
pub fn counts_tickets()
    ensures taken { (callers : ℕ) (log : Log) → IsLog callers log
        → (state_after callers log).next_ticket ≡ min (count_by is_ticket log) (2 ^ 64 - 1) }
    ensures notified { (callers : ℕ) (log : Log) → IsLog callers log
        → (state_after callers log).notified ≤ (state_after callers log).next_ticket }
{}

/// Each ticket, signal and broadcast of a caller of the cond is made; when a leaving is, `still` says. The callers stay the same.
pub fn answers_its_callers()
    ensures answers { (state : NotifyState) (caller : ℕ) (event : NotifyEvent)
        → caller < callers_of state → IsTrue (answers event (next state caller event).1) }
    ensures callers { (state : NotifyState) (caller : ℕ) (event : NotifyEvent)
        → callers_of (next state caller event).0 ≡ callers_of state }
{}

/// A caller knows from its own answers whether it has a ticket: from when it takes one until it leaves. Nobody else's event gives
/// it one or takes it away, and a caller that has none can't leave. So a caller leaves at most once after each ticket.
pub fn knows_where_it_stands()
    ensures own { (state : NotifyState) (caller : ℕ) (event : NotifyEvent)
        → has_ticket (next state caller event).0 caller ≡ has_after (has_ticket state caller) event (next state caller event).1 }
    ensures others { (state : NotifyState) (caller other : ℕ) (event : NotifyEvent)
        → caller ≢ other → has_ticket (next state other event).0 caller ≡ has_ticket state caller }
    ensures leaving { (state : NotifyState) (caller : ℕ)
        → has_ticket state caller ≡ false → (next state caller NotifyEvent.Leave).1 ≡ NotifyReply.Still }
    ensures first { (callers caller : ℕ) → has_ticket (start callers) caller ≡ false }
{}

/// What unblocks a wait synchronizes before its return: between a caller's ticket and its leaving, which acquires, stands an event
/// that releases. An event that is answered `Still` does neither.
pub fn synchronizes()
    ensures unblocked { (callers : ℕ) (before between rest : Log) (caller : ℕ)
        → IsLog callers (before ++ ticket_by caller ∷ (between ++ leave_by caller ∷ rest))
        → IsTrue (list_any (λ e. notify_releases e.event e.reply) between) }
    ensures returned { IsTrue (notify_acquires NotifyEvent.Leave NotifyReply.Done) }
    ensures unmoved { (event : NotifyEvent)
        → IsFalse (notify_releases event NotifyReply.Still) × IsFalse (notify_acquires event NotifyReply.Still) }
{
    logs_go_on::<NotifyCore>();
}

/// Callers can't go on for ever without a call returning: what they can still do without that is `notify_left`. One that takes a
/// ticket where it has none uses up one of it, and only one that leaves gives any back.
pub fn events_are_used_up()
    ensures { (state : NotifyState) (caller : ℕ) (event : NotifyEvent) → caller < callers_of state
        → notify_left (next state caller event).0 + notify_used (place_of state caller) event
        ≤ notify_left state + notify_given event }
{}

/// An event is made exactly where its caller may make it: it is one of the cond's, and is notified for a leaving. Any other is
/// answered `Still` and changes nothing.
pub fn still()
    ensures made { (state : NotifyState) (caller : ℕ) (event : NotifyEvent)
        → IsTrue (may_make state caller event) → (next state caller event).1 ≢ NotifyReply.Still }
    ensures unmade { (state : NotifyState) (caller : ℕ) (event : NotifyEvent)
        → IsFalse (may_make state caller event) → next state caller event ≡ (state, NotifyReply.Still) }
{}
