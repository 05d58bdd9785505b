//! How often the function of a once runs, and what its callers return with.
ghost use Rattle.std.specs.Prelude.{◌≡◌, ◌≢◌, ℕ, ◌+◌, ◌<◌, ◌≤◌, false, IsTrue, IsFalse, ◌∷◌, ◌++◌, count_by};
ghost use Rattle.wait_cores.specs.declared.once.OnceEvent.{OnceEvent};
ghost use Rattle.wait_cores.specs.declared.once.OnceReply.TheVariants as reply;
ghost use Rattle.std.specs.List.{list_any};
ghost use Rattle.wait_cores.specs.OnceEdges.{once_releases, once_acquires};
ghost use Rattle.wait_cores.specs.OnceEventsLeft.{once_left, once_used, once_given};
ghost use Rattle.wait_cores.specs.OnceMachine.{OnceState, start, next, callers_of};
ghost use Rattle.wait_cores.specs.OnceStanding.{answers, may_make, waits_at, runs_at, waits_after, runs_after};
ghost use Rattle.wait_cores.specs.OnceLaws.{OnceEntry, Log, IsLog, begins, ends, returned_in, kept_by};

use crate::once::OnceCore;
use sync_model::laws::logs::logs_go_on;

/// The function is begun at most once, and ends no more often than it was begun.
pub fn runs_once<T: Copy>()
    ensures begun { (callers : ℕ) (log : Log T) → IsLog callers log → count_by begins log ≤ 1 }
    ensures ended { (callers : ℕ) (log : Log T) → IsLog callers log → count_by ends log ≤ count_by begins log }
{}

/// Whoever returns, at once or released, does so after the function's end, with the value that it came to.
pub fn returns_what_is_kept<T: Copy>()
    ensures { (callers : ℕ) (before rest : Log T) (e : OnceEntry T) (value : T)
        → IsLog callers (before ++ e ∷ rest) → returned_in e.reply ≡ Some value → kept_by before ≡ Some value }
{
    logs_go_on::<OnceCore<T>>();
}

/// A caller knows from its own answers whether it is in a wait, released or not, and whether it runs the function: nobody else's
/// event lets it in or out, or ends its run. So it knows what its events may be answered. The callers stay the same.
pub fn knows_where_it_stands<T: Copy>()
    ensures own_wait { (state : OnceState T) (caller : ℕ) (event : OnceEvent T)
        → waits_at (next state caller event).0 caller ≡ waits_after (waits_at state caller) (next state caller event).1 }
    ensures own_run { (state : OnceState T) (caller : ℕ) (event : OnceEvent T)
        → runs_at (next state caller event).0 caller ≡ runs_after (runs_at state caller) (next state caller event).1 }
    ensures others_wait { (state : OnceState T) (caller other : ℕ) (event : OnceEvent T)
        → caller ≢ other → waits_at (next state other event).0 caller ≡ waits_at state caller }
    ensures others_run { (state : OnceState T) (caller other : ℕ) (event : OnceEvent T)
        → caller ≢ other → runs_at (next state other event).0 caller ≡ runs_at state caller }
    ensures answers { (state : OnceState T) (caller : ℕ) (event : OnceEvent T)
        → caller < callers_of state → IsTrue (answers (waits_at state caller) (runs_at state caller) event (next state caller event).1) }
    ensures callers { (state : OnceState T) (caller : ℕ) (event : OnceEvent T)
        → callers_of (next state caller event).0 ≡ callers_of state }
    ensures first { (callers caller : ℕ) → (waits_at {T = T} (start callers) caller ≡ false) × (runs_at {T = T} (start callers) caller ≡ false) }
{}

/// The function's end synchronizes before every return: before a return, which acquires, stands an event that releases. An event
/// that is answered `Still` does neither.
pub fn synchronizes<T: Copy>()
    ensures ended { (callers : ℕ) (before rest : Log T) (e : OnceEntry T) (value : T)
        → IsLog callers (before ++ e ∷ rest) → returned_in e.reply ≡ Some value
        → IsTrue (list_any (λ x. once_releases x.event x.reply) before) }
    ensures returned { (e : OnceEntry T) (value : T) → returned_in e.reply ≡ Some value → IsTrue (once_acquires e.event e.reply) }
    ensures unmoved { (event : OnceEvent T)
        → IsFalse (once_releases event reply.Still) × IsFalse (once_acquires event reply.Still) }
{
    logs_go_on::<OnceCore<T>>();
}

/// Callers can't go on for ever without a call returning: what they can still do without that is `once_left`. The one that is to
/// run the function, and one that comes to wait, use up one of it, and only one that leaves gives any back.
pub fn events_are_used_up<T: Copy>()
    ensures { (state : OnceState T) (caller : ℕ) (event : OnceEvent T)
        → once_left (next state caller event).0 + once_used (next state caller event).1
        ≤ once_left state + once_given (next state caller event).1 }
{}

/// An event is made exactly where its caller may make it: it is one of the once's, is out to begin, runs the function to end it,
/// and is released for a leaving. Any other is answered `Still` and changes nothing.
pub fn still<T: Copy>()
    ensures made { (state : OnceState T) (caller : ℕ) (event : OnceEvent T)
        → IsTrue (may_make state caller event) → (next state caller event).1 ≢ reply.Still }
    ensures unmade { (state : OnceState T) (caller : ℕ) (event : OnceEvent T)
        → IsFalse (may_make state caller event) → next state caller event ≡ (state, reply.Still) }
{}
