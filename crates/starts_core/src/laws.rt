//! Laws of the machine over every log of events. Each is the contract of a function that does nothing.
ghost use Rattle.std.specs.Prelude.{◌≡◌, ◌≢◌, ℕ, ◌<◌, ◌≤◌, Bool, true, false, List, ◌∷◌, ◌++◌, Some, slice_get, IsTrue, IsFalse};
ghost use Rattle.std.specs.List.{list_any};
ghost use Rattle.starts_core.specs.StartsEdges.{starts_releases, starts_acquires};
ghost use Rattle.starts_core.specs.StartsMachine.{StartsState, begun, next, callers_of, place_of, is_any_live};
ghost use Rattle.starts_core.specs.StartsStanding.{may_make, moved};
ghost use Rattle.starts_core.specs.StartsLaws.{StartsEntry, Log, IsLog, state_after, leave_by, starts, is_going, stands_by, StartInTurn, StartsByLive};

use crate::starts::{StartEvent, StartPlace, StartReply, StartsCore};
use sync_model::laws::logs::logs_go_on;

/// A worker that waits to be started goes only once it was started: between the beginning and its going stands a start of it, which
/// was made.
pub fn goes_when_started()
    ensures { (dormant : List Bool) (before rest : Log) (worker : ℕ) → slice_get dormant worker ≡ Some true
        → IsLog dormant (before ++ leave_by worker StartReply.Go ∷ rest) → IsTrue (list_any (starts worker) before) }
{
    logs_go_on::<StartsCore>();
}

/// A worker knows from its own answers that it is live: one that goes, by the beginning or by an answer, and hasn't made its end
/// since, is live, whatever the others did.
pub fn a_worker_knows_that_it_is_live()
    ensures { (dormant : List Bool) (log : Log) (worker : ℕ) → IsLog dormant log → stands_by dormant worker log ≡ StartPlace.Live
        → place_of (state_after dormant log) worker ≡ StartPlace.Live }
{}

/// Where each worker's starts stand between its going and its end, each start is made by a worker that is live then.
pub fn starts_in_turn_are_by_the_live()
    ensures { (dormant : List Bool) (log : Log) → IsLog dormant log → StartInTurn dormant log → StartsByLive (begun dormant) log }
{
    logs_go_on::<StartsCore>();
    a_worker_knows_that_it_is_live();
}

/// Whoever is told that it is never started is told right: nobody goes from then on, and so nobody is started. Of starts it asks that
/// they are made by live workers alone from then on, or that each worker's stand between its going and its end.
pub fn never_is_for_good()
    ensures by_the_live { (dormant : List Bool) (before rest : Log) (worker : ℕ) → IsLog dormant (before ++ leave_by worker StartReply.Never ∷ rest)
        → StartsByLive (state_after dormant before) rest → IsFalse (list_any is_going rest) }
    ensures in_turn { (dormant : List Bool) (before rest : Log) (worker : ℕ) → IsLog dormant (before ++ leave_by worker StartReply.Never ∷ rest)
        → StartInTurn dormant (before ++ leave_by worker StartReply.Never ∷ rest) → IsFalse (list_any is_going rest) }
{
    logs_go_on::<StartsCore>();
    starts_in_turn_are_by_the_live();
}

/// What an event does to each worker: a start makes the one live that it names, if that waits, an end ends its caller, if that is
/// live, and all others stay where they stand. So one that has ended is never live again.
pub fn workers_go_from_dormant_to_live_to_ended()
    ensures moves { (state : StartsState) (caller worker : ℕ) (event : StartEvent) → caller < callers_of state → worker < callers_of state
        → place_of (next state caller event).0 worker ≡ moved caller worker event (place_of state worker) }
    ensures callers { (state : StartsState) (caller : ℕ) (event : StartEvent) → callers_of (next state caller event).0 ≡ callers_of state }
    ensures started { (state : StartsState) (caller worker : ℕ) → caller < callers_of state → worker < callers_of state
        → place_of state worker ≡ StartPlace.Dormant → place_of (next state caller (StartEvent.Start worker)).0 worker ≡ StartPlace.Live }
    ensures nobody { (state : StartsState) (caller worker : ℕ) → callers_of state ≤ worker → (next state caller (StartEvent.Start worker)).0 ≡ state }
    ensures done { (state : StartsState) (caller : ℕ) → caller < callers_of state
        → place_of state caller ≡ StartPlace.Live → place_of (next state caller StartEvent.End).0 caller ≡ StartPlace.Ended }
    ensures ended { (state : StartsState) (caller worker : ℕ) (event : StartEvent)
        → place_of state worker ≡ StartPlace.Ended → place_of (next state caller event).0 worker ≡ StartPlace.Ended }
{}

/// A worker that asks is told to go where it is live. One that waits is told that it never will where nobody is live.
pub fn workers_are_told_where_they_stand()
    ensures live { (state : StartsState) (caller : ℕ) → caller < callers_of state
        → place_of state caller ≡ StartPlace.Live → (next state caller StartEvent.Leave).1 ≡ StartReply.Go }
    ensures never { (state : StartsState) (caller : ℕ) → caller < callers_of state
        → place_of state caller ≡ StartPlace.Dormant → is_any_live state ≡ false → (next state caller StartEvent.Leave).1 ≡ StartReply.Never }
{}

/// An event is made exactly where its caller may make it. Any other is answered `Still` and changes nothing.
pub fn still()
    ensures made { (state : StartsState) (caller : ℕ) (event : StartEvent) → IsTrue (may_make state caller event) → (next state caller event).1 ≢ StartReply.Still }
    ensures unmade { (state : StartsState) (caller : ℕ) (event : StartEvent) → IsFalse (may_make state caller event) → next state caller event ≡ (state, StartReply.Still) }
{}

/// A start that was made releases, and so does an end; a going acquires. So a worker that goes knows what the one knew that started
/// it (`goes_when_started`).
/// Whoever is told to wait, or that it never goes, learns nothing.
pub fn synchronizes()
    ensures starts { (worker : ℕ) (e : StartsEntry) → IsTrue (starts worker e) → IsTrue (starts_releases e.event e.reply) }
    ensures ends { IsTrue (starts_releases StartEvent.End StartReply.Done) }
    ensures goes { IsTrue (starts_acquires StartEvent.Leave StartReply.Go) }
    ensures unmoved { (event : StartEvent) → IsFalse (starts_releases event StartReply.Still) × IsFalse (starts_acquires event StartReply.Still) }
    ensures never { (event : StartEvent) → IsFalse (starts_releases event StartReply.Never) × IsFalse (starts_acquires event StartReply.Never) }
{}
