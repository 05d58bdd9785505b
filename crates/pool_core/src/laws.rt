//! Laws of a pool over every log of events: where its items come from and where they go. Each is the contract of a function that
//! does nothing.
ghost use Rattle.std.specs.Prelude.{◌≡◌, ◌≢◌, ℕ, ◌+◌, ◌*◌, ◌<◌, ◌≤◌, Bool, if◌then◌else◌, length, slice_get, IsTrue, IsFalse, ◌∷◌, ◌++◌};
ghost use Rattle.pool_core.specs.Edges.{pool_releases, pool_acquires};
ghost use Rattle.pool_core.specs.Looks.{look};
ghost use Rattle.pool_core.specs.PoolParts.{PoolPart};
ghost use Rattle.pool_core.specs.PoolMachine.{PoolState, start, next};
ghost use Rattle.pool_core.specs.PoolLaws.{PoolEntry, Log, IsLog, state_after, put_by, held, kept_by, got_by, kept_count, got_count, swept_count, ComeFrom, is_full, private_at, answers, NamesPart, may_make};

use crate::pool::PoolCore;
use crate::pool_event::{PoolEvent, PoolReply};
use sync_model::laws::logs::replies_are_the_machines;

/// Nothing is lost and nothing made: of the items that pass any test, as that of being a certain one, those that were kept are
/// those that looks took, those that the pool holds and those that sweeps removed.
pub fn conserves_items()
    ensures { (callers room : ℕ) (test : ℕ → Bool) (log : Log ℕ) → IsLog callers room log
        → kept_count test log ≡ got_count test log + held test (state_after callers room log)
        + swept_count test (start callers room) log }
{}

/// Each item that a look takes was put by one earlier put, no other look takes that put's item, and at most one sweep stands
/// between.
pub fn gives_each_once()
    ensures { (callers room : ℕ) (log : Log ℕ) → IsLog callers room log → (origin : ℕ → ℕ) × ComeFrom log origin }
{}

/// A put synchronizes before the look that takes its item: a put that is kept releases, and a look that takes an item acquires. An
/// event that is answered `Still` does neither.
pub fn synchronizes()
    ensures put { (e : PoolEntry ℕ) (item : ℕ) → kept_by e ≡ Some item → IsTrue (pool_releases e.event e.reply) }
    ensures taken { (e : PoolEntry ℕ) (item : ℕ) → got_by e ≡ Some item → IsTrue (pool_acquires e.event e.reply) }
    ensures unmoved { (event : PoolEvent ℕ)
        → IsFalse (pool_releases event PoolReply.Still) × IsFalse (pool_acquires event PoolReply.Still) }
{}

/// A put is dropped exactly where the caller's own part holds a private item and `room` shared ones.
pub fn drops_where_full()
    ensures { (callers room : ℕ) (before rest : Log ℕ) (caller item : ℕ) (reply : PoolReply ℕ)
        → caller < callers → IsLog callers room (before ++ put_by caller item reply ∷ rest)
        → (own : PoolPart ℕ) × (slice_get (state_after callers room before).primary caller ≡ Some own)
        × (reply ≡ (if is_full room own then PoolReply.Dropped item else PoolReply.Kept)) }
{
    replies_are_the_machines::<PoolCore>();
}

/// The private item of another part is never taken: no event of a caller but a sweep changes it, in either generation.
pub fn leaves_private_items()
    ensures primary { (state : PoolState ℕ) (caller other : ℕ) (event : PoolEvent ℕ)
        → event ≢ PoolEvent.Sweep → other ≢ caller
        → private_at (next state caller event).0.primary other ≡ private_at state.primary other }
    ensures victims { (state : PoolState ℕ) (caller other : ℕ) (event : PoolEvent ℕ)
        → event ≢ PoolEvent.Sweep → other ≢ caller
        → private_at (next state caller event).0.victims other ≡ private_at state.victims other }
{}

/// An event of a caller of the pool, about one of its parts, is answered as such an event is, and never `Still`.
pub fn answers_its_callers()
    ensures { (callers room : ℕ) (log : Log ℕ) (caller : ℕ) (event : PoolEvent ℕ)
        → caller < callers → NamesPart callers event → IsTrue (answers event (next (state_after callers room log) caller event).1) }
{}

/// A pool keeps as many parts as it has callers, in both generations.
pub fn keeps_its_parts()
    ensures { (state : PoolState ℕ) (caller callers : ℕ) (event : PoolEvent ℕ)
        → length state.primary ≡ callers → length state.victims ≡ callers
        → (length (next state caller event).0.primary ≡ callers) × (length (next state caller event).0.victims ≡ callers) }
{}

/// The looks of a get leave no place out: the first is at the caller's own part; then one is at each other part, and then one at
/// the victims of each part.
pub fn looks_everywhere()
    ensures own { (callers caller : ℕ) → look callers caller 0 ≡ PoolEvent.LookOwn }
    ensures others { (callers caller part : ℕ) → caller < callers → part < callers → part ≢ caller
        → (k : ℕ) × (k < callers) × (look callers caller k ≡ PoolEvent.LookOther part) }
    ensures victims { (callers caller part : ℕ) → caller < callers → part < callers
        → (k : ℕ) × (callers ≤ k) × (k < 2 * callers) × (look callers caller k ≡ PoolEvent.LookVictim part) }
{}

/// An event is made exactly where its caller may make it: it is one of the pool's, and the part that the event names, where it
/// names one, is there. Any other is answered `Still` and changes nothing.
pub fn still()
    ensures made { (state : PoolState ℕ) (caller : ℕ) (event : PoolEvent ℕ)
        → IsTrue (may_make state caller event) → (next state caller event).1 ≢ PoolReply.Still }
    ensures unmade { (state : PoolState ℕ) (caller : ℕ) (event : PoolEvent ℕ)
        → IsFalse (may_make state caller event) → next state caller event ≡ (state, PoolReply.Still) }
{}
