//! Laws of one part of a pool over every log of events, and of a pool as its parts. Each is the contract of a function that does
//! nothing.
ghost use Rattle.std.specs.Prelude.{◌≡◌, ◌≢◌, ℕ, ◌<◌, if◌then◌else◌, Some, IsTrue, ◌∷◌, ◌++◌};
ghost use Rattle.pool_core.specs.PartLaws.{IsPartLog, part_after, about, HasPart};
ghost use Rattle.pool_core.specs.PartMachine.{PartState, part_next};
ghost use Rattle.pool_core.specs.PoolLaws.{Log, put_by, ComeFrom, is_full, answers};
ghost use Rattle.pool_core.specs.PoolMachine.{PoolState, next, callers_of};

use crate::part_core::PartCore;
use crate::pool_event::{PoolEvent, PoolReply};
use sync_model::laws::logs::replies_are_the_machines;

/// Each item that a look takes was put into the part by one earlier put, no other look takes that put's item, and at most one
/// sweep of the part stands between.
pub fn a_part_gives_each_once()
    ensures { (room : ℕ) (log : Log ℕ) → IsPartLog room log → (origin : ℕ → ℕ) × ComeFrom log origin }
{}

/// A put is dropped exactly where the part holds a private item and `room` shared ones.
pub fn a_part_drops_where_full()
    ensures { (room : ℕ) (before rest : Log ℕ) (caller item : ℕ) (reply : PoolReply ℕ)
        → IsPartLog room (before ++ put_by caller item reply ∷ rest)
        → reply ≡ (if is_full room (part_after room before).primary then PoolReply.Dropped item else PoolReply.Kept) }
{
    replies_are_the_machines::<PartCore>();
}

/// Every event at a part is answered as such an event is, and never `Still`.
pub fn a_part_answers()
    ensures { (state : PartState ℕ) (caller : ℕ) (event : PoolEvent ℕ) → IsTrue (answers event (part_next state caller event).1) }
{}

/// A pool is its parts: it answers a caller's event as the part does that the event is about, and changes that part as the part
/// by itself, and no other. A sweep of the pool is a sweep of each part.
pub fn a_pool_is_its_parts()
    ensures one { (pool : PoolState ℕ) (caller part : ℕ) (event : PoolEvent ℕ) (own : PartState ℕ)
        → caller < callers_of pool → about caller event ≡ Some part → HasPart pool part own
        → ((next pool caller event).1 ≡ (part_next own caller event).1) × HasPart (next pool caller event).0 part (part_next own caller event).0 }
    ensures others { (pool : PoolState ℕ) (caller part other : ℕ) (event : PoolEvent ℕ) (own : PartState ℕ)
        → about caller event ≡ Some part → other ≢ part → HasPart pool other own → HasPart (next pool caller event).0 other own }
    ensures sweep { (pool : PoolState ℕ) (caller part : ℕ) (own : PartState ℕ)
        → caller < callers_of pool → HasPart pool part own
        → ((next pool caller PoolEvent.Sweep).1 ≡ (part_next own caller PoolEvent.Sweep).1) × HasPart (next pool caller PoolEvent.Sweep).0 part (part_next own caller PoolEvent.Sweep).0 }
{}
