//! What a look of a get finds.
ghost use Rattle.std.specs.Prelude.{◌≡◌, ℕ, [], Contains};
ghost use Rattle.pool_core.specs.declared.pool_event.PoolEvent.{PoolEvent};
ghost use Rattle.pool_core.specs.PartMachine.{PartState, part_next};
ghost use Rattle.go_pool.specs.Items.{takeable};

use pool_core::PoolReply;

/// A look at a part is answered that there is nothing only where there is no item that the caller may take by it, and the item
/// that it takes is one of those. What the caller may take of its own part are the private item and the shared ones; of another's
/// part, in either generation, the shared ones alone.
pub fn looks_find_what_is_there()
    ensures nothing { (state : PartState ℕ) (caller : ℕ) (event : PoolEvent ℕ)
        → (part_next state caller event).1 ≡ PoolReply.Nothing → takeable state caller event ≡ [] }
    ensures item { (state : PartState ℕ) (caller : ℕ) (event : PoolEvent ℕ) (item : ℕ)
        → (part_next state caller event).1 ≡ PoolReply.Item item → Contains (takeable state caller event) item }
{}
