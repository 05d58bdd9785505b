//! What pools order.
ghost use Rattle.std.specs.Prelude.{◌≡◌, ℕ, ◌<◌, true, false, List, Some, slice_get};
ghost use Rattle.pool_core.specs.PoolMachine as pool;
ghost use Rattle.pool_core.specs.declared.pool_event.PoolEvent.{PoolEvent};
ghost use Rattle.run_record.specs.declared.entered.ObjectEvent.TheVariants as events;
ghost use Rattle.run_record.specs.declared.entered.ObjectReply.{ObjectReply};
ghost use Rattle.workload.specs.Plan.{Plan};
ghost use Rattle.step_runner.specs.declared.trace.TraceItem.{TraceItem};
ghost use Rattle.step_runner.specs.declared.turns.item.Deed.{Deed};
ghost use Rattle.step_runner.specs.declared.turns.item.Deed.TheVariants as deeds;
ghost use Rattle.step_runner.specs.declared.turns.item.Item.{Item};
ghost use Rattle.race_clocks.specs.HappensBefore.{Before};
ghost use Rattle.race_clocks.specs.Seen.{NumberedPool, is_put, pool_behind, takes_put};
ghost use Rattle.race_clocks.specs.PoolItems.{kept_behind, puts_into};
ghost use Rattle.race_clocks.specs.Rows.{Makes, earlier_of, put};

use pool_core::PoolReply;

/// A put is before the look that takes its item: the look takes the item of the put of this number, which so many puts into the pool
/// stand before.
pub fn a_put_is_before_the_look_that_takes_its_item()
    ensures { (plan : Plan) (trace : List TraceItem) (i j pool w v value number : ℕ) (d e : Deed) → i < j
        → (m : Makes trace i pool w d) → (n : Makes trace j pool v e) → d ≡ put value
        → number ≡ (pool_behind plan pool (earlier_of trace i pool w d m)).count
        → takes_put number (pool_behind plan pool (earlier_of trace j pool v e n)) v e ≡ true → Before plan trace i j }
{}

/// A look takes the item of one put alone, however many puts were of equal items.
pub fn a_look_takes_the_item_of_one_put()
    ensures { (seen : NumberedPool) (caller a b : ℕ) (deed : Deed) → takes_put a seen caller deed ≡ true → takes_put b seen caller deed ≡ true → a ≡ b }
{}

/// And it is a put of just the item that the look is answered. Where the pool's machine answers a look an item, with the items
/// themselves in it, the look takes the put of some number, and the put of that number into the pool was of this item. Where the look
/// takes the put of a number, it is answered the item of that put.
pub fn a_look_takes_the_item_that_was_put()
    ensures put { (plan : Plan) (place caller value : ℕ) (earlier : List Item) (event : PoolEvent ℕ) (answer : ObjectReply) → is_put event ≡ false
        → (pool.next (kept_behind plan place earlier) caller event).1 ≡ PoolReply.Item value
        → (number : ℕ) × (takes_put number (pool_behind plan place earlier) caller (deeds.Entered (events.Pool event) answer) ≡ true)
        × (slice_get (puts_into place earlier) number ≡ Some value) }
    ensures answered { (plan : Plan) (place caller number : ℕ) (earlier : List Item) (event : PoolEvent ℕ) (answer : ObjectReply) → is_put event ≡ false
        → takes_put number (pool_behind plan place earlier) caller (deeds.Entered (events.Pool event) answer) ≡ true
        → (value : ℕ) × ((pool.next (kept_behind plan place earlier) caller event).1 ≡ PoolReply.Item value)
        × (slice_get (puts_into place earlier) number ≡ Some value) }
{}
