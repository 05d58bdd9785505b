//! What hands on nothing, and what takes in nothing.
ghost use Rattle.std.specs.Prelude.{◌≡◌, ℕ, true, false, List};
ghost use Rattle.workload.specs.Plan.{Plan};
ghost use Rattle.step_runner.specs.declared.trace.TraceItem.{TraceItem};
ghost use Rattle.step_runner.specs.declared.turns.item.Item.{Item};
ghost use Rattle.race_clocks.specs.Channels.{Channel, hands_on, takes_in};
ghost use Rattle.race_clocks.specs.Channels.{Start};
ghost use Rattle.race_clocks.specs.Rows.{EachDoes, HandsOnNothing, TakesInNothing};

/// A turn hands on nothing each item of which takes a lock or a weight, fails to or waits for it, returns, joins or leaves a flight, or is
/// a misuse; is an `add` of 0 or above, a look or a sweep of a pool, a put that was dropped, a load, a compare-and-swap that swapped
/// nothing, a `range`, or an access of a plain variable; or changes nothing.
pub fn these_hand_on_nothing()
    ensures { (plan : Plan) (earlier : List Item) (turn : TraceItem) → EachDoes HandsOnNothing turn → (channel : Channel) → hands_on plan earlier turn channel ≡ false }
{}

/// A turn takes in nothing, but the start of its worker, each item of which is a try that failed, an arrival that waits, an unlock, a
/// signal, a broadcast, an `add`, a release, or a misuse; the beginning or the end of a once's function, a landing, a start, a store, a
/// `delete`, a `clear`, or an access of a plain variable; or changes nothing.
pub fn these_take_in_nothing()
    ensures { (plan : Plan) (earlier : List Item) (turn : TraceItem) → EachDoes TakesInNothing turn → (channel : Channel) → takes_in plan earlier turn channel ≡ true
        → (worker : ℕ) × (channel ≡ Start worker) }
{}
