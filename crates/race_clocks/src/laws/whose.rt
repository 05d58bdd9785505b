//! Whose a channel is.
ghost use Rattle.std.specs.Prelude.{◌≡◌, ◌≢◌, ℕ, true, List, Contains, Some};
ghost use Rattle.workload.specs.Plan.{Plan};
ghost use Rattle.step_runner.specs.declared.trace.TraceItem.{TraceItem};
ghost use Rattle.step_runner.specs.declared.turns.item.Item.{Item};
ghost use Rattle.race_clocks.specs.Channels.{Channel, Notice, Start, hands_on, takes_in};
ghost use Rattle.race_clocks.specs.Rows.{EachDoes, object_of, start_of};

/// A turn hands on through a channel of an object, and takes in from it, only by an item on that object. So nothing on one object orders
/// anything on another one.
pub fn a_channel_is_of_its_object()
    ensures hands_on { (plan : Plan) (earlier : List Item) (turn : TraceItem) (channel : Channel) (object : ℕ) → object_of channel ≡ Some object
        → hands_on plan earlier turn channel ≡ true → (it : Item) × Contains turn.made it × (it.object ≡ object) }
    ensures takes_in { (plan : Plan) (earlier : List Item) (turn : TraceItem) (channel : Channel) (object : ℕ) → object_of channel ≡ Some object
        → takes_in plan earlier turn channel ≡ true → (it : Item) × Contains turn.made it × (it.object ≡ object) }
{}

/// A notice is taken in by the worker alone whose ticket it is of.
pub fn a_notice_is_of_its_worker()
    ensures { (plan : Plan) (earlier : List Item) (turn : TraceItem) (place worker : ℕ) → takes_in plan earlier turn (Notice place worker) ≡ true
        → (it : Item) × Contains turn.made it × (it.caller ≡ worker) }
{}

/// A `go` hands on to the worker that it starts alone, and a worker that made an item before takes in no start.
pub fn a_start_is_of_its_worker()
    ensures hands_on { (plan : Plan) (earlier : List Item) (turn : TraceItem) (worker other : ℕ) → EachDoes (λ d. d ≡ start_of worker) turn
        → hands_on plan earlier turn (Start other) ≡ true → worker ≡ other }
    ensures takes_in { (plan : Plan) (earlier : List Item) (turn : TraceItem) (worker : ℕ) → takes_in plan earlier turn (Start worker) ≡ true
        → (it : Item) → Contains earlier it → it.caller ≢ worker }
{}
