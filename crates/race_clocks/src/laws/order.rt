//! That before is an order.
ghost use Rattle.std.specs.Prelude.{ℕ, ◌<◌, Bool, List, IsTrue};
ghost use Rattle.workload.specs.Plan.{Plan};
ghost use Rattle.step_runner.specs.declared.trace.TraceItem.{TraceItem};
ghost use Rattle.race_clocks.specs.Channels.{Channel};
ghost use Rattle.race_clocks.specs.HappensBefore.{Before};
ghost use Rattle.race_clocks.specs.Rows.{IsOwn, IsHanded};

/// What is before a turn was made before it, so no turn is before itself, and what is before that is before it too.
pub fn before_is_an_order()
    ensures earlier { (plan : Plan) (trace : List TraceItem) (i j : ℕ) → Before plan trace i j → i < j }
    ensures through { (plan : Plan) (trace : List TraceItem) (i j k : ℕ) → Before plan trace i j → Before plan trace j k → Before plan trace i k }
{}

/// Two turns of one worker are ordered as they were taken. So are two of which the later one takes in what the earlier one handed on.
pub fn turns_are_ordered()
    ensures own { (plan : Plan) (trace : List TraceItem) (i j : ℕ) → IsOwn trace i j → Before plan trace i j }
    ensures handed { (plan : Plan) (trace : List TraceItem) (channel : Channel) (i j : ℕ) → IsHanded plan trace channel i j → Before plan trace i j }
{}

/// And no others are but by these: before is within each transitive relation that orders them so.
pub fn before_is_the_least_such_order()
    ensures { (plan : Plan) (trace : List TraceItem) (related : ℕ → ℕ → Bool) → ((i j : ℕ) → IsOwn trace i j → IsTrue (related i j))
        → ((channel : Channel) (i j : ℕ) → IsHanded plan trace channel i j → IsTrue (related i j))
        → ((i j k : ℕ) → IsTrue (related i j) → IsTrue (related j k) → IsTrue (related i k))
        → (i j : ℕ) → Before plan trace i j → IsTrue (related i j) }
{}
