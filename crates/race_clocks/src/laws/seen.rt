//! What conds, pools and maps come to by the items of a trace is what the run's own objects hold.
ghost use Rattle.std.specs.Prelude.{◌≡◌, ℕ, true, List, Some, slice_get};
ghost use Rattle.wait_cores.specs.NotifyMachine.{NotifyState};
ghost use Rattle.pool_core.specs.PoolMachine.{PoolState};
ghost use Rattle.workload.specs.Plan.{Plan, is_valid};
ghost use Rattle.workload.specs.declared.turn.Turn.{Turn};
ghost use Rattle.step_runner.specs.declared.turns.object_state.ObjectState.TheVariants as states;
ghost use Rattle.step_runner.specs.State.{start};
ghost use Rattle.step_runner.specs.Traces.{items_told, traced_from};
ghost use Rattle.step_runner.specs.Turns.{after_items};
ghost use Rattle.race_clocks.specs.PoolItems.{kept_behind};
ghost use Rattle.race_clocks.specs.Seen.{Named, cond_behind, map_behind};

use step_runner::laws::{
    a_trace_tells_what_turns_made, objects_come_by_the_items_of_the_run, objects_keep_their_kinds,
};

/// Behind any turns of a run, up to the first misuse, what their trace tells of a cond, of a pool with the items themselves and of a map
/// is what the run's own object holds. So it is told from the trace alone whom a signal notifies, whose item a look takes, and whether a
/// key is there.
pub fn a_trace_tells_what_objects_hold()
    ensures conds { (plan : Plan) (items : List Turn) (place mutex : ℕ) (c : NotifyState) → is_valid plan ≡ true
        → slice_get (after_items plan items (start plan)).objects place ≡ Some (states.Cond c mutex) → cond_behind plan place (items_told (traced_from plan items (start plan))) ≡ c }
    ensures pools { (plan : Plan) (items : List Turn) (place : ℕ) (p : PoolState ℕ) → is_valid plan ≡ true
        → slice_get (after_items plan items (start plan)).objects place ≡ Some (states.Pool p) → kept_behind plan place (items_told (traced_from plan items (start plan))) ≡ p }
    ensures maps { (plan : Plan) (items : List Turn) (place : ℕ) (m : Named) → is_valid plan ≡ true
        → slice_get (after_items plan items (start plan)).objects place ≡ Some (states.Map m) → map_behind place (items_told (traced_from plan items (start plan))) ≡ m }
{
    a_trace_tells_what_turns_made();
    objects_keep_their_kinds();
    objects_come_by_the_items_of_the_run();
}
