//! Which accesses race.
ghost use Rattle.std.specs.Prelude.{◌≡◌, ◌≢◌, ◌↔◌, ◌⊎◌, ℕ, ◌<◌, ◌≤◌, true, false, List, Contains, Some, None, slice_get};
ghost use Rattle.workload.specs.Plan.{Plan};
ghost use Rattle.step_runner.specs.declared.trace.TraceItem.{TraceItem};
ghost use Rattle.race_clocks.specs.HappensBefore.{Before};
ghost use Rattle.race_clocks.specs.Races.{Access, access_of, IsRace, Pair, pair, ArePairs, race_of, AreRaces};
ghost use Rattle.race_clocks.specs.Rows.{IsOwn, IsAccessed};
ghost use Rattle.step_runner.specs.Traces.{trace_of};

use crate::race::Race;
use step_runner::laws::a_trace_tells_what_turns_made;

/// In a run a turn of a `read` or a `write` makes just that call, whole, on its variable. So what races are the calls of scripts, each
/// at its place there.
pub fn an_access_is_made_whole()
    ensures { (plan : Plan) (number : ℕ) (one : TraceItem) (access : Access) → slice_get (trace_of plan) number ≡ Some one → access_of one ≡ Some access → IsAccessed one access }
{
    a_trace_tells_what_turns_made();
}

/// Two accesses of one variable race where one of them is a write and neither is before the other. They are one race, told by the
/// earlier turn and the later one.
pub fn unordered_accesses_race()
    ensures race { (plan : Plan) (trace : List TraceItem) (i j : ℕ) (x y : TraceItem) (a b : Access) → slice_get trace i ≡ Some x → slice_get trace j ≡ Some y
        → access_of x ≡ Some a → access_of y ≡ Some b → a.variable ≡ b.variable → (a.writes ≡ true) ⊎ (b.writes ≡ true) → i < j
        → (Before plan trace i j → ⊥) → IsRace plan trace i j }
    ensures once { (plan : Plan) (trace : List TraceItem) (i j : ℕ) → IsRace plan trace i j → (i < j) × (IsRace plan trace j i → ⊥) }
{}

/// No other turns do: none of which one is before the other, none of one worker, none without an access, no two reads, and no accesses
/// of two variables.
pub fn other_turns_never_race()
    ensures ordered { (plan : Plan) (trace : List TraceItem) (i j : ℕ) → IsRace plan trace i j → (Before plan trace i j → ⊥) × (Before plan trace j i → ⊥) }
    ensures own { (plan : Plan) (trace : List TraceItem) (i j : ℕ) → IsOwn trace i j → IsRace plan trace i j → ⊥ }
    ensures first { (plan : Plan) (trace : List TraceItem) (i j : ℕ) (x : TraceItem) → slice_get trace i ≡ Some x → access_of x ≡ None → IsRace plan trace i j → ⊥ }
    ensures second { (plan : Plan) (trace : List TraceItem) (i j : ℕ) (y : TraceItem) → slice_get trace j ≡ Some y → access_of y ≡ None → IsRace plan trace i j → ⊥ }
    ensures reads { (plan : Plan) (trace : List TraceItem) (i j : ℕ) (x y : TraceItem) (a b : Access) → slice_get trace i ≡ Some x → slice_get trace j ≡ Some y
        → access_of x ≡ Some a → access_of y ≡ Some b → a.writes ≡ false → b.writes ≡ false → IsRace plan trace i j → ⊥ }
    ensures variables { (plan : Plan) (trace : List TraceItem) (i j : ℕ) (x y : TraceItem) (a b : Access) → slice_get trace i ≡ Some x → slice_get trace j ≡ Some y
        → access_of x ≡ Some a → access_of y ≡ Some b → a.variable ≢ b.variable → IsRace plan trace i j → ⊥ }
{}

/// A list of a trace's pairs has just those that race, each once. Their later turns never fall along the list, and the earlier turns of
/// one later turn rise. So a trace has one such list, and one list of races.
pub fn a_trace_has_one_list_of_races()
    ensures races { (plan : Plan) (trace : List TraceItem) (pairs : List Pair) → ArePairs plan trace pairs → (i j : ℕ) → Contains pairs (pair i j) ↔ IsRace plan trace i j }
    ensures once { (plan : Plan) (trace : List TraceItem) (pairs : List Pair) → ArePairs plan trace pairs → (m n : ℕ) (p : Pair)
        → slice_get pairs m ≡ Some p → slice_get pairs n ≡ Some p → m ≡ n }
    ensures later { (plan : Plan) (trace : List TraceItem) (pairs : List Pair) → ArePairs plan trace pairs → (m n : ℕ) (p q : Pair) → m < n
        → slice_get pairs m ≡ Some p → slice_get pairs n ≡ Some q → p.later ≤ q.later }
    ensures earlier { (plan : Plan) (trace : List TraceItem) (pairs : List Pair) → ArePairs plan trace pairs → (m n : ℕ) (p q : Pair) → m < n
        → slice_get pairs m ≡ Some p → slice_get pairs n ≡ Some q → p.later ≡ q.later → p.earlier < q.earlier }
    ensures told { (plan : Plan) (trace : List TraceItem) (races : List Race) → (are : AreRaces plan trace races) → (n : ℕ) (p : Pair) → slice_get are.pairs n ≡ Some p
        → slice_get races n ≡ race_of trace p }
    ensures one { (plan : Plan) (trace : List TraceItem) (a b : List Race) → AreRaces plan trace a → AreRaces plan trace b → a ≡ b }
{}
