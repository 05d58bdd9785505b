//! Which calls of a script a record has. Each law is the contract of a function that does nothing.
ghost use Rattle.std.specs.Prelude.{◌≡◌, ◌≢◌, ◌↔◌, ◌⊎◌, ℕ, ◌+◌, ◌<◌, true, false, List, [], ◌∷◌, ◌++◌, map, length, Some, slice_get, get_or};
ghost use Rattle.std.specs.List.{flat_map};
ghost use Rattle.script_calls.specs.Outcome.{left_by};
ghost use Rattle.script_calls.specs.Runs.{passed_over, have_tests, left_of, made_of, places_from};
ghost use Rattle.workload.specs.Plan.{Plan, has_dormant};
ghost use Rattle.run_record.specs.Explains.{AreLines};
ghost use Rattle.run_record.specs.Lines.{SpeltCall, Line, replies_of};
ghost use Rattle.run_record.specs.Record.{Record, list_of};
ghost use Rattle.run_record.specs.Runs.{SpellScripts};

use script_calls::laws::{
    a_run_is_told_by_its_replies, a_script_without_tests_is_its_own_run, calls_keep_their_places,
};
use script_calls::{Call, Outcome};

/// Where no call of a workload may pass others over, each list spells the first part of its worker's script, call by call.
pub fn scripts_without_tests_are_spelt_call_by_call()
    ensures { (plan : Plan) (r : Record) (outcome : Outcome) (lines : List Line) → have_tests plan.scripts ≡ false → AreLines plan r outcome lines ↔ SpellScripts plan r outcome lines }
{
    a_script_without_tests_is_its_own_run::<u32>();
}

/// The replies tell which calls of its script a worker completed, and what is left of the script.
pub fn replies_tell_which_calls_were_made()
    ensures given { (plan : Plan) (r : Record) (outcome : Outcome) (lines : List Line) (worker : ℕ) (line : Line)
        → AreLines plan r outcome lines → slice_get lines worker ≡ Some line → get_or (left_by outcome).replies worker [] ≡ replies_of line }
    ensures made { (plan : Plan) (r : Record) (outcome : Outcome) (lines : List Line) (worker : ℕ) (line : Line)
        → AreLines plan r outcome lines → slice_get lines worker ≡ Some line → map (λ spelt. spelt.call) line.spelt ≡ made_of (get_or plan.scripts worker []) (replies_of line) }
    ensures left { (plan : Plan) (r : Record) (outcome : Outcome) (lines : List Line) (worker : ℕ) (line : Line)
        → AreLines plan r outcome lines → slice_get lines worker ≡ Some line → line.rest ≡ left_of (get_or plan.scripts worker []) (replies_of line) }
{
    a_run_is_told_by_its_replies::<u32>();
}

/// A call that was passed over leaves no item. A worker's list has the items of its completed calls, those of the next call of what is
/// left, where it has begun that, and its halts; and what stands before and behind the script, where some workers wait to be started. Each completed call stands in the script at a place of its own, and the next one
/// stands right behind it and those that it passes over: no call between is a completed one, and so none has items.
pub fn a_call_that_was_passed_over_leaves_no_item()
    ensures list { (plan : Plan) (r : Record) (outcome : Outcome) (lines : List Line) (worker : ℕ) (line : Line)
        → AreLines plan r outcome lines → slice_get lines worker ≡ Some line → list_of r worker ≡ line.first ++ (flat_map (λ spelt. spelt.items) line.spelt ++ (line.last ++ line.halts)) }
    ensures last { (plan : Plan) (r : Record) (outcome : Outcome) (lines : List Line) (worker : ℕ) (line : Line)
        → AreLines plan r outcome lines → slice_get lines worker ≡ Some line → line.last ≢ [] → ((next : Call) × (behind : List Call) × (line.rest ≡ next ∷ behind)) ⊎ ((line.rest ≡ []) × (has_dormant plan ≡ true)) }
    ensures place { (plan : Plan) (r : Record) (outcome : Outcome) (lines : List Line) (worker : ℕ) (line : Line) (i : ℕ) (spelt : SpeltCall)
        → AreLines plan r outcome lines → slice_get lines worker ≡ Some line → slice_get line.spelt i ≡ Some spelt
        → (place : ℕ) × (slice_get (places_from 0 (get_or plan.scripts worker []) (replies_of line)) i ≡ Some place) × (slice_get (get_or plan.scripts worker []) place ≡ Some spelt.call) }
    ensures next { (plan : Plan) (r : Record) (outcome : Outcome) (lines : List Line) (worker : ℕ) (line : Line) (i place after : ℕ) (spelt : SpeltCall)
        → AreLines plan r outcome lines → slice_get lines worker ≡ Some line → slice_get line.spelt i ≡ Some spelt
        → slice_get (places_from 0 (get_or plan.scripts worker []) (replies_of line)) i ≡ Some place → slice_get (places_from 0 (get_or plan.scripts worker []) (replies_of line)) (i + 1) ≡ Some after
        → after ≡ place + 1 + passed_over spelt.call spelt.reply }
    ensures between { (plan : Plan) (r : Record) (outcome : Outcome) (lines : List Line) (worker : ℕ) (line : Line) (i place after other j : ℕ)
        → AreLines plan r outcome lines → slice_get lines worker ≡ Some line
        → slice_get (places_from 0 (get_or plan.scripts worker []) (replies_of line)) i ≡ Some place → slice_get (places_from 0 (get_or plan.scripts worker []) (replies_of line)) (i + 1) ≡ Some after
        → place < other → other < after → slice_get (places_from 0 (get_or plan.scripts worker []) (replies_of line)) j ≢ Some other }
{
    calls_keep_their_places::<u32>();
    replies_tell_which_calls_were_made();
}
