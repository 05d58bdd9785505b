//! That calls with one list of items reply one thing, each `range` too. Each law is the contract of a function that does nothing.
ghost use Rattle.std.specs.Prelude.{◌≡◌, ℕ, List, map};
ghost use Rattle.sync_model.specs.declared.item.Item.{Item};
ghost use Rattle.sync_model.specs.declared.item.SharedEntry.{SharedEntry};
ghost use Rattle.workload.specs.Keys.{keys_in};
ghost use Rattle.workload.specs.Plan.{Plan};
ghost use Rattle.run_record.specs.Lines.{IsLineOf, Line, SpeltCall, items_of};
ghost use Rattle.run_record.specs.MapKind.{AreSorted};
ghost use Rattle.run_record.specs.Objects.{contents_of};
ghost use Rattle.run_record.specs.Record.{shared_in};
ghost use Rattle.run_cuts.specs.OneLine.{SettlesEach, settles_by};
ghost use Rattle.shared_checks.specs.Parts.{LawfulRanges};
ghost use Rattle.record_clauses.specs.PairOrder.{AreApart, RepliesApart, ShowKeys};

use workload::laws::keys_are_numbered_by_first_appearance;

/// A `range` replies its pairs sorted by the names of their keys. Pairs whose keys have different names are sorted in one order, so calls
/// that are told alike reply alike. Where the cursors of a worker's line show keys of the workload alone and keep the Range law, each
/// `range` of it shows different keys, and these have different names.
pub fn a_range_replies_in_one_order()
    ensures order { (keys : List (List ℕ)) (m : ℕ) (shown one other : List (ℕ × ℕ)) → AreApart keys shown → AreSorted keys m shown one → AreSorted keys m shown other → one ≡ other }
    ensures replies { (plan : Plan) (told one other : List SpeltCall) → RepliesApart (keys_in plan.scripts) other → SettlesEach (settles_by plan) told one → SettlesEach (settles_by plan) told other
        → map (λ spelt. spelt.reply) one ≡ map (λ spelt. spelt.reply) other }
    ensures apart { (plan : Plan) (worker : ℕ) (history : List SharedEntry) (calls : ℕ → List Item) (line : Line) → LawfulRanges (contents_of plan) history calls → ShowKeys (keys_in plan.scripts) (calls worker)
        → calls worker ≡ shared_in (items_of line) → IsLineOf plan worker line → RepliesApart (keys_in plan.scripts) line.spelt }
{
    keys_are_numbered_by_first_appearance();
}
