//! What a front knows, as a number. Each law is the contract of a function that does nothing.
ghost use Rattle.std.specs.Prelude.{◌≡◌, ℕ, ◌≤◌, List, Option, Some, length, slice_get};
ghost use Rattle.sync_model.specs.SharedCalls.{Knows, WasSo};
ghost use Rattle.sync_model.specs.SharedHistory.{Contents, value_at, contents_at};
ghost use Rattle.workload.specs.Plan.{Plan};
ghost use Rattle.run_record.specs.Explains.{IsRecordOf};
ghost use Rattle.run_record.specs.Record.{Record, calls_of};
ghost use Rattle.run_laws.specs.Known.{known, CountsMade};

use sync_model::item::{Item, SharedEntry};

/// All that a front knows lies within the first n entries exactly where it counts calls that were made, and n is at least the number
/// that `known` computes. So that number is the least.
pub fn what_a_front_knows_is_a_number()
    ensures made { (calls : ℕ → List Item) (front : List ℕ) (n : ℕ) → Knows calls front n → CountsMade calls front }
    ensures at_least { (calls : ℕ → List Item) (front : List ℕ) (n : ℕ) → Knows calls front n → known calls front ≤ n }
    ensures and_any { (calls : ℕ → List Item) (front : List ℕ) (n : ℕ) → CountsMade calls front → known calls front ≤ n → Knows calls front n }
{}

/// A key was so at some moment exactly where it was so behind a number of entries from `known` up to the reach.
pub fn a_moment_is_a_number_of_entries()
    ensures from { (start : Contents) (history : List SharedEntry) (calls : ℕ → List Item) (front : List ℕ) (reach m key : ℕ) (value : Option ℕ)
        → WasSo start history calls front reach m key value
        → (n : ℕ) × (known calls front ≤ n) × (n ≤ reach) × (value_at (contents_at start history n) m key ≡ value) }
    ensures to { (start : Contents) (history : List SharedEntry) (calls : ℕ → List Item) (front : List ℕ) (reach m key n : ℕ) (value : Option ℕ)
        → CountsMade calls front → known calls front ≤ n → n ≤ reach → value_at (contents_at start history n) m key ≡ value
        → WasSo start history calls front reach m key value }
{
    what_a_front_knows_is_a_number();
}

/// In the record of a run the place of each call is at least what its front knows.
pub fn no_call_lies_before_what_its_worker_knew()
    ensures { (plan : Plan) (r : Record) (worker j : ℕ) (x : Item)
        → IsRecordOf plan r → slice_get (calls_of r worker) j ≡ Some x → known (calls_of r) x.front ≤ x.place }
{
    what_a_front_knows_is_a_number();
}
