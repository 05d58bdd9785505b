//! Numbers of the one order of all events, of calls on maps and atomics.
ghost use Rattle.std.specs.Prelude.{◌≡◌, ℕ, ◌<◌, List, length, take, Some, slice_get};
ghost use Rattle.sync_model.specs.declared.item.Item.{Item};
ghost use Rattle.sync_model.specs.SharedOrder.{IsAmong};
ghost use Rattle.run_record.specs.InOneOrder.{InOneOrder, NumbersRise, number_behind};
ghost use Rattle.run_record.specs.Record.{Record, list_of, shared_in};

use crate::made::Made;

/// A call in a worker's list is one of its calls on maps and atomics, and its number there is how many stand before it. Each of these
/// calls is such an item.
pub fn calls_are_items_of_lists()
    ensures at { (list : List Made) (i : ℕ) (x : Item) → slice_get list i ≡ Some (Made.Shared x) → slice_get (shared_in list) (length (shared_in (take i list))) ≡ Some x }
    ensures from { (list : List Made) (n : ℕ) (x : Item) → slice_get (shared_in list) n ≡ Some x → (i : ℕ) × (slice_get list i ≡ Some (Made.Shared x)) × (length (shared_in (take i list)) ≡ n) }
{}

/// In a record that is in one order each call on a map or an atomic has a number among those of the entries of the shared history: past
/// those before its place, and before those from its place on, or the same where it is the entry there.
pub fn calls_have_their_numbers_among_the_entries()
    ensures { (r : Record) (order : InOneOrder r) (worker i : ℕ) (x : Item) → slice_get (list_of r worker) i ≡ Some (Made.Shared x)
        → IsAmong order.entry_times x (number_behind (order.times worker) (take i (list_of r worker)) (Made.Shared x)) }
{}

/// Where the numbers of a worker's items rise from each item to the next, the later one of any two has the higher number.
pub fn numbers_that_rise_item_by_item_rise()
    ensures { (least : ℕ) (list : List Made) (times : List ℕ) (i j : ℕ) (x y : Made) → NumbersRise least list times
        → i < j → slice_get list i ≡ Some x → slice_get list j ≡ Some y → number_behind times (take i list) x < number_behind times (take j list) y }
{}
