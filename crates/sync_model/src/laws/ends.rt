//! The ends that a report shows, by the names of the maps' keys.
ghost use Rattle.std.specs.Prelude.{◌≡◌, ◌≢◌, ℕ, List, map, Contains, Some, None};
ghost use Rattle.std.specs.Ordering.{nat_cmp};
ghost use Rattle.std.specs.Cmp.Lexicographic.{slice_cmp};
ghost use Rattle.std.specs.FinMap.{FinMap, entries, get};
ghost use Rattle.sync_model.specs.SharedHistory.{Contents};
ghost use Rattle.sync_model.specs.EndsByName.{by_name, ends_by_name, AreInNameOrder, HasKeysAmong};
ghost use Rattle.sync_model.specs.EndsOfHistory.{ends_by};

/// A map by name has under each key's name what the map has under the key, and nothing under any other word.
pub fn maps_by_name_have_the_same_values()
    ensures value { (name : ℕ → List ℕ) (number : List ℕ → ℕ) (m : FinMap nat_cmp ℕ) → ((key value : ℕ) → get m key ≡ Some value → number (name key) ≡ key)
        → (key : ℕ) → number (name key) ≡ key → get (by_name name m) (name key) ≡ get m key }
    ensures none { (name : ℕ → List ℕ) (number : List ℕ → ℕ) (m : FinMap nat_cmp ℕ) → ((key value : ℕ) → get m key ≡ Some value → number (name key) ≡ key)
        → (word : List ℕ) → name (number word) ≢ word → get (by_name name m) word ≡ None }
{}

/// Where an order has all keys that are there, in byte order of their names, the ends by this order are those of the maps
/// by name. `ends_by_name` has the maps' keys in byte order of their names too, and shows each by its number.
pub fn ends_are_in_name_order()
    ensures { (name : ℕ → List ℕ) (number : List ℕ → ℕ) (order atomics maps : List ℕ) (contents : Contents) → AreInNameOrder name number order → HasKeysAmong order contents
        → ends_by order atomics maps contents ≡ ends_by_name name number atomics maps contents }
{}

/// The numbers of a table of names, as they stand by name, are keys in byte order of their names, and all keys of the table.
pub fn numbers_by_name_are_in_name_order()
    ensures order { (name : ℕ → List ℕ) (number : List ℕ → ℕ) (numbers : FinMap (slice_cmp nat_cmp) ℕ) → ((word : List ℕ) (key : ℕ) → get numbers word ≡ Some key → (name key ≡ word) × (number word ≡ key))
        → AreInNameOrder name number (map (λ entry. entry.1) (entries numbers)) }
    ensures all { (numbers : FinMap (slice_cmp nat_cmp) ℕ) (word : List ℕ) (key : ℕ) → get numbers word ≡ Some key → Contains (map (λ entry. entry.1) (entries numbers)) key }
{}
