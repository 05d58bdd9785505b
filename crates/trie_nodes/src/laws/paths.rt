//! Laws of the paths of keys.
ghost use Rattle.std.specs.Prelude.{◌≡◌, ◌≢◌, ℕ, ◌<◌, ◌≤◌, ◌^◌, length};
ghost use Rattle.trie_nodes.specs.Paths.{nibble, route};

/// A path has one nibble of each level, which is one of a node's 16 slots.
pub fn a_path_has_a_slot_of_each_level()
    ensures slot { (key seed level : ℕ) → nibble key seed level < 16 }
    ensures length { (seed level key : ℕ) → length (route seed level key) ≡ level }
{}

/// The paths of different keys part: they go together down to a node of some level, 0 to 7, and have different slots there. So no
/// two keys have the same 8 nibbles, and a node of level 7 has at most one key in each slot.
pub fn the_paths_of_different_keys_part()
    ensures part { (seed key other : ℕ) → seed < 2 ^ 32 → key < 2 ^ 32 → other < 2 ^ 32 → key ≢ other
        → (level : ℕ) × (level < 8) × (route seed level key ≡ route seed level other) × (nibble key seed level ≢ nibble other seed level) }
    ensures one_to_one { (seed key other : ℕ) → seed < 2 ^ 32 → key < 2 ^ 32 → other < 2 ^ 32
        → route seed 8 key ≡ route seed 8 other → key ≡ other }
{}

/// Two paths that go together as far as some level went together at each level above it.
pub fn paths_that_part_stay_apart()
    ensures route { (seed level below key other : ℕ) → level ≤ below
        → route seed below key ≡ route seed below other → route seed level key ≡ route seed level other }
    ensures nibble { (seed level below key other : ℕ) → level < below
        → route seed below key ≡ route seed below other → nibble key seed level ≡ nibble other seed level }
{}

/// No slot is in vain: each slot of each node on a key's path is the slot of some key.
pub fn each_slot_has_a_key()
    ensures { (seed key level slot : ℕ) → seed < 2 ^ 32 → level < 8 → slot < 16
        → (other : ℕ) × (other < 2 ^ 32) × (route seed level other ≡ route seed level key) × (nibble other seed level ≡ slot) }
{}
