//! Laws of what a walk through all slots finds.
ghost use Rattle.std.specs.Prelude.{◌≡◌, ℕ, ◌^◌, ◌<◌, List, [], Option, Some};
ghost use Rattle.trie_nodes.specs.Walks.{pairs_within, ShowsMap, ArePairsOf};

/// A walk through all slots of a map's nodes, from its root down, finds each key of the map once, with its value, and no other
/// key.
pub fn a_walk_finds_each_key_once()
    ensures { (words : List ℕ) (seed root : ℕ) (held : ℕ → Option ℕ) (node_at : List ℕ → Option ℕ) → seed < 2 ^ 32 → node_at [] ≡ Some root → ShowsMap words seed held node_at
        → ArePairsOf held (pairs_within words 8 root) }
{}
