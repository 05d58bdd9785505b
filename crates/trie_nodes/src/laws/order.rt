//! Laws of the order in which a walk through a map meets the keys.
ghost use Rattle.std.specs.Prelude.{◌≡◌, ◌↔◌, ◌⊎◌, ℕ, suc, [], ◌∷◌, ◌++◌, List, length};
ghost use Rattle.trie_nodes.specs.Paths.{route, Passed};

/// A walk that goes by slots from 0 up, deep first, passes each key once. It begins with no key behind it and ends with all. Where
/// it goes on by one slot it passes the keys of this slot, none of which it had passed, and no others. Going down into a node, and
/// up again behind its last slot, it passes none.
pub fn a_walk_passes_each_key_once()
    ensures begins { (seed key : ℕ) → Passed seed 0 (0 ∷ []) key → ⊥ }
    ensures ends { (seed key : ℕ) → Passed seed 0 (16 ∷ []) key }
    ensures goes_on { (seed slot key : ℕ) (slots : List ℕ)
        → Passed seed 0 (slots ++ suc slot ∷ []) key ↔ (Passed seed 0 (slots ++ slot ∷ []) key ⊎ (route seed (suc (length slots)) key ≡ slots ++ slot ∷ [])) }
    ensures once { (seed slot key : ℕ) (slots : List ℕ)
        → route seed (suc (length slots)) key ≡ slots ++ slot ∷ [] → Passed seed 0 (slots ++ slot ∷ []) key → ⊥ }
    ensures goes_down { (seed slot key : ℕ) (slots : List ℕ)
        → Passed seed 0 (slots ++ slot ∷ 0 ∷ []) key ↔ Passed seed 0 (slots ++ slot ∷ []) key }
    ensures goes_up { (seed slot key : ℕ) (slots : List ℕ)
        → Passed seed 0 (slots ++ slot ∷ 16 ∷ []) key ↔ Passed seed 0 (slots ++ suc slot ∷ []) key }
{}
