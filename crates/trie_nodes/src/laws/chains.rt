//! Laws of chains as an expansion plans them.
ghost use Rattle.std.specs.Prelude.{◌≡◌, ◌≢◌, ◌==◌, ℕ, suc, ◌+◌, ◌<◌, Bool, IsTrue, if◌then◌else◌, List, Some, None, slice_index};
ghost use Rattle.trie_nodes.specs.Layout.{key_word, value_word};
ghost use Rattle.trie_nodes.specs.Paths.{nibble, route};
ghost use Rattle.trie_nodes.specs.Nodes.{slot_at, entry_value, stands_for, Shows};
ghost use Rattle.trie_nodes.specs.Plans.{IsChainAt, IsExpansion, IsPlannedChain, last_slots};

use crate::plan::Expansion;

/// A chain as planned leads to the entries of both keys, and to no other key.
pub fn a_chain_leads_to_both_entries()
    ensures held { (words : List ℕ) (seed level above first held key held_entry key_entry : ℕ) (plan : Expansion) → IsExpansion held key seed level plan
        → IsPlannedChain words seed key plan level above first held_entry key_entry → slice_index words (key_word held_entry) ≡ held → slice_index words (key_word key_entry) ≡ key
        → stands_for words seed level first held ≡ Some (slice_index words (value_word held_entry)) }
    ensures key { (words : List ℕ) (seed level above first held key held_entry key_entry : ℕ) (plan : Expansion) → IsExpansion held key seed level plan
        → IsPlannedChain words seed key plan level above first held_entry key_entry → slice_index words (key_word held_entry) ≡ held → slice_index words (key_word key_entry) ≡ key
        → stands_for words seed level first key ≡ Some (slice_index words (value_word key_entry)) }
    ensures others { (words : List ℕ) (seed level above first held key held_entry key_entry other : ℕ) (plan : Expansion) → IsExpansion held key seed level plan
        → IsPlannedChain words seed key plan level above first held_entry key_entry → slice_index words (key_word held_entry) ≡ held → slice_index words (key_word key_entry) ≡ key
        → other ≢ held → other ≢ key → stands_for words seed level first other ≡ None }
{}

/// A chain may be given by the places of its nodes.
pub fn a_chain_has_its_nodes_at_places()
    ensures { (words : List ℕ) (seed level above key held_entry key_entry : ℕ) (plan : Expansion) (place : ℕ → ℕ)
        → IsChainAt words seed key (last_slots plan held_entry key_entry) plan.nodes level above place
        → IsPlannedChain words seed key plan level above (place 0) held_entry key_entry }
{}

/// In each node of a planned chain the slot for a key on the node's path shows what the key has in the map once the chain is there:
/// the new value, or what the held entry gives it. So all nodes of the chain are in order at the moment of one write, the one to the
/// slot above them.
pub fn each_node_of_a_chain_shows_what_the_map_has()
    ensures { (words : List ℕ) (seed level above held key value held_entry key_entry : ℕ) (plan : Expansion) (place : ℕ → ℕ) (is_below : ℕ → ℕ → Bool)
        → IsExpansion held key seed level plan → IsChainAt words seed key (last_slots plan held_entry key_entry) plan.nodes level above place
        → slice_index words (key_word held_entry) ≡ held → slice_index words (key_word key_entry) ≡ key → slice_index words (value_word key_entry) ≡ value
        → ((i : ℕ) → suc i < plan.nodes → IsTrue (is_below (suc (level + i)) (place (suc i))))
        → (i other : ℕ) → i < plan.nodes → route seed (level + i) other ≡ route seed (level + i) key
        → Shows words seed (λ below. IsTrue (is_below (suc (level + i)) below)) (level + i) other
        (if other == key then Some value else entry_value words held_entry other) (slot_at words (place i) (nibble other seed (level + i))) }
{}
