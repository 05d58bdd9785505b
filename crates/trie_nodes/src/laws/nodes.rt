//! Laws of what a node stands for.
ghost use Rattle.std.specs.Prelude.{◌≡◌, ◌≢◌, ℕ, suc, ◌<◌, ◌≤◌, ◌==◌, if◌then◌else◌, Bool, IsTrue, List, Option, Some, None, slice_index};
ghost use Rattle.trie_nodes.specs.Layout.{slot_word, key_word, value_word};
ghost use Rattle.trie_nodes.specs.Paths.{nibble};
ghost use Rattle.trie_nodes.specs.Nodes.{slot_at, entry_value, slot_value, Belongs, ChangesSlot, IsFreeFor, stands_for, Shows};

use crate::slot::Slot;

/// A node gives a key what its slot for the key gives: nothing, where the slot is empty; the value of the entry in it, where it is
/// the key's own; and else what the node below gives. There are levels 0 to 7.
pub fn a_node_gives_what_its_slot_gives()
    ensures slot { (words : List ℕ) (seed level node key : ℕ) → level < 8
        → stands_for words seed level node key
        ≡ slot_value words (λ below. stands_for words seed (suc level) below key) (slot_at words node (nibble key seed level)) key }
    ensures own { (words : List ℕ) (entry key : ℕ) → slice_index words (key_word entry) ≡ key
        → entry_value words entry key ≡ Some (slice_index words (value_word entry)) }
    ensures other { (words : List ℕ) (entry key : ℕ) → slice_index words (key_word entry) ≢ key → entry_value words entry key ≡ None }
    ensures levels { (words : List ℕ) (seed level node key : ℕ) → 8 ≤ level → stands_for words seed level node key ≡ None }
{}

/// A node whose slots are all empty stands for a map without keys.
pub fn an_empty_node_stands_for_nothing()
    ensures { (words : List ℕ) (seed level node key : ℕ) → ((slot : ℕ) → slot < 16 → slice_index words (slot_word node slot) ≡ 0)
        → stands_for words seed level node key ≡ None }
{}

/// Words that don't belong to a node say nothing of what it stands for.
pub fn other_words_dont_matter()
    ensures { (old new : List ℕ) (seed level node key : ℕ) → ((i : ℕ) → Belongs old level node i → slice_index new i ≡ slice_index old i)
        → stands_for new seed level node key ≡ stands_for old seed level node key }
{}

/// A write to one slot of a node changes only what the node gives the keys of this slot.
pub fn a_slot_concerns_its_own_keys()
    ensures { (old new : List ℕ) (seed level node slot key : ℕ) → level < 8 → slot < 16 → ChangesSlot old new level node slot → nibble key seed level ≢ slot
        → stands_for new seed level node key ≡ stands_for old seed level node key }
{}

/// Where a node's slot for a key is empty, or has the key's own entry, one write to it stores the key or deletes it, and changes
/// no other key.
pub fn a_write_to_a_free_slot_changes_one_key()
    ensures stores { (old new : List ℕ) (seed level node key value entry other : ℕ) → level < 8 → ChangesSlot old new level node (nibble key seed level)
        → IsFreeFor old key (slot_at old node (nibble key seed level)) → slot_at new node (nibble key seed level) ≡ Slot.Entry entry
        → slice_index new (key_word entry) ≡ key → slice_index new (value_word entry) ≡ value
        → stands_for new seed level node other ≡ (if other == key then Some value else stands_for old seed level node other) }
    ensures deletes { (old new : List ℕ) (seed level node key other : ℕ) → level < 8 → ChangesSlot old new level node (nibble key seed level)
        → IsFreeFor old key (slot_at old node (nibble key seed level)) → slot_at new node (nibble key seed level) ≡ Slot.Empty
        → stands_for new seed level node other ≡ (if other == key then None else stands_for old seed level node other) }
{}

/// Where each node of a map shows in its slot for a key what the key has in the map, each of them stands for a map in which the
/// key has that.
pub fn nodes_stand_for_what_their_slots_show()
    ensures { (words : List ℕ) (seed key : ℕ) (held : Option ℕ) (is_node : ℕ → ℕ → Bool)
        → ((level node : ℕ) → level < 8 → IsTrue (is_node level node)
        → Shows words seed (λ below. IsTrue (is_node (suc level) below)) level key held (slot_at words node (nibble key seed level)))
        → (level node : ℕ) → level < 8 → IsTrue (is_node level node) → stands_for words seed level node key ≡ held }
{}
