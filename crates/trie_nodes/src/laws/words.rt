//! Laws of the words: no two things share one.
ghost use Rattle.std.specs.Prelude.{◌≡◌, ◌≢◌, ◌⊎◌, ℕ, ◌+◌, ◌*◌, ◌^◌, ◌<◌, ◌≤◌};
ghost use Rattle.trie_nodes.specs.Layout.{atomic_word, root_word, gate_word, heads, first_root, first_room, unit_words, lock_word, parent_word, slot_word, key_word, value_word, held_word, dead_word};
ghost use Rattle.trie_nodes.specs.Slots.{word_of_slot, slot_in};

use crate::slot::Slot;

/// The words before the first node are each that of one thing: word 0 is nobody's, and no atomic, no map's root and no map's gate
/// shares a word with another.
pub fn heads_are_apart()
    ensures atomic { (atomics maps a : ℕ) → a < atomics → (0 < atomic_word a) × (atomic_word a < heads atomics maps) }
    ensures root { (atomics maps m : ℕ) → m < maps → (0 < root_word atomics m) × (root_word atomics m < heads atomics maps) }
    ensures gate { (atomics maps m : ℕ) → m < maps → (0 < gate_word atomics m) × (gate_word atomics m < heads atomics maps) }
    ensures atomics { (a b : ℕ) → atomic_word a ≡ atomic_word b → a ≡ b }
    ensures roots { (atomics m n : ℕ) → root_word atomics m ≡ root_word atomics n → m ≡ n }
    ensures gates { (atomics m n : ℕ) → gate_word atomics m ≡ gate_word atomics n → m ≡ n }
    ensures atomic_or_root { (atomics a m : ℕ) → a < atomics → atomic_word a ≢ root_word atomics m }
    ensures atomic_or_gate { (atomics a m : ℕ) → a < atomics → atomic_word a ≢ gate_word atomics m }
    ensures root_or_gate { (atomics m n : ℕ) → root_word atomics m ≢ gate_word atomics n }
{}

/// No other word shares a cache line with a map's root word or its gate: the root words, the gates, the atomics, and the nodes and
/// entries stand 16 words, which are 128 bytes, or more from each of them.
pub fn gates_and_roots_lie_alone()
    ensures root_and_gate { (atomics m n : ℕ) → (root_word atomics m + 16 ≤ gate_word atomics n) ⊎ (gate_word atomics n + 16 ≤ root_word atomics m) }
    ensures roots { (atomics m n : ℕ) → m < n → root_word atomics m + 16 ≤ root_word atomics n }
    ensures gates { (atomics m n : ℕ) → m < n → gate_word atomics m + 16 ≤ gate_word atomics n }
    ensures atomics { (atomics a m : ℕ) → a < atomics → (atomic_word a + 16 ≤ root_word atomics m) × (atomic_word a + 16 ≤ gate_word atomics m) }
    ensures nodes { (atomics maps m : ℕ) → m < maps → (root_word atomics m + 16 ≤ heads atomics maps) × (gate_word atomics m + 16 ≤ heads atomics maps) }
{}

/// The first roots stand behind them, each in 18 words of its own, and the callers' room stands behind the roots. One unit of the
/// room is enough for an entry and for as many nodes as an expansion can ask for.
pub fn roots_and_room_are_apart()
    ensures first { (atomics maps m : ℕ) → heads atomics maps ≤ first_root atomics maps m }
    ensures roots { (atomics maps m n : ℕ) → m < n → first_root atomics maps m + 18 ≤ first_root atomics maps n }
    ensures room { (atomics maps m : ℕ) → m < maps → first_root atomics maps m + 18 ≤ first_room atomics maps }
    ensures unit { (level nodes : ℕ) → 0 < level → level + nodes ≤ 8 → 2 + 18 * nodes ≤ unit_words }
{}

/// The words of a node lie apart, within its 18, and those of an entry within its two. A lock's word says who holds it, or that nobody
/// does, or that the node is dead.
pub fn words_of_nodes_and_entries_are_apart()
    ensures node { (node slot : ℕ) → slot < 16 → (node ≤ lock_word node) × (lock_word node < parent_word node) × (parent_word node < slot_word node slot) × (slot_word node slot < node + 18) }
    ensures slots { (node a b : ℕ) → slot_word node a ≡ slot_word node b → a ≡ b }
    ensures entry { (entry : ℕ) → (entry ≤ key_word entry) × (key_word entry < value_word entry) × (value_word entry < entry + 2) }
    ensures held { (caller : ℕ) → caller + 1 < 2 ^ 32 → (0 < held_word caller) × (held_word caller < dead_word) }
    ensures holders { (a b : ℕ) → held_word a ≡ held_word b → a ≡ b }
{}

/// A word says one thing, and what it says has no other word. Place 0 is no node's.
pub fn a_word_is_that_of_one_slot()
    ensures word { (word : ℕ) → word_of_slot (slot_in word) ≡ word }
    ensures empty { slot_in (word_of_slot Slot.Empty) ≡ Slot.Empty }
    ensures node { (place : ℕ) → 0 < place → slot_in (word_of_slot (Slot.Node place)) ≡ Slot.Node place }
    ensures entry { (place : ℕ) → slot_in (word_of_slot (Slot.Entry place)) ≡ Slot.Entry place }
{}
