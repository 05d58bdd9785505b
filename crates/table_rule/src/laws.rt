//! What the rule is for, in the words of whoever uses a table. Each law is the contract of a function that does nothing. They speak of
//! any state of a table in which the rule holds (`Kept`): so it is at every moment, whatever the seats do.
ghost use Rattle.std.specs.Prelude.{◌≡◌, ◌≢◌, ◌⊎◌, ℕ, suc, ◌+◌, ◌*◌, ◌^◌, ◌<◌, ◌≤◌, true, false, Bool, Contains, Some, None, length, slice_get, slice_index};
ghost use Rattle.atomic_table.specs.Table.{Me, Allows};
ghost use Rattle.sync_model.specs.Journal.{Begins};
ghost use Rattle.sync_model.specs.SharedHistory.{value_at, contents_at, contents_after};
ghost use Rattle.trie_nodes.specs.declared.slot.Slot.TheVariants.{Node};
ghost use Rattle.trie_nodes.specs.Layout.{atomic_word, slot_word, unit_words, dead_word};
ghost use Rattle.trie_nodes.specs.Nodes.{slot_at, stands_for};
ghost use Rattle.trie_nodes.specs.Paths.{nibble, route};
ghost use Rattle.table_rule.specs.declared.begin.Begin.{Begin};
ghost use Rattle.table_rule.specs.declared.view.CutNode.{CutNode};
ghost use Rattle.table_rule.specs.declared.view.Gate.TheVariants.{Inside, Closed};
ghost use Rattle.table_rule.specs.declared.view.Leaf.{Leaf};
ghost use Rattle.table_rule.specs.declared.view.Own.{Own};
ghost use Rattle.table_rule.specs.declared.view.View.{View};
ghost use Rattle.table_rule.specs.Layout.{root_word, gate_word};
ghost use Rattle.table_rule.specs.LawWords.{IsSeat, StandsFor, AllAtRest};
ghost use Rattle.table_rule.specs.Owed.{HoldsLock};
ghost use Rattle.table_rule.specs.Rule.{TableState, Kept};
ghost use Rattle.table_rule.specs.Shape.{start_of};
ghost use Rattle.table_rule.specs.Unused.{IsLeftOut};
ghost use Rattle.table_rule.specs.Views.{IsIdle};

pub mod steps;

use sync_model::laws::shared_steps::histories_go_on;
use trie_nodes::laws::nodes::{
    an_empty_node_stands_for_nothing, nodes_stand_for_what_their_slots_show,
};

/// What a map's root stands for is the map of one thread after the whole history. A node that was cut off stands, for the keys of its
/// path, for what the map had at the length of the history at which it was cut off, which is never more than the history's.
pub fn a_root_stands_for_the_map_after_the_whole_history()
    ensures root { (k : Begin) (s : TableState) (r : Kept k s) (m key : ℕ) → m < k.maps → key < 2 ^ 32
        → stands_for s.words k.seed 0 (slice_index s.words (root_word k m)) key ≡ value_at (contents_after (start_of k) r.log) m key }
    ensures cut_off { (k : Begin) (s : TableState) (r : Kept k s) (p level key moment : ℕ) → r.shape.kind_of p ≡ 1 → r.shape.cut_of p ≡ Some moment
        → level < 8 → key < 2 ^ 32 → r.shape.path_of p ≡ route k.seed level key
        → stands_for s.words k.seed level p key ≡ value_at (contents_at (start_of k) r.log moment) (r.shape.map_of p) key }
    ensures earlier { (k : Begin) (s : TableState) (r : Kept k s) (p moment : ℕ) → r.shape.kind_of p ≡ 1 → r.shape.cut_of p ≡ Some moment → moment ≤ length r.log }
{
    histories_go_on();
    nodes_stand_for_what_their_slots_show();
}

/// A dead node has only empty slots, and so stands for nothing.
pub fn a_dead_node_is_empty()
    ensures slots { (k : Begin) (s : TableState) (r : Kept k s) (p slot : ℕ) → r.shape.kind_of p ≡ 1 → slice_index s.words p ≡ dead_word → slot < 16
        → slice_index s.words (slot_word p slot) ≡ 0 }
    ensures nothing { (k : Begin) (s : TableState) (r : Kept k s) (p level key : ℕ) → r.shape.kind_of p ≡ 1 → slice_index s.words p ≡ dead_word
        → stands_for s.words k.seed level p key ≡ None }
{
    an_empty_node_stands_for_nothing();
}

/// A node that a seat has cut off never changes again, whatever the seats do: a node that it pruned, and a root that it cleared. The seat's
/// view keeps the moment of the cut, as the history before it, and the 18 words that the node had then. At every moment from then on the
/// node has these words (`words`), which so are the same at any two moments (`same`). And what it stands for, with all that is below it, is
/// what its map had at the moment of the cut (`stands`), whichever moment one looks at (`stays`). The nodes below it were cut off at the same
/// moment (`below`). It is cut off for ever: no root word names it, and no slot of a reachable node leads to it. Where its lock word says
/// that it is dead, as that of a pruned node does, it is empty and stands for nothing. That a seat forgets no node that it has cut off is a
/// law of its steps, in `steps`.
pub fn a_node_that_was_cut_off_never_changes()
    ensures words { (k : Begin) (s : TableState) (r : Kept k s) (j n : ℕ) (v : View) (d : CutNode) → IsSeat s j v → Contains v.cut d → n < 18
        → slice_index s.words (d.node + n) ≡ slice_index d.words n }
    ensures same { (k : Begin) (s t : TableState) → Kept k s → Kept k t → (i j n : ℕ) (u v : View) (d : CutNode) → IsSeat s i u → IsSeat t j v → Contains u.cut d → Contains v.cut d
        → n < 18 → slice_index s.words (d.node + n) ≡ slice_index t.words (d.node + n) }
    ensures moment { (k : Begin) (s : TableState) (r : Kept k s) (j : ℕ) (v : View) (d : CutNode) → IsSeat s j v → Contains v.cut d
        → (r.shape.cut_of d.node ≡ Some (length d.before)) × Begins r.log d.before }
    ensures stands { (k : Begin) (s : TableState) (r : Kept k s) (j key : ℕ) (v : View) (d : CutNode) → IsSeat s j v → Contains v.cut d
        → key < 2 ^ 32 → route k.seed d.level key ≡ route k.seed d.level d.key
        → stands_for s.words k.seed d.level d.node key ≡ value_at (contents_after (start_of k) d.before) d.map key }
    ensures stays { (k : Begin) (s t : TableState) → Kept k s → Kept k t → (i j key : ℕ) (u v : View) (d : CutNode) → IsSeat s i u → IsSeat t j v → Contains u.cut d → Contains v.cut d
        → key < 2 ^ 32 → route k.seed d.level key ≡ route k.seed d.level d.key
        → stands_for s.words k.seed d.level d.node key ≡ stands_for t.words k.seed d.level d.node key }
    ensures below { (k : Begin) (s : TableState) (r : Kept k s) (j p node level key : ℕ) (v : View) (d : CutNode) → IsSeat s j v → Contains v.cut d
        → r.shape.kind_of p ≡ 1 → r.shape.cut_of p ≡ Some (length d.before) → level < 8 → key < 2 ^ 32 → r.shape.path_of p ≡ route k.seed level key
        → slot_at s.words p (nibble key k.seed level) ≡ Node node → r.shape.cut_of node ≡ Some (length d.before) }
    ensures no_root { (k : Begin) (s : TableState) (r : Kept k s) (j m : ℕ) (v : View) (d : CutNode) → IsSeat s j v → Contains v.cut d → m < k.maps
        → slice_index s.words (root_word k m) ≢ d.node }
    ensures no_slot { (k : Begin) (s : TableState) (r : Kept k s) (j p level key : ℕ) (v : View) (d : CutNode) → IsSeat s j v → Contains v.cut d
        → r.shape.kind_of p ≡ 1 → r.shape.cut_of p ≡ None → level < 8 → key < 2 ^ 32 → r.shape.path_of p ≡ route k.seed level key
        → slot_at s.words p (nibble key k.seed level) ≢ Node d.node }
    ensures empty { (k : Begin) (s : TableState) (r : Kept k s) (j slot : ℕ) (v : View) (d : CutNode) → IsSeat s j v → Contains v.cut d
        → slice_index d.words 0 ≡ dead_word → slot < 16 → slice_index s.words (slot_word d.node slot) ≡ 0 }
    ensures nothing { (k : Begin) (s : TableState) (r : Kept k s) (j level key : ℕ) (v : View) (d : CutNode) → IsSeat s j v → Contains v.cut d
        → slice_index d.words 0 ≡ dead_word → stands_for s.words k.seed level d.node key ≡ None }
{
    histories_go_on();
    nodes_stand_for_what_their_slots_show();
    an_empty_node_stands_for_nothing();
}

/// A seat that holds the lock of a node is inside of the gate of the node's map, and the node is reachable. The node's lock word is that
/// of the seat's caller, or says that the node is dead, so no other seat holds the lock. And the other way round: a reachable node whose
/// lock word is that of a caller is one whose lock the caller's seat holds.
pub fn a_lock_is_one_seats()
    ensures inside { (k : Begin) (s : TableState) (r : Kept k s) (j p : ℕ) (v : View) → IsSeat s j v → HoldsLock v p
        → (m : ℕ) × (v.gate ≡ Inside m) × (r.shape.kind_of p ≡ 1) × (r.shape.map_of p ≡ m) × (r.shape.cut_of p ≡ None) }
    ensures word { (k : Begin) (s : TableState) (r : Kept k s) (j p : ℕ) (v : View) → IsSeat s j v → HoldsLock v p
        → (slice_index s.words p ≡ suc v.number) ⊎ (slice_index s.words p ≡ dead_word) }
    ensures counted { (k : Begin) (s : TableState) (r : Kept k s) (j m : ℕ) (v : View) → IsSeat s j v → v.gate ≡ Inside m
        → (m < k.maps) × (r.shape.inside m v.number ≡ true) × (0 < slice_index s.words (gate_word k m)) }
    ensures one { (k : Begin) (s : TableState) (r : Kept k s) (i j p : ℕ) (u v : View) → IsSeat s i u → IsSeat s j v → HoldsLock u p → HoldsLock v p → i ≡ j }
    ensures named { (k : Begin) (s : TableState) (r : Kept k s) (j p caller : ℕ) (v : View) → IsSeat s j v → StandsFor v caller
        → r.shape.kind_of p ≡ 1 → r.shape.cut_of p ≡ None → slice_index s.words p ≡ suc caller → HoldsLock v p }
{}

/// A gate is closed by one seat. Where that seat knows that nobody is inside, the gate's word counts no writer.
pub fn a_closed_gate_is_one_seats()
    ensures one { (k : Begin) (s : TableState) (r : Kept k s) (i j m : ℕ) (u v : View) (a b : Bool) → IsSeat s i u → IsSeat s j v
        → u.gate ≡ Closed m a → v.gate ≡ Closed m b → i ≡ j }
    ensures word { (k : Begin) (s : TableState) (r : Kept k s) (j m : ℕ) (v : View) (alone : Bool) → IsSeat s j v → v.gate ≡ Closed m alone
        → 2 ^ 32 ≤ slice_index s.words (gate_word k m) }
    ensures nobody { (k : Begin) (s : TableState) (r : Kept k s) (j m : ℕ) (v : View) → IsSeat s j v → v.gate ≡ Closed m true
        → slice_index s.words (gate_word k m) ≡ 2 ^ 32 }
{}

/// A published entry never changes: its words are what a seat read there, whatever has happened since.
pub fn an_entry_stays_as_it_was_read()
    ensures { (k : Begin) (s : TableState) (r : Kept k s) (j : ℕ) (v : View) (l : Leaf) → IsSeat s j v → v.leaf ≡ Some l
        → (slice_index s.words l.place ≡ l.key) × (slice_index s.words (l.place + 1) ≡ l.value) }
{}

/// A caller between two calls holds no node, is outside of all gates, and has closed none. This says so of the words: no reachable
/// node's lock word is the caller's, and where all callers are between two calls each gate's word is 0.
pub fn a_caller_between_two_calls_holds_nothing()
    ensures node { (k : Begin) (s : TableState) (r : Kept k s) (j p caller : ℕ) (v : View) → IsSeat s j v → IsIdle v → StandsFor v caller
        → r.shape.kind_of p ≡ 1 → r.shape.cut_of p ≡ None → slice_index s.words p ≢ suc caller }
    ensures gate { (k : Begin) (s : TableState) (r : Kept k s) (j m caller : ℕ) (v : View) → IsSeat s j v → IsIdle v → StandsFor v caller
        → (r.shape.inside m caller ≡ false) × (r.shape.closed_by m ≢ suc caller) }
    ensures open { (k : Begin) (s : TableState) (r : Kept k s) (m : ℕ) → AllAtRest k s → m < k.maps → slice_index s.words (gate_word k m) ≡ 0 }
{}

/// A word that nothing uses is 0 at every moment. Word 0 is one, which a cursor reads at its end, and so are the other words that the
/// layout leaves out (`left_out`). No step on such a word is allowed that leaves anything else there (`no_step`). Behind what a caller has
/// drafted its room is 0 (`room`), and so are the words that it went past without using them, and those at the end of a room that was
/// used up: a word that isn't 0 is an atomic's, a map's root word or gate, a word of a node or an entry, or one that a caller has drafted
/// (`used`).
pub fn words_that_nothing_uses_stay_0()
    ensures first { (k : Begin) (s : TableState) → Kept k s → slice_index s.words 0 ≡ 0 }
    ensures left_out { (k : Begin) (s : TableState) → Kept k s → (i : ℕ) → IsLeftOut k i → slice_index s.words i ≡ 0 }
    ensures no_step { (k : Begin) (s : TableState) → Kept k s → (id i : ℕ) (me : Me (Unit {0}) View) (f : ℕ → ℕ)
        → IsSeat s id me.0 → IsLeftOut k i → Allows (Kept k) (length s.homes) id me i f (λ found after. Unit {0}) → f 0 ≡ 0 }
    ensures room { (k : Begin) (s : TableState) (r : Kept k s) (j n i : ℕ) (v : View) (own : Own) → IsSeat s j v → slice_get v.owns n ≡ Some own → length own.draft ≤ i
        → i < unit_words * own.spare → slice_index s.words (own.next + i) ≡ 0 }
    ensures used { (k : Begin) (s : TableState) (r : Kept k s) (i : ℕ) → 0 < slice_index s.words i
        → ((a : ℕ) → a < length k.kinds → i ≢ atomic_word a) → ((m : ℕ) → m < k.maps → (i ≢ root_word k m) × (i ≢ gate_word k m))
        → ((p : ℕ) → r.shape.kind_of p ≡ 1 → p ≤ i → i < p + 18 → ⊥) → ((p : ℕ) → r.shape.kind_of p ≡ 2 → p ≤ i → i < p + 2 → ⊥)
        → ((j n : ℕ) (v : View) (own : Own) → IsSeat s j v → slice_get v.owns n ≡ Some own → own.next ≤ i → i < own.next + length own.draft → ⊥) → ⊥ }
{}
