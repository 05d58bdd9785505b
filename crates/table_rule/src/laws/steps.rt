//! What the steps are for, in the words of whoever counts a load's reads or a caller's room, or asks what stays for ever. Each law is
//! the contract of a function that does nothing.
ghost use Rattle.std.specs.Prelude.{◌≡◌, ℕ, suc, ◌+◌, ◌*◌, ◌≤◌, Bool, List, ◌∷◌, ◌++◌, length, Some, slice_get, slice_index};
ghost use Rattle.atomic_table.specs.Table.{Me};
ghost use Rattle.sync_model.specs.Shared.{cost_of};
ghost use Rattle.sync_types.specs.declared.atomic_object.AtomicCall.{AtomicCall};
ghost use Rattle.sync_types.specs.declared.atomic_object.AtomicKind.{AtomicKind};
ghost use Rattle.sync_types.specs.declared.map_object.MapCall.{MapCall};
ghost use Rattle.sync_model.specs.Journal.{Begins};
ghost use Rattle.table_rule.specs.declared.view.CutNode.{CutNode};
ghost use Rattle.table_rule.specs.declared.view.Lock.{Lock};
ghost use Rattle.trie_nodes.specs.Layout.{dead_word};
ghost use Rattle.table_rule.specs.declared.view.Own.{Own};
ghost use Rattle.table_rule.specs.declared.view.Spot.{Spot};
ghost use Rattle.table_rule.specs.declared.view.View.{View};
ghost use Rattle.table_rule.specs.declared.view.Walk.{Walk};
ghost use Rattle.table_rule.specs.Views.{copied, dealt, kept, joined, next_in, IsIdle, Looks};
ghost use Rattle.table_rule.specs.Clearing.{TriedClose, SeesAlone, Clears};
ghost use Rattle.table_rule.specs.Cursors.{cursor_seat, mounted, unmounted, BeginsCursor, GoesUp, ShowsNone, SweepsIn};
ghost use Rattle.table_rule.specs.Making.{used_in, FindsHeld, Publishes};
ghost use Rattle.table_rule.specs.Operations.{Operates};
ghost use Rattle.table_rule.specs.Pruning.{CutsOff, Marks, ReadsParent, SeesSlot, TriedUpper};
ghost use Rattle.table_rule.specs.Walking.{told_at, Enters, FindsIn, IsUncounted, KeepsValue, ReadsKey, ReadsValue};
ghost use Rattle.table_rule.specs.Writing.{CameIn, Drafts, GoesOut, TriedLock, Unlocks};
ghost use Rattle.trie_nodes.specs.declared.slot.Slot.{Slot};

/// Nobody counts the reads of a seat that is inside of a gate, or has a cursor. A load's seat never is such a one: no seat is between two
/// calls, and none of a load's steps makes it one, which are the reads of a root word, of a slot and of an entry. Nor do copies of seats
/// and joins with such as have no cursor.
pub fn a_loads_reads_are_counted()
    ensures idle { (v : View) → IsIdle v → IsUncounted v → ⊥ }
    ensures enters { (m key time found : ℕ) (before after : Me (Unit {0}) View) → Enters m key (told_at time before) found after → IsUncounted after.0 → IsUncounted before.0 }
    ensures finds { (call : MapCall ℕ) (w : Walk) (slot : Slot) (before after : View) → FindsIn call w slot before after → IsUncounted after → IsUncounted before }
    ensures reads_key { (found : ℕ) (before after : Me (Unit {0}) View) → ReadsKey before found after → IsUncounted after.0 → IsUncounted before.0 }
    ensures reads_value { (found : ℕ) (before after : Me (Unit {0}) View) → ReadsValue before found after → IsUncounted after.0 → IsUncounted before.0 }
    ensures copies { (v : View) → IsUncounted (copied v) → IsUncounted v }
    ensures joins { (v w : View) → IsUncounted (joined v w) → IsUncounted v }
    ensures lets_go { (v : View) → IsUncounted (unmounted v) → IsUncounted v }
    ensures mounts { (time : ℕ) (v w : View) → IsIdle w → IsUncounted (mounted time v w) → IsUncounted v }
{}

/// How many words of its room a call uses, behind which its caller goes on. One that shows an entry, or removes one, uses two; one that
/// shows a chain of nodes uses these two and 18 for each node; a clear uses the 18 of its new root; and a call that changes nothing
/// uses none.
pub fn a_call_uses_the_words_that_it_shows()
    ensures entry { (own : Own) (owns : List Own) → length own.draft ≤ 2 → used_in (own ∷ owns) ≡ 2 }
    ensures chain { (own : Own) (owns : List Own) (nodes : ℕ) → length own.draft ≡ 2 + 18 * nodes → used_in (own ∷ owns) ≡ 2 + 18 * nodes }
    ensures write { (m : ℕ) (call : MapCall ℕ) (words : ℕ) (l : Lock) (own : Own) (owns : List Own) (before after : Me (Unit {0}) View)
        → cost_of call ≡ 1 → before.0.lock ≡ Some l → before.0.owns ≡ own ∷ owns → Publishes m call words before after → next_in 0 after.0.owns ≡ own.next + words }
    ensures clear { (m : ℕ) (own : Own) (owns : List Own) (before after : Me (Unit {0}) View) → before.0.owns ≡ own ∷ owns → Clears m before after → next_in 0 after.0.owns ≡ own.next + 18 }
    ensures nothing { (call : MapCall ℕ) (w : Walk) (slot : Slot) (own : Own) (owns : List Own) (before after : View) → before.owns ≡ own ∷ owns → FindsIn call w slot before after → next_in 0 after.owns ≡ own.next }
{}

/// A seat forgets no node that it has cut off. One more is there where it prunes one (`cuts_off`), and where it clears a root (`clears`).
/// With it the view keeps the history before the step: of a pruned node all that the seat had seen, at least, and of a cleared root all
/// but the clear's own entry. A pruned node is dead. Every other step leaves them as they are, and so do copies: whoever copies a seat, or
/// lets a caller of it go, knows them still, and the new seat knows them too. A seat that took in another knows those of both.
pub fn a_seat_forgets_no_node_that_it_cut_off()
    ensures cuts_off { (l u : Lock) (before after : Me (Unit {0}) View) → before.0.lock ≡ Some l → before.0.upper ≡ Some u → CutsOff before after
        → (d : CutNode) × (d.node ≡ l.node) × Begins d.before before.0.seen × (slice_index d.words 0 ≡ dead_word) × (after.0.cut ≡ d ∷ before.0.cut) }
    ensures looks_at_slot { (l : Lock) (found : ℕ) (empty : Bool) (before after : Me (Unit {0}) View) → SeesSlot l found empty before after → after.0.cut ≡ before.0.cut }
    ensures reads_parent { (found : ℕ) (before after : Me (Unit {0}) View) → ReadsParent before found after → after.0.cut ≡ before.0.cut }
    ensures tries_upper { (l : Lock) (free : Bool) (before after : Me (Unit {0}) View) → TriedUpper l free before after → after.0.cut ≡ before.0.cut }
    ensures marks { (l : Lock) (before after : Me (Unit {0}) View) → before.0.lock ≡ Some l → Marks before after → after.0.cut ≡ before.0.cut }
    ensures enters { (m key time found : ℕ) (before after : Me (Unit {0}) View) → Enters m key (told_at time before) found after → after.0.cut ≡ before.0.cut }
    ensures finds { (call : MapCall ℕ) (w : Walk) (slot : Slot) (before after : View) → FindsIn call w slot before after → after.cut ≡ before.cut }
    ensures reads_key { (found : ℕ) (before after : Me (Unit {0}) View) → ReadsKey before found after → after.0.cut ≡ before.0.cut }
    ensures keeps_value { (found : ℕ) (before after : Me (Unit {0}) View) → KeepsValue before found after → after.0.cut ≡ before.0.cut }
    ensures reads_value { (found : ℕ) (before after : Me (Unit {0}) View) → ReadsValue before found after → after.0.cut ≡ before.0.cut }
    ensures comes_in { (m time : ℕ) (as_before : Bool) (before after : Me (Unit {0}) View) → CameIn m time as_before before after → after.0.cut ≡ before.0.cut }
    ensures tries_lock { (w : Walk) (free : Bool) (before after : Me (Unit {0}) View) → TriedLock w free before after → after.0.cut ≡ before.0.cut }
    ensures finds_held { (call : MapCall ℕ) (w : Walk) (l : Lock) (place : ℕ) (slot : Slot) (before after : View) → FindsHeld call w l place slot before after → after.cut ≡ before.cut }
    ensures drafts { (x found : ℕ) (before after : Me (Unit {0}) View) → Drafts x before found after → after.0.cut ≡ before.0.cut }
    ensures publishes { (m : ℕ) (call : MapCall ℕ) (words : ℕ) (l : Lock) (before after : Me (Unit {0}) View) → before.0.lock ≡ Some l → Publishes m call words before after → after.0.cut ≡ before.0.cut }
    ensures unlocks { (found : ℕ) (before after : Me (Unit {0}) View) → Unlocks before found after → after.0.cut ≡ before.0.cut }
    ensures goes_out { (found : ℕ) (before after : Me (Unit {0}) View) → GoesOut before found after → after.0.cut ≡ before.0.cut }
    ensures closes { (m time : ℕ) (as_before : Bool) (before after : Me (Unit {0}) View) → TriedClose m time as_before before after → after.0.cut ≡ before.0.cut }
    ensures looks_inside { (m : ℕ) (alone : Bool) (before after : Me (Unit {0}) View) → SeesAlone m alone before after → after.0.cut ≡ before.0.cut }
    ensures clears { (m : ℕ) (before after : Me (Unit {0}) View) → Clears m before after
        → (d : CutNode) × (d.level ≡ 0) × (d.map ≡ m) × (suc (length d.before) ≡ length after.0.seen) × Begins after.0.seen d.before × (after.0.cut ≡ d ∷ before.0.cut) }
    ensures operates { (a time found : ℕ) (call : AtomicCall) (kind : AtomicKind) (before after : Me (Unit {0}) View) → slice_get before.0.begin.kinds a ≡ Some kind → Operates a call time before found after → after.0.cut ≡ before.0.cut }
    ensures begins_cursor { (m time found : ℕ) (before after : Me (Unit {0}) View) → BeginsCursor m time before found after → after.0.cut ≡ before.0.cut }
    ensures sweeps { (z : Spot) (slot : Slot) (before after : View) → SweepsIn z slot before after → after.cut ≡ before.cut }
    ensures goes_up { (z : Spot) (found : ℕ) (before after : Me (Unit {0}) View) → before.0.spot ≡ Some z → GoesUp before found after → after.0.cut ≡ before.0.cut }
    ensures shows_none { (z : Spot) (found : ℕ) (before after : Me (Unit {0}) View) → before.0.spot ≡ Some z → ShowsNone before found after → after.0.cut ≡ before.0.cut }
    ensures looks { (before after : View) → Looks before after → after.cut ≡ before.cut }
    ensures copies { (v : View) → (copied v).cut ≡ v.cut }
    ensures deals { (v : View) → ((kept v).cut ≡ v.cut) × ((dealt v).cut ≡ v.cut) }
    ensures joins { (v w : View) → (joined v w).cut ≡ v.cut ++ w.cut }
    ensures mounts { (time : ℕ) (v w : View) → (mounted time v w).cut ≡ v.cut }
    ensures unmounts { (v : View) → ((unmounted v).cut ≡ v.cut) × ((cursor_seat v).cut ≡ v.cut) }
{}
