//! The steps that cut off an empty node. A seat that holds the node's lock looks at all its slots, takes the lock of the node's
//! parent, marks the node dead, and empties the parent's slot. The parent's lock is the one that it holds then.
ghost use Rattle.std.specs.Prelude.{◌≡◌, ◌<◌, true, false, Some};
ghost use Rattle.table_rule.specs.declared.view.Lock.{Lock};
ghost use Rattle.table_rule.specs.Pruning.{LooksAtSlot, ReadsParent, TriedUpper, HoldsBoth, Marks, CutsOff};
ghost use Rattle.table_words.specs.Seats.{begin_of, IsSeatOf};
ghost use Rattle.table_rule.specs.Walking.{HasWords};
ghost use Rattle.table_rule.specs.Writing.{Holds};
ghost use Rattle.trie_nodes.specs.Paths.{nibble};

use crate::laws::{history_laws, trie_laws};
use crate::words::TableWords;
use atomic_table::Seat;
use table_rule::pruning::{CutOff, LookAtSlot, Mark, ReadParent, TryUpper};
use table_rule::view::View;
use trie_nodes::Slot;
use trie_nodes::layout::{DEAD, FREE, held_word, lock_word, parent_word, slot_word};

impl TableWords {
    /// Looks at a slot of the node whose lock the seat holds. All slots before it are known to be empty.
    pub fn look_at_slot(&self, seat: &mut Seat<(), View>, node: u64, slot: u32) -> u64
        requires table { IsSeatOf self.now seat.old }
        requires lock { (l : Lock) × (l.node ≡ node) × (l.empty ≡ slot) × Holds (begin_of self.now) seat.old.me l }
        requires words { HasWords seat.old.me.0 node 18 }
        requires slot { slot < 16 }
        ensures table { seat.new.table_id ≡ seat.old.table_id }
        ensures looked { LooksAtSlot seat.old.me result seat.new.me }
    {
        history_laws();
        self.table
            .shared
            .load::<LookAtSlot>(seat, slot_word(node, slot))
    }

    /// The place of the parent of the node whose lock the seat holds.
    pub fn read_parent(&self, seat: &mut Seat<(), View>, node: u64) -> u64
        requires table { IsSeatOf self.now seat.old }
        requires lock { (l : Lock) × (l.node ≡ node) × Holds (begin_of self.now) seat.old.me l }
        requires words { HasWords seat.old.me.0 node 18 }
        ensures table { seat.new.table_id ≡ seat.old.table_id }
        ensures read { ReadsParent seat.old.me result seat.new.me }
    {
        history_laws();
        self.table
            .shared
            .load::<ReadParent>(seat, parent_word(node))
    }

    /// Tries the lock of the parent, for the seat's caller, which holds the node's.
    pub fn try_upper(&self, seat: &mut Seat<(), View>, parent: u64, caller: u32) -> bool
        requires table { IsSeatOf self.now seat.old }
        requires lock { (l : Lock) × (l.up ≡ parent) × (0 < l.level) × Holds (begin_of self.now) seat.old.me l }
        requires words { HasWords seat.old.me.0 parent 18 }
        requires caller { caller ≡ seat.old.me.0.number }
        ensures table { seat.new.table_id ≡ seat.old.table_id }
        ensures tried { (l : Lock) → seat.old.me.0.lock ≡ Some l → TriedUpper l result seat.old.me seat.new.me }
    {
        history_laws();
        let word = lock_word(parent);
        let shared = &self.table.shared;
        if shared.peek(word) != FREE {
            return false;
        }
        let found = shared.compare_exchange::<TryUpper>(seat, word, FREE, held_word(caller));
        found == FREE
    }

    /// Marks the node dead. The seat holds its lock and its parent's, and all slots of the node are empty.
    pub fn mark(&self, seat: &mut Seat<(), View>, node: u64)
        requires table { IsSeatOf self.now seat.old }
        requires both { (l : Lock) × (u : Lock) × (l.node ≡ node) × HoldsBoth (begin_of self.now) seat.old.me l u false }
        requires words { HasWords seat.old.me.0 node 18 }
        ensures table { seat.new.table_id ≡ seat.old.table_id }
        ensures marked { Marks seat.old.me seat.new.me }
    {
        history_laws();
        self.table.shared.store::<Mark>(seat, lock_word(node), DEAD);
    }

    /// Empties the slot of a dead node's parent, where the seat holds the locks of both. It then holds the parent's alone.
    pub fn cut_off(&self, seat: &mut Seat<(), View>, parent: u64, slot: u32)
        requires table { IsSeatOf self.now seat.old }
        requires both { (l : Lock) × (u : Lock) × (u.node ≡ parent) × (slot ≡ nibble u.key (begin_of self.now).seed u.level) × HoldsBoth (begin_of self.now) seat.old.me l u true }
        requires words { HasWords seat.old.me.0 parent 18 }
        ensures table { seat.new.table_id ≡ seat.old.table_id }
        ensures cut { CutsOff seat.old.me seat.new.me }
    {
        history_laws();
        trie_laws();
        self.table
            .shared
            .store::<CutOff>(seat, slot_word(parent, slot), Slot::Empty.to_word());
    }
}
