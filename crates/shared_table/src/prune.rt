//! Pruning: a node below the root that was left empty is cut off, and then its parent in the same way, where that is empty now.
ghost use Rattle.std.specs.Prelude.{◌≡◌, ◌⊎◌, ◌<◌, true, List, Some, None, IsNone, IsSome};
ghost use Rattle.table_rule.specs.declared.view.CutNode.{CutNode};
ghost use Rattle.table_rule.specs.declared.view.Lock.{Lock};
ghost use Rattle.shared_table.specs.Pruning.{LooksAtSlots, HoldsAt, HoldsInUse, HoldsToStay, NeverRemoves, NowHolds, PrunesAt};
ghost use Rattle.sync_types.specs.SequentialMap.{map_key};
ghost use Rattle.table_rule.specs.Pruning.{having_cut, TriedUpper};
ghost use Rattle.table_words.specs.Seats.{begin_of, IsSeatOf};
ghost use Rattle.table_rule.specs.Walking.{standing, HasWords};
ghost use Rattle.table_rule.specs.Writing.{holding, Holds};

use crate::changes::may_remove;
use crate::table::SharedTable;
use atomic_table::Seat;
use crossbeam_utils::Backoff;
use std::sync::Wait;
use sync_types::MapCall;
use table_words::View;
use trie_nodes::layout::SLOTS;
use trie_nodes::pruning;

impl SharedTable {
    // The words of the node whose lock the seat holds, as far as they say whether it is empty: its parent's place, and its slots up
    // to the first that isn't empty.
    fn look_at_slots(&self, seat: &mut Seat<(), View>, node: u64) -> [u64; 18]
        requires table { IsSeatOf self.now.words seat.old }
        requires lock { (l : Lock) × (l.node ≡ node) × (l.empty ≡ 0) × Holds (begin_of self.now.words) seat.old.me l }
        requires words { HasWords seat.old.me.0 node 18 }
        ensures table { seat.new.table_id ≡ seat.old.table_id }
        ensures looked { (l : Lock) → seat.old.me.0.lock ≡ Some l → LooksAtSlots l result seat.old.me seat.new.me }
    {
        let mut words = [0; 18];
        words[1] = self.words.read_parent(seat, node);
        for slot in 0..SLOTS {
            let word = self.words.look_at_slot(seat, node, slot);
            words[2 + slot as usize] = word;
            if word != 0 {
                return words;
            }
        }
        words
    }

    // Takes the lock of the parent of the node whose lock the seat holds, and waits while another has it.
    fn take_upper<R: Wait>(&self, rt: &R, seat: &mut Seat<(), View>, parent: u64, caller: u32)
        requires table { IsSeatOf self.now.words seat.old }
        requires lock { (l : Lock) × (l.up ≡ parent) × (0 < l.level) × Holds (begin_of self.now.words) seat.old.me l }
        requires words { HasWords seat.old.me.0 parent 18 }
        requires caller { caller ≡ seat.old.me.0.number }
        ensures table { seat.new.table_id ≡ seat.old.table_id }
        ensures taken { (l : Lock) → seat.old.me.0.lock ≡ Some l → TriedUpper l true seat.old.me seat.new.me }
    {
        let backoff = Backoff::new();
        for _ in rt.forever() {
            if self.words.try_upper(seat, parent, caller) {
                return;
            }
            backoff.snooze();
        }
        unreachable!()
    }

    // Cuts off the node whose lock the seat holds, where it is empty. The seat then holds the lock of its parent, whose place this gives.
    // None where a slot of the node isn't empty.
    fn prune_at<R: Wait>(
        &self,
        rt: &R,
        seat: &mut Seat<(), View>,
        key: u32,
        node: u64,
        level: u32,
        caller: u32,
    ) -> Option<u64>
        requires table { IsSeatOf self.now.words seat.old }
        requires holds { HoldsAt (begin_of self.now.words) seat.old.me key node level }
        requires below { 0 < level }
        requires level { level < 8 }
        requires caller { caller ≡ seat.old.me.0.number }
        ensures table { seat.new.table_id ≡ seat.old.table_id }
        ensures pruned { PrunesAt (begin_of self.now.words) key node level result seat.old.me seat.new.me }
        ensures stays { IsNone result → HoldsInUse seat.new.me.0 }
    {
        let words = self.look_at_slots(seat, node);
        let plan = pruning(&words, key, self.words.seed(), level)?;
        self.take_upper(rt, seat, plan.parent, caller);
        self.words.mark(seat, node);
        self.words.cut_off(seat, plan.parent, plan.slot);
        Some(plan.parent)
    }

    // Cuts off the node whose lock the seat holds, where it is empty and no root, then its parent in the same way, and so on. The seat
    // then holds the lock of the node that it came to, whose place this gives: a root, or a node in which a slot isn't empty.
    pub(crate) fn prune<R: Wait>(
        &self,
        rt: &R,
        seat: &mut Seat<(), View>,
        key: u32,
        node: u64,
        level: u32,
        caller: u32,
    ) -> u64
        requires table { IsSeatOf self.now.words seat.old }
        requires holds { HoldsAt (begin_of self.now.words) seat.old.me key node level }
        requires level { level < 8 }
        requires caller { caller ≡ seat.old.me.0.number }
        ensures table { seat.new.table_id ≡ seat.old.table_id }
        ensures pruned { (cut : List CutNode) × NowHolds result cut seat.old.me seat.new.me }
        ensures stays { HoldsToStay seat.new.me.0 }
    {
        let mut node = node;
        for up in 0..level {
            match self.prune_at(rt, seat, key, node, level - up, caller) {
                None => return node,
                Some(parent) => node = parent,
            }
        }
        node
    }

    // Gives back the lock of a node. A seat whose call may have emptied a slot knows that the node is a root, or isn't empty.
    fn give_back(&self, seat: &mut Seat<(), View>, _call: MapCall<u32>, node: u64)
        requires table { IsSeatOf self.now.words seat.old }
        requires lock { (l : Lock) × (l.node ≡ node) × Holds (begin_of self.now.words) seat.old.me l }
        requires words { HasWords seat.old.me.0 node 18 }
        requires stays { NeverRemoves _call ⊎ HoldsToStay seat.old.me.0 }
        ensures table { seat.new.table_id ≡ seat.old.table_id }
        ensures unlocked { (seat.new.me.1 ≡ seat.old.me.1) × (seat.new.me.0 ≡ standing (holding seat.old.me.0 seat.old.me.0.gate None None) None None) }
    {
        self.words.unlock(seat, node);
    }

    // Gives back the lock of the node under which the seat's caller made a call. Where the call may have left the node empty, it is
    // pruned before.
    pub(crate) fn leave<R: Wait>(
        &self,
        rt: &R,
        seat: &mut Seat<(), View>,
        call: MapCall<u32>,
        key: u32,
        node: u64,
        level: u32,
        caller: u32,
    )
        requires table { IsSeatOf self.now.words seat.old }
        requires call { IsSome (map_key call) }
        requires holds { HoldsAt (begin_of self.now.words) seat.old.me key node level }
        requires level { level < 8 }
        requires caller { caller ≡ seat.old.me.0.number }
        ensures table { seat.new.table_id ≡ seat.old.table_id }
        ensures left { (seat.new.me.1 ≡ seat.old.me.1) × ((cut : List CutNode) × (seat.new.me.0 ≡ having_cut (standing (holding seat.old.me.0 seat.old.me.0.gate None None) None None) cut)) }
    {
        let held = if may_remove(call) {
            self.prune(rt, seat, key, node, level, caller)
        } else {
            node
        };
        self.give_back(seat, call, held);
    }
}
