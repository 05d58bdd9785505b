//! Maps, as `sync.Map` has them.
ghost use Rattle.std.specs.Prelude.{◌≡◌, ◌+◌, ◌<◌, ◌≤◌, ◌^◌, Some, IfSome, MatchOption};
ghost use Rattle.sync_types.specs.SequentialMap.{map_key};
ghost use Rattle.sync_model.specs.Shared.{IsCallerAt, cost_of};
ghost use Rattle.shared_table.specs.Notes.{own_by, IsNoteOf};
ghost use Rattle.shared_table.specs.Tables.{maps_of};
ghost use Rattle.table_rule.specs.Values.{HasSmallValues};
ghost use Rattle.go_map.specs.Maps.{MakesCall, HasSpare};
ghost use Rattle.go_map.specs.Values.{IsSmallReply};

use crate::reply::{compared_in, found_in, settled_in};
use shared_table::{SharedNote, SharedTable, Steps};
use std::sync::Wait;
use std::sync::ledger::Ledger;
use sync_model::Caller;
use sync_types::{MapCall, MapReply};

/// One map of a shared table. Each call has one place in the history that all callers share, and is answered there as by the
/// map of one thread. What a call observes synchronizes before it. No call takes memory. Values are below 2^63, also those that a call
/// finds.
///
/// Each call but `load` takes one of its caller's spare units, whatever it answers, and may wait while another caller has the
/// lock of the node where the key belongs, or of a node above one that the call empties, or clears the map. A call that changes the map is placed at its one write.
#[derive(Drop)]
pub struct Map<'a> {
    pub table: &'a SharedTable,
    pub number: u32,
    pub ghost is: { number < maps_of table.now },
}

impl<'a> Map<'a> {
    /// The map of this number.
    pub fn at(table: &'a SharedTable, number: u32) -> Self
        requires { number < maps_of table.now }
        ensures { (result.table.now ≡ table.now) × (result.number ≡ number) }
    {
        Map { table, number }
    }

    /// `Load`: the value of the key, or `None` where it has none. It waits for nobody, can't be refused, and looks at no more than
    /// 11 words, each of which `steps` counts: at the least the map's root word and a slot, and where it finds a value also the two
    /// words of the entry. Its place is a moment of the call: no earlier than all that the caller had seen before,
    /// and no later than what it has seen after.
    pub fn load<L: Ledger>(
        &self,
        caller: &mut Caller<SharedNote>,
        key: u32,
        steps: &mut Steps<L>,
    ) -> Option<u64>
        requires { IsCallerAt IsNoteOf own_by self.now.table.now caller.old }
        ensures caller { IsCallerAt IsNoteOf own_by self.now.table.now caller.new }
        ensures called { MakesCall self.now.table.now self.now.number (MapCall.Load key) (MapReply.Found result) caller.old.note caller.new.note }
        ensures found { IfSome result (λ value. value < 2 ^ 63) }
        ensures cost { steps.new ≤ steps.old + 11 }
        ensures least { MatchOption result (steps.old + 2 ≤ steps.new) (λ value. steps.old + 4 ≤ steps.new) }
    {
        self.table
            .look_up(&mut caller.note, self.number, key, steps)
    }

    // A call on a key that may change the map.
    fn change<R: Wait>(
        &self,
        rt: &R,
        caller: &mut Caller<SharedNote>,
        key: u32,
        call: MapCall<u32>,
    ) -> MapReply
        requires caller { IsCallerAt IsNoteOf own_by self.now.table.now caller.old }
        requires spare { HasSpare caller.old.note }
        requires call { (map_key call ≡ Some key) × (cost_of call ≡ 1) }
        requires values { HasSmallValues call }
        ensures caller { IsCallerAt IsNoteOf own_by self.now.table.now caller.new }
        ensures called { MakesCall self.now.table.now self.now.number call result caller.old.note caller.new.note }
        ensures found { IsSmallReply result }
    {
        self.table
            .change_map(rt, &mut caller.note, self.number, key, call)
    }

    /// `Store`: sets the value of the key.
    pub fn store<R: Wait>(&self, rt: &R, caller: &mut Caller<SharedNote>, key: u32, value: u64)
        requires caller { IsCallerAt IsNoteOf own_by self.now.table.now caller.old }
        requires spare { HasSpare caller.old.note }
        requires value { value < 2 ^ 63 }
        ensures caller { IsCallerAt IsNoteOf own_by self.now.table.now caller.new }
        ensures called { MakesCall self.now.table.now self.now.number (MapCall.Store key value) MapReply.Done caller.old.note caller.new.note }
    {
        self.change(rt, caller, key, MapCall::Store { key, value });
    }

    /// `Swap`: sets the value of the key, and answers the value before, or `None` where the key was absent.
    pub fn swap<R: Wait>(
        &self,
        rt: &R,
        caller: &mut Caller<SharedNote>,
        key: u32,
        value: u64,
    ) -> Option<u64>
        requires caller { IsCallerAt IsNoteOf own_by self.now.table.now caller.old }
        requires spare { HasSpare caller.old.note }
        requires value { value < 2 ^ 63 }
        ensures caller { IsCallerAt IsNoteOf own_by self.now.table.now caller.new }
        ensures called { MakesCall self.now.table.now self.now.number (MapCall.Swap key value) (MapReply.Found result) caller.old.note caller.new.note }
        ensures found { IfSome result (λ value. value < 2 ^ 63) }
    {
        found_in(self.change(rt, caller, key, MapCall::Swap { key, value }))
    }

    /// `LoadOrStore`: the value of the key, and true; or, where the key is absent, this value, which is then stored, and false.
    pub fn load_or_store<R: Wait>(
        &self,
        rt: &R,
        caller: &mut Caller<SharedNote>,
        key: u32,
        value: u64,
    ) -> (u64, bool)
        requires caller { IsCallerAt IsNoteOf own_by self.now.table.now caller.old }
        requires spare { HasSpare caller.old.note }
        requires value { value < 2 ^ 63 }
        ensures caller { IsCallerAt IsNoteOf own_by self.now.table.now caller.new }
        ensures called { MakesCall self.now.table.now self.now.number (MapCall.LoadOrStore key value) (MapReply.Settled result.0 result.1) caller.old.note caller.new.note }
        ensures found { result.0 < 2 ^ 63 }
    {
        settled_in(self.change(rt, caller, key, MapCall::LoadOrStore { key, value }))
    }

    /// `LoadAndDelete`: removes the key, and answers the value that it had, or `None` where it was absent.
    pub fn load_and_delete<R: Wait>(
        &self,
        rt: &R,
        caller: &mut Caller<SharedNote>,
        key: u32,
    ) -> Option<u64>
        requires caller { IsCallerAt IsNoteOf own_by self.now.table.now caller.old }
        requires spare { HasSpare caller.old.note }
        ensures caller { IsCallerAt IsNoteOf own_by self.now.table.now caller.new }
        ensures called { MakesCall self.now.table.now self.now.number (MapCall.LoadAndDelete key) (MapReply.Found result) caller.old.note caller.new.note }
        ensures found { IfSome result (λ value. value < 2 ^ 63) }
    {
        found_in(self.change(rt, caller, key, MapCall::LoadAndDelete { key }))
    }

    /// `Delete`: removes the key.
    pub fn delete<R: Wait>(&self, rt: &R, caller: &mut Caller<SharedNote>, key: u32)
        requires caller { IsCallerAt IsNoteOf own_by self.now.table.now caller.old }
        requires spare { HasSpare caller.old.note }
        ensures caller { IsCallerAt IsNoteOf own_by self.now.table.now caller.new }
        ensures called { MakesCall self.now.table.now self.now.number (MapCall.Delete key) MapReply.Done caller.old.note caller.new.note }
    {
        self.change(rt, caller, key, MapCall::Delete { key });
    }

    /// `CompareAndSwap`: sets the value of the key to `new` where it is `old`, and answers whether it was.
    pub fn compare_and_swap<R: Wait>(
        &self,
        rt: &R,
        caller: &mut Caller<SharedNote>,
        key: u32,
        old: u64,
        new: u64,
    ) -> bool
        requires caller { IsCallerAt IsNoteOf own_by self.now.table.now caller.old }
        requires spare { HasSpare caller.old.note }
        requires value { (old < 2 ^ 63) × (new < 2 ^ 63) }
        ensures caller { IsCallerAt IsNoteOf own_by self.now.table.now caller.new }
        ensures called { MakesCall self.now.table.now self.now.number (MapCall.CompareAndSwap key old new) (MapReply.Compared result) caller.old.note caller.new.note }
    {
        compared_in(self.change(rt, caller, key, MapCall::CompareAndSwap { key, old, new }))
    }

    /// `CompareAndDelete`: removes the key where its value is `old`, and answers whether it was. An absent key has no value.
    pub fn compare_and_delete<R: Wait>(
        &self,
        rt: &R,
        caller: &mut Caller<SharedNote>,
        key: u32,
        old: u64,
    ) -> bool
        requires caller { IsCallerAt IsNoteOf own_by self.now.table.now caller.old }
        requires spare { HasSpare caller.old.note }
        requires value { old < 2 ^ 63 }
        ensures caller { IsCallerAt IsNoteOf own_by self.now.table.now caller.new }
        ensures called { MakesCall self.now.table.now self.now.number (MapCall.CompareAndDelete key old) (MapReply.Compared result) caller.old.note caller.new.note }
    {
        compared_in(self.change(rt, caller, key, MapCall::CompareAndDelete { key, old }))
    }

    /// `Clear`: the map then has no key. It waits while another caller clears the map, and then until the calls that were
    /// changing it have ended. Loads go on beside it. A load that began before may still answer what its key had just before
    /// the clear, and one that begins after it answers as of no earlier than what its caller has seen.
    pub fn clear<R: Wait>(&self, rt: &R, caller: &mut Caller<SharedNote>)
        requires caller { IsCallerAt IsNoteOf own_by self.now.table.now caller.old }
        requires spare { HasSpare caller.old.note }
        ensures caller { IsCallerAt IsNoteOf own_by self.now.table.now caller.new }
        ensures called { MakesCall self.now.table.now self.now.number MapCall.Clear MapReply.Done caller.old.note caller.new.note }
    {
        self.table.clear_map(rt, &mut caller.note, self.number);
    }
}
