//! The calls on a synced map itself.
ghost use Rattle.std.specs.Prelude.{◌≡◌, ◌↔◌, ◌<◌, ◌^◌, true, IfSome};
ghost use Rattle.go_map.specs.Maps.{HasSpare};
ghost use Rattle.synced_map.specs.SyncedCalls.{Calls, CallsIf, CallsSome};
ghost use Rattle.synced_map.specs.Telling.{FindsWhatWasTold};

use super::SyncedMapCaller;
use crate::laws::a_get_finds_what_was_told;
use go_map::Map;
use shared_table::Steps;
use std::marker::Brand;
use std::sync::Wait;
use std::sync::ledger::{Blank, Ledger};
use sync_outside::Clock;
use sync_types::{MapCall, MapReply};

impl<C: Clock> SyncedMapCaller<'_, C> {
    /// Go's `Load`: the value of the key, or `None` where it has none. It waits for nobody. It finds what was stored before each
    /// unlock and each done that its caller knows of, or what was stored later.
    pub fn get<R: Wait>(&mut self, rt: &R, key: u32) -> Option<u64>
        ensures made { Calls (MapCall.Load key) (MapReply.Found result) self.old self.new }
        ensures found { IfSome result (λ value. value < 2 ^ 63) }
        ensures finds { FindsWhatWasTold self.old.map.now.table key result self.old.caller.note self.new.caller.note }
    {
        a_get_finds_what_was_told();
        self.load::<_, Brand>(rt, key, Blank::new(1))
    }

    // The load. The words that it reads are counted, and nobody asks for the count.
    fn load<R: Wait, L: Ledger>(&mut self, rt: &R, key: u32, blank: Blank) -> Option<u64>
        requires { (blank.name ≡ L.name) × (blank.parts ≡ L.parts) × (0 < L.parts) }
        ensures made { Calls (MapCall.Load key) (MapReply.Found result) self.old self.new }
        ensures found { IfSome result (λ value. value < 2 ^ 63) }
    {
        let map = Map::at(&self.map.table, 0);
        map.load(&mut self.caller, key, &mut Steps::<L>::new(rt, blank))
    }

    // Whether a unit of room is left.
    #[tactic(auto, using(crate::proofs::Rooms::has_some, crate::proofs::Rooms::has_none))]
    fn has_room(&self) -> bool
        ensures { result ≡ true ↔ HasSpare self.now.caller.note }
    {
        1 <= self.caller.spare()
    }

    /// Go's `Store`: sets the value of the key. False where the caller has no room left, and nothing was done.
    pub fn store<R: Wait>(&mut self, rt: &R, key: u32, value: u64) -> bool
        requires { value < 2 ^ 63 }
        ensures { CallsIf (MapCall.Store key value) self.old result self.new }
    {
        if !self.has_room() {
            return false;
        }
        let map = Map::at(&self.map.table, 0);
        map.store(rt, &mut self.caller, key, value);
        true
    }

    /// Go's `LoadOrStore`: the value of the key, and true; or, where the key is absent, this value, which is then stored, and
    /// false. `None` outside where the caller has no room left, and nothing was done.
    pub fn load_or_store<R: Wait>(&mut self, rt: &R, key: u32, value: u64) -> Option<(u64, bool)>
        requires { value < 2 ^ 63 }
        ensures made { CallsSome (MapCall.LoadOrStore key value) (λ found. MapReply.Settled found.0 found.1) self.old result self.new }
        ensures found { IfSome result (λ found. found.0 < 2 ^ 63) }
    {
        if !self.has_room() {
            return None;
        }
        let map = Map::at(&self.map.table, 0);
        Some(map.load_or_store(rt, &mut self.caller, key, value))
    }

    /// Go's `Swap`: sets the value of the key, and answers the value before, or `None` where the key was absent. `None` outside
    /// where the caller has no room left, and nothing was done.
    pub fn swap<R: Wait>(&mut self, rt: &R, key: u32, value: u64) -> Option<Option<u64>>
        requires { value < 2 ^ 63 }
        ensures made { CallsSome (MapCall.Swap key value) MapReply.Found self.old result self.new }
        ensures found { IfSome result (λ held. IfSome held (λ value. value < 2 ^ 63)) }
    {
        if !self.has_room() {
            return None;
        }
        let map = Map::at(&self.map.table, 0);
        Some(map.swap(rt, &mut self.caller, key, value))
    }

    /// Go's `CompareAndSwap`: sets the value of the key to `new` where it is `old`, and answers whether it was. `None` outside
    /// where the caller has no room left, and nothing was done.
    pub fn compare_and_swap<R: Wait>(
        &mut self,
        rt: &R,
        key: u32,
        old: u64,
        new: u64,
    ) -> Option<bool>
        requires { (old < 2 ^ 63) × (new < 2 ^ 63) }
        ensures { CallsSome (MapCall.CompareAndSwap key old new) MapReply.Compared self.old result self.new }
    {
        if !self.has_room() {
            return None;
        }
        let map = Map::at(&self.map.table, 0);
        Some(map.compare_and_swap(rt, &mut self.caller, key, old, new))
    }

    /// Go's `CompareAndDelete`: removes the key where its value is `old`, and answers whether it was. `None` outside where the
    /// caller has no room left, and nothing was done.
    pub fn compare_and_delete<R: Wait>(&mut self, rt: &R, key: u32, old: u64) -> Option<bool>
        requires { old < 2 ^ 63 }
        ensures { CallsSome (MapCall.CompareAndDelete key old) MapReply.Compared self.old result self.new }
    {
        if !self.has_room() {
            return None;
        }
        let map = Map::at(&self.map.table, 0);
        Some(map.compare_and_delete(rt, &mut self.caller, key, old))
    }

    /// Go's `LoadAndDelete`: removes the key, and answers the value that it had, or `None` where it was absent. `None` outside
    /// where the caller has no room left, and nothing was done.
    pub fn load_and_delete<R: Wait>(&mut self, rt: &R, key: u32) -> Option<Option<u64>>
        ensures made { CallsSome (MapCall.LoadAndDelete key) MapReply.Found self.old result self.new }
        ensures found { IfSome result (λ held. IfSome held (λ value. value < 2 ^ 63)) }
    {
        if !self.has_room() {
            return None;
        }
        let map = Map::at(&self.map.table, 0);
        Some(map.load_and_delete(rt, &mut self.caller, key))
    }

    /// Go's `Delete`: removes the key. False where the caller has no room left, and nothing was done.
    pub fn delete<R: Wait>(&mut self, rt: &R, key: u32) -> bool
        ensures { CallsIf (MapCall.Delete key) self.old result self.new }
    {
        if !self.has_room() {
            return false;
        }
        let map = Map::at(&self.map.table, 0);
        map.delete(rt, &mut self.caller, key);
        true
    }

    /// Go's `Clear`: the map then has no key. False where the caller has no room left, and nothing was done.
    pub fn clear<R: Wait>(&mut self, rt: &R) -> bool
        ensures { CallsIf (MapCall.Clear) self.old result self.new }
    {
        if !self.has_room() {
            return false;
        }
        let map = Map::at(&self.map.table, 0);
        map.clear(rt, &mut self.caller);
        true
    }
}
