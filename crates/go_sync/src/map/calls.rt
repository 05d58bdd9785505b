//! The calls of a map's caller.
ghost use Rattle.std.specs.Prelude.{◌≡◌, ◌↔◌, ◌<◌, ◌^◌, true, IfSome};
ghost use Rattle.go_map.specs.Maps.{HasSpare};
ghost use Rattle.go_sync.specs.MapCallers.{Makes, MakesIf, MakesSome};

use super::MapCaller;
use shared_table::Steps;
use std::marker::Brand;
use std::sync::Wait;
use std::sync::ledger::{Blank, Ledger};
use sync_types::{MapCall, MapReply};

impl MapCaller<'_> {
    /// Go's `Load`: the value of the key, or `None` where it has none. It waits for nobody.
    pub fn get<R: Wait>(&mut self, rt: &R, key: u32) -> Option<u64>
        ensures called { Makes (MapCall.Load key) (MapReply.Found result) self.old self.new }
        ensures found { IfSome result (λ value. value < 2 ^ 63) }
    {
        self.load::<_, Brand>(rt, key, Blank::new(1))
    }

    // The same. The words that it reads are counted, and nobody asks for the count.
    fn load<R: Wait, L: Ledger>(&mut self, rt: &R, key: u32, blank: Blank) -> Option<u64>
        requires { (blank.name ≡ L.name) × (blank.parts ≡ L.parts) × (0 < L.parts) }
        ensures called { Makes (MapCall.Load key) (MapReply.Found result) self.old self.new }
        ensures found { IfSome result (λ value. value < 2 ^ 63) }
    {
        self.map
            .load(&mut self.caller, key, &mut Steps::<L>::new(rt, blank))
    }

    // Whether a unit of room is left.
    #[tactic(auto, using(crate::proofs::Rooms::has_some, crate::proofs::Rooms::has_none))]
    fn has_room(&self) -> bool
        ensures { result ≡ true ↔ HasSpare self.now.caller.note }
    {
        1 <= self.caller.spare()
    }

    /// Go's `Store`: sets the value of the key. False where the caller has no room left, and nothing was done.
    pub fn store<R: Wait>(&mut self, rt: &R, key: u32, value: u64) -> bool
        requires { value < 2 ^ 63 }
        ensures { MakesIf (MapCall.Store key value) self.old result self.new }
    {
        if !self.has_room() {
            return false;
        }
        self.map.store(rt, &mut self.caller, key, value);
        true
    }

    /// Go's `LoadOrStore`: the value of the key, and true; or, where the key is absent, this value, which is then stored, and false.
    /// `None` where the caller has no room left, and nothing was done.
    pub fn load_or_store<R: Wait>(&mut self, rt: &R, key: u32, value: u64) -> Option<(u64, bool)>
        requires { value < 2 ^ 63 }
        ensures called { MakesSome (MapCall.LoadOrStore key value) (λ found. MapReply.Settled found.0 found.1) self.old result self.new }
        ensures found { IfSome result (λ found. found.0 < 2 ^ 63) }
    {
        if !self.has_room() {
            return None;
        }
        Some(self.map.load_or_store(rt, &mut self.caller, key, value))
    }

    /// Go's `Swap`: sets the value of the key, and answers the value before, or `None` where the key was absent. `None` outside
    /// where the caller has no room left, and nothing was done.
    pub fn swap<R: Wait>(&mut self, rt: &R, key: u32, value: u64) -> Option<Option<u64>>
        requires { value < 2 ^ 63 }
        ensures called { MakesSome (MapCall.Swap key value) MapReply.Found self.old result self.new }
        ensures found { IfSome result (λ held. IfSome held (λ value. value < 2 ^ 63)) }
    {
        if !self.has_room() {
            return None;
        }
        Some(self.map.swap(rt, &mut self.caller, key, value))
    }

    /// Go's `CompareAndSwap`: sets the value of the key to `new` where it is `old`, and answers whether it was. `None` where the
    /// caller has no room left, and nothing was done.
    pub fn compare_and_swap<R: Wait>(
        &mut self,
        rt: &R,
        key: u32,
        old: u64,
        new: u64,
    ) -> Option<bool>
        requires { (old < 2 ^ 63) × (new < 2 ^ 63) }
        ensures { MakesSome (MapCall.CompareAndSwap key old new) MapReply.Compared self.old result self.new }
    {
        if !self.has_room() {
            return None;
        }
        Some(
            self.map
                .compare_and_swap(rt, &mut self.caller, key, old, new),
        )
    }

    /// Go's `CompareAndDelete`: removes the key where its value is `old`, and answers whether it was. `None` where the caller has no
    /// room left, and nothing was done.
    pub fn compare_and_delete<R: Wait>(&mut self, rt: &R, key: u32, old: u64) -> Option<bool>
        requires { old < 2 ^ 63 }
        ensures { MakesSome (MapCall.CompareAndDelete key old) MapReply.Compared self.old result self.new }
    {
        if !self.has_room() {
            return None;
        }
        Some(self.map.compare_and_delete(rt, &mut self.caller, key, old))
    }

    /// Go's `LoadAndDelete`: removes the key, and answers the value that it had, or `None` where it was absent. `None` outside
    /// where the caller has no room left, and nothing was done.
    pub fn load_and_delete<R: Wait>(&mut self, rt: &R, key: u32) -> Option<Option<u64>>
        ensures called { MakesSome (MapCall.LoadAndDelete key) MapReply.Found self.old result self.new }
        ensures found { IfSome result (λ held. IfSome held (λ value. value < 2 ^ 63)) }
    {
        if !self.has_room() {
            return None;
        }
        Some(self.map.load_and_delete(rt, &mut self.caller, key))
    }

    /// Go's `Delete`: removes the key. False where the caller has no room left, and nothing was done.
    pub fn delete<R: Wait>(&mut self, rt: &R, key: u32) -> bool
        ensures { MakesIf (MapCall.Delete key) self.old result self.new }
    {
        if !self.has_room() {
            return false;
        }
        self.map.delete(rt, &mut self.caller, key);
        true
    }

    /// Go's `Clear`: the map then has no key. False where the caller has no room left, and nothing was done.
    pub fn clear<R: Wait>(&mut self, rt: &R) -> bool
        ensures { MakesIf MapCall.Clear self.old result self.new }
    {
        if !self.has_room() {
            return false;
        }
        self.map.clear(rt, &mut self.caller);
        true
    }
}
