//! Maps and atomics that callers share, in either way in which the library has them.
ghost use Rattle.std.specs.Prelude.{◌<◌, ◌≤◌, All, IfOk, length, sum};
ghost use Rattle.std.specs.Option.{ForSome};
ghost use Rattle.sync_model.specs.declared.caller.Caller.{Caller as CallerOf};

use std::alloc::{AllocError, Global};
use std::sync::Wait;
use sync_model::{Caller, CallerNote};

/// How many keys most calls go over, from 0.
pub const KEYS: u32 = 512;

/// A map and an int64.
pub trait MapAndInt: Sized + Sync + Drop {
    /// What its callers know.
    type Mark: CallerNote + Send + Drop;

    // It is a caller of these, between two calls.
    ghost has_caller: { Self → CallerOf Self.Mark → Type 0 };

    /// An empty map and an int64 of 0. There is a caller for each number of `spare`, who may make so many stores and deletes.
    fn new(alloc: Global, spare: &[u32]) -> Result<(Self, Vec<Caller<Self::Mark>>), AllocError>
        requires callers { (0 < length spare.now) × (length spare.now ≤ 8) }
        requires units { sum spare.now ≤ 1_000_000 }
        ensures { IfOk result (λ made. All (has_caller made.0) made.1.items) };

    /// Loads a key, and answers whether it has a value.
    fn load<R: Wait>(&self, rt: &R, caller: &mut Caller<Self::Mark>, key: u32) -> bool
        requires { has_caller self.now caller.old }
        ensures { has_caller self.now caller.new };

    /// Stores under a key.
    fn store<R: Wait>(&self, rt: &R, caller: &mut Caller<Self::Mark>, key: u32)
        requires caller { has_caller self.now caller.old }
        requires spare { ForSome (Self.Mark.own caller.old.note) (λ holding. 1 ≤ holding.spare) }
        ensures { has_caller self.now caller.new };

    /// Stores under a key, if the caller may, and answers whether it did.
    fn store_if_room<R: Wait>(&self, rt: &R, caller: &mut Caller<Self::Mark>, key: u32) -> bool
        requires { has_caller self.now caller.old }
        ensures { has_caller self.now caller.new }
    {
        if caller.spare() == 0 {
            return false;
        }
        self.store(rt, caller, key);
        true
    }

    /// Deletes a key.
    fn delete<R: Wait>(&self, rt: &R, caller: &mut Caller<Self::Mark>, key: u32)
        requires caller { has_caller self.now caller.old }
        requires spare { ForSome (Self.Mark.own caller.old.note) (λ holding. 1 ≤ holding.spare) }
        ensures { has_caller self.now caller.new };

    /// Deletes a key, if the caller may, and answers whether it did.
    fn delete_if_room<R: Wait>(&self, rt: &R, caller: &mut Caller<Self::Mark>, key: u32) -> bool
        requires { has_caller self.now caller.old }
        ensures { has_caller self.now caller.new }
    {
        if caller.spare() == 0 {
            return false;
        }
        self.delete(rt, caller, key);
        true
    }

    /// Adds 1 to the int64.
    fn add<R: Wait>(&self, rt: &R, caller: &mut Caller<Self::Mark>)
        requires { has_caller self.now caller.old }
        ensures { has_caller self.now caller.new };
}
