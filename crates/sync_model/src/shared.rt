//! Maps and atomics that callers share.
ghost use Rattle.std.specs.Prelude.{◌≡◌, ◌≢◌, ℕ, ◌<◌, ◌≤◌, List, [], ◌∷◌, ◌++◌, length};
ghost use Rattle.std.specs.Option.{ForSome};
ghost use Rattle.sync_types.specs.declared.atomic_object.AtomicKind.{AtomicKind};
ghost use Rattle.sync_model.specs.declared.item.SharedEntry.{SharedEntry};
ghost use Rattle.sync_model.specs.declared.item.SharedCall.TheVariants.{Next};
ghost use Rattle.sync_model.specs.declared.item.Item.{Item};
ghost use Rattle.sync_model.specs.Note.{SameHome};
ghost use Rattle.sync_model.specs.SharedHistory.{first_contents};
ghost use Rattle.sync_model.specs.Shared.{IsMapCall, IsAtomicCall, cost_of, Called, IsCallerAt, AreAllCallers, state_of, SameCalls, Settled};

use crate::caller::{Caller, CallerNote};
use crate::item::{SharedCall, SharedReply};
use crate::note::Note;
use std::sync::Wait;
use sync_types::{AtomicCall, AtomicReply, MapCall, MapReply};

/// Maps and typed atomics that callers share. All calls that set one of them are entries of one history, and each call
/// has a place in it, at which it answers what the objects for one thread answer. So the calls are linearizable, and
/// the Go memory model's sentences on atomics hold: all atomic operations are as in one sequentially consistent order,
/// and what a call observes synchronizes before it.
pub trait Shared: Sized {
    /// What a caller knows of all shared calls.
    type Mark: CallerNote;

    /// A walk over the keys of a map, as Go's `Range` makes it.
    type Cursor: Drop;

    // The types of the atomics, by number.
    ghost kinds: { Self → List AtomicKind };

    // How many maps there are.
    ghost maps: { Self → ℕ };

    // How many callers there are.
    ghost count: { Self → ℕ };

    // The keys that its maps take.
    ghost takes: { Self → ℕ → Type 0 };

    // Where its callers' notes belong.
    ghost home_of: { Self → Self.Mark.Home };

    // How much of the shared history a caller has seen.
    ghost seen: { Self.Mark → List SharedEntry };

    // The cursor walks over this map for a caller who made these calls, of which the one with this number began it.
    ghost stands: { Self → Self.Cursor → ℕ → ℕ → List Item → Type 0 };

    /// Where the notes of its callers belong.
    fn home(&self) -> &<Self::Mark as Note>::Home
        ensures { result.now ≡ home_of self.now };

    /// Makes a call on a map. It may wait for other callers.
    fn map_call<R: Wait>(
        &self,
        rt: &R,
        caller: &mut Caller<Self::Mark>,
        map: u32,
        call: MapCall<u32>,
    ) -> MapReply
        requires caller { IsCallerAt Self.Mark.at Self.Mark.own (home_of self.now) caller.old }
        requires map { map < maps self.now }
        requires call { IsMapCall (takes self.now) call }
        requires spare { ForSome (Self.Mark.own caller.old.note) (λ holding. cost_of call ≤ holding.spare) }
        ensures home { SameHome Self.Mark.at caller.old.note caller.new.note }
        ensures called { Called (first_contents (maps self.now) (kinds self.now)) (SharedCall.Map map call) (SharedReply.Map result) (cost_of call)
            (state_of Self.Mark.own Self.Mark.front seen caller.old.note) (state_of Self.Mark.own Self.Mark.front seen caller.new.note) };

    /// Makes a call on an atomic. It may wait for other callers.
    fn atomic_call<R: Wait>(
        &self,
        rt: &R,
        caller: &mut Caller<Self::Mark>,
        atomic: u32,
        call: AtomicCall,
    ) -> AtomicReply
        requires caller { IsCallerAt Self.Mark.at Self.Mark.own (home_of self.now) caller.old }
        requires call { IsAtomicCall (kinds self.now) atomic call }
        ensures home { SameHome Self.Mark.at caller.old.note caller.new.note }
        ensures called { Called (first_contents (maps self.now) (kinds self.now)) (SharedCall.Atomic atomic call) (SharedReply.Atomic result) 0
            (state_of Self.Mark.own Self.Mark.front seen caller.old.note) (state_of Self.Mark.own Self.Mark.front seen caller.new.note) };

    /// Begins a cursor over a map. It may wait for other callers.
    fn begin<R: Wait>(&self, rt: &R, caller: &mut Caller<Self::Mark>, map: u32) -> Self::Cursor
        requires caller { IsCallerAt Self.Mark.at Self.Mark.own (home_of self.now) caller.old }
        requires map { map < maps self.now }
        ensures home { SameHome Self.Mark.at caller.old.note caller.new.note }
        ensures called { Called (first_contents (maps self.now) (kinds self.now)) (SharedCall.Begin map) SharedReply.Begun 0
            (state_of Self.Mark.own Self.Mark.front seen caller.old.note) (state_of Self.Mark.own Self.Mark.front seen caller.new.note) }
        ensures stands { ForSome (Self.Mark.own caller.old.note) (λ was. ForSome (Self.Mark.own caller.new.note) (λ becomes. stands self.now result map (length was.items) becomes.items)) };

    /// Makes a step of a cursor: the next key with its value, or `None` where there is none left. The caller may make other
    /// calls between two steps, on the same map too. It may wait for other callers.
    fn next<R: Wait>(
        &self,
        rt: &R,
        caller: &mut Caller<Self::Mark>,
        cursor: &mut Self::Cursor,
    ) -> Option<(u32, u64)>
        requires caller { IsCallerAt Self.Mark.at Self.Mark.own (home_of self.now) caller.old }
        requires cursor { (map : ℕ) × (begin : ℕ) × ForSome (Self.Mark.own caller.old.note) (λ holding. stands self.now cursor.old map begin holding.items) }
        ensures home { SameHome Self.Mark.at caller.old.note caller.new.note }
        ensures called { (map begin : ℕ) → ForSome (Self.Mark.own caller.old.note) (λ holding. stands self.now cursor.old map begin holding.items)
            → Called (first_contents (maps self.now) (kinds self.now)) (SharedCall.Next begin) (SharedReply.Shown result) 0
            (state_of Self.Mark.own Self.Mark.front seen caller.old.note) (state_of Self.Mark.own Self.Mark.front seen caller.new.note) }
        ensures stands { (map begin : ℕ) → ForSome (Self.Mark.own caller.old.note) (λ holding. stands self.now cursor.old map begin holding.items)
            → ForSome (Self.Mark.own caller.new.note) (λ holding. stands self.now cursor.new map begin holding.items) };

    /// Lets all callers see the whole history. It makes no shared call, and takes all callers, in order of number, so that
    /// none is under way. It waits for nobody.
    fn settle(&self, callers: &mut [Caller<Self::Mark>])
        requires { AreAllCallers Self.Mark.at Self.Mark.own (home_of self.now) callers.old (count self.now) }
        ensures callers { AreAllCallers Self.Mark.at Self.Mark.own (home_of self.now) callers.new (count self.now) }
        ensures same { SameCalls Self.Mark.own Self.Mark.front seen callers.old callers.new }
        ensures settled { Settled Self.Mark.own Self.Mark.front seen (first_contents (maps self.now) (kinds self.now)) callers.new };

    // A cursor stands as it stood after any other call of its caller.
    ghost stays: { (shared : Self) (cursor : Self.Cursor) (map begin : ℕ) (items : List Item) (item : Item)
        → item.call ≢ Next begin → stands shared cursor map begin items → stands shared cursor map begin (items ++ item ∷ []) };
}
