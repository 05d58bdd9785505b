//! What one caller of shared maps and atomics tells another, by a copy of its note, whichever maps and atomics they are.
ghost use Rattle.std.specs.Prelude.{◌≡◌, ℕ, ◌^◌, ◌<◌, ◌≤◌, true, List, length, Some, slice_get};
ghost use Rattle.std.specs.Option.{ForSome};
ghost use Rattle.sync_model.specs.Front.{AtLeast};
ghost use Rattle.sync_model.specs.Note.{SameHome, IsCounted};
ghost use Rattle.sync_model.specs.Shared.{CallerState, Called, IsCallerAt, items_of, state_of};
ghost use Rattle.sync_model.specs.SharedCalls.{Lawful};
ghost use Rattle.sync_model.specs.SharedHistory.{Contents, first_contents};
ghost use Rattle.sync_model.specs.Told.{AreIn, FindsItOrALater, HearsOfAStore};

use crate::caller::Caller;
use crate::item::{Item, SharedCall, SharedEntry, SharedReply};
use crate::laws::shared::{a_call_lies_behind_what_its_caller_knew, each_entry_is_a_call};
use crate::note::Note;
use crate::reads::a_load_behind_a_store_finds_it_or_a_later_one;
use crate::shared::Shared;
use std::sync::Wait;
use sync_types::{MapCall, MapReply};

/// What was told lies before. Where a caller's front is at least that of another's note, as after a merge of its copy, each call
/// that it makes lies behind all entries that the other had made, and a load finds each store among them, or a later entry. It
/// stays so for all later calls, since no call lowers a front. The history is any lawful one of all callers, as `settle` shows it.
pub fn what_was_told_lies_before()
    ensures below { (start : Contents) (history : List SharedEntry) (calls : ℕ → List Item) (teller old new : CallerState) (i cost : ℕ) (known : Item) (call : SharedCall) (reply : SharedReply) (called : Called start call reply cost old new)
        → Lawful start history calls → AreIn teller calls → AreIn new calls → IsCounted teller.own teller.front → AtLeast old.front teller.front
        → slice_get (items_of teller.own) i ≡ Some known → known.entry ≡ true
        → known.place < called.item.place }
    ensures finds { (start : Contents) (history : List SharedEntry) (calls : ℕ → List Item) (teller old new : CallerState) (i cost m key value : ℕ) (known : Item) (reply : SharedReply) (called : Called start (SharedCall.Map m (MapCall.Load key)) reply cost old new)
        → Lawful start history calls → AreIn teller calls → AreIn new calls → IsCounted teller.own teller.front → AtLeast old.front teller.front
        → slice_get (items_of teller.own) i ≡ Some known → known.call ≡ SharedCall.Map m (MapCall.Store key value) → m < length start.maps
        → FindsItOrALater history m key known called.item }
    ensures stays_known { (start : Contents) (teller old new : CallerState) (cost : ℕ) (call : SharedCall) (reply : SharedReply)
        → Called start call reply cost old new → AtLeast old.front teller.front → AtLeast new.front teller.front }
{
    each_entry_is_a_call();
    a_load_behind_a_store_finds_it_or_a_later_one();
    a_call_lies_behind_what_its_caller_knew();
}

/// One caller stores a value, and tells another one by a copy of its note; that one takes the copy in, and loads the key. The load
/// lies behind the store, whatever others call meanwhile, and finds it or a later entry on the key.
pub fn store_tell_load<S: Shared, R: Wait>(
    shared: &S,
    rt: &R,
    giver: &mut Caller<S::Mark>,
    taker: &mut Caller<S::Mark>,
    map: u32,
    key: u32,
    value: u64,
) -> MapReply
    requires giver { IsCallerAt S.Mark.at S.Mark.own (S.home_of shared.now) giver.old }
    requires taker { IsCallerAt S.Mark.at S.Mark.own (S.home_of shared.now) taker.old }
    requires map { map < S.maps shared.now }
    requires key { S.takes shared.now key }
    requires value { value < 2 ^ 63 }
    requires spare { ForSome (S.Mark.own giver.old.note) (λ holding. 1 ≤ holding.spare) }
    ensures home { SameHome S.Mark.at giver.old.note giver.new.note × SameHome S.Mark.at taker.old.note taker.new.note }
    ensures hears { HearsOfAStore (first_contents (S.maps shared.now) (S.kinds shared.now)) map key value result
        (state_of S.Mark.own S.Mark.front S.seen giver.old.note) (state_of S.Mark.own S.Mark.front S.seen giver.new.note)
        (state_of S.Mark.own S.Mark.front S.seen taker.old.note) (state_of S.Mark.own S.Mark.front S.seen taker.new.note) }
{
    what_was_told_lies_before();
    shared.map_call(rt, giver, map, MapCall::Store { key, value });
    let told = giver.note.copy(shared.home());
    taker.note.merge(shared.home(), told);
    shared.map_call(rt, taker, map, MapCall::Load { key })
}
