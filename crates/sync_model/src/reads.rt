//! What a load finds behind a store. Each law is the contract of a function that does nothing.
ghost use Rattle.std.specs.Prelude.{◌≡◌, ℕ, ◌<◌, List, length, Some, slice_get};
ghost use Rattle.sync_model.specs.SharedHistory.{Contents};
ghost use Rattle.sync_model.specs.SharedCalls.{Lawful};
ghost use Rattle.sync_model.specs.Told.{FindsItOrALater};

use crate::item::{Item, SharedCall, SharedEntry};
use crate::laws::shared::{a_load_finds_the_last_store, each_entry_is_a_call};
use sync_types::MapCall;

/// A load that lies behind a store of its key finds that store, or a later entry on the key: never an older one, and never the
/// opening state.
pub fn a_load_behind_a_store_finds_it_or_a_later_one()
    ensures { (start : Contents) (history : List SharedEntry) (calls : ℕ → List Item) (c d i j m key value : ℕ) (store load : Item)
        → Lawful start history calls → slice_get (calls d) i ≡ Some store → slice_get (calls c) j ≡ Some load
        → store.call ≡ SharedCall.Map m (MapCall.Store key value) → load.call ≡ SharedCall.Map m (MapCall.Load key)
        → m < length start.maps → store.place < load.place → FindsItOrALater history m key store load }
{
    each_entry_is_a_call();
    a_load_finds_the_last_store();
}
