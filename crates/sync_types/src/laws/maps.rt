//! What a map does for its users, whatever type its keys have.
ghost use Rattle.std.specs.Prelude.{◌≡◌, ◌≢◌, ℕ, Bool, true, false, not, Option, Some, None, is_some};
ghost use Rattle.std.specs.declared.cmp.Ordering.{Ordering};
ghost use Rattle.std.specs.FinMap.{FinMap};
ghost use Rattle.sync_types.specs.SequentialMap.{map_reply, map_after, map_key, is_map_entry};
ghost use Rattle.sync_types.specs.MapLaws.{IsKeyOrder, Finds};
ghost use Rattle.sync_types.specs.KeyCalls.{key_reply, is_key_entry, key_after};

use crate::map_object::{MapCall, MapReply};

/// A load finds what was stored last: by a store or a swap, by a compare-and-swap that answered true, and after a
/// load-or-store what that answered.
pub fn load_finds_what_was_stored<K>()
    ensures store { (R : K → K → Ordering) → IsKeyOrder R → (m : FinMap R ℕ) (key : K) (value : ℕ)
        → Finds (map_after (MapCall.Store key value) m) key (Some value) }
    ensures swap { (R : K → K → Ordering) → IsKeyOrder R → (m : FinMap R ℕ) (key : K) (value : ℕ)
        → Finds (map_after (MapCall.Swap key value) m) key (Some value) }
    ensures compare_and_swap { (R : K → K → Ordering) → IsKeyOrder R → (m : FinMap R ℕ) (key : K) (old new : ℕ)
        → map_reply (MapCall.CompareAndSwap key old new) m ≡ MapReply.Compared true
        → Finds (map_after (MapCall.CompareAndSwap key old new) m) key (Some new) }
    ensures load_or_store { (R : K → K → Ordering) → IsKeyOrder R → (m : FinMap R ℕ) (key : K) (value there : ℕ) (loaded : Bool)
        → map_reply (MapCall.LoadOrStore key value) m ≡ MapReply.Settled there loaded
        → Finds (map_after (MapCall.LoadOrStore key value) m) key (Some there) }
{}

/// The value before a call is what a load would have found: it is what a swap and a load-and-delete answer, and where there
/// is one, a load-or-store answers it and stores nothing.
pub fn calls_answer_the_value_before<K>()
    ensures swap { (R : K → K → Ordering) (m : FinMap R ℕ) (key : K) (value : ℕ)
        → map_reply (MapCall.Swap key value) m ≡ map_reply (MapCall.Load key) m }
    ensures load_and_delete { (R : K → K → Ordering) (m : FinMap R ℕ) (key : K)
        → map_reply (MapCall.LoadAndDelete key) m ≡ map_reply (MapCall.Load key) m }
    ensures load_or_store { (R : K → K → Ordering) (m : FinMap R ℕ) (key : K) (value there : ℕ)
        → Finds m key (Some there)
        → (map_reply (MapCall.LoadOrStore key value) m ≡ MapReply.Settled there true)
        × (map_after (MapCall.LoadOrStore key value) m ≡ m) }
{}

/// A call on one key leaves every other key.
pub fn calls_leave_other_keys<K>()
    ensures { (R : K → K → Ordering) → IsKeyOrder R → (m : FinMap R ℕ) (call : MapCall K) (key other : K)
        → map_key call ≡ Some key → other ≢ key
        → map_reply (MapCall.Load other) (map_after call m) ≡ map_reply (MapCall.Load other) m }
{}

/// What a load of its key would have found decides all that a call does there: what it answers, whether it is an entry of
/// the shared history, and what a load finds afterwards. A clear has no key, and is on every one.
pub fn its_key_decides_a_call<K>()
    ensures reply { (R : K → K → Ordering) (m : FinMap R ℕ) (call : MapCall K) (key : K) (held : Option ℕ)
        → map_key call ≡ Some key → Finds m key held → map_reply call m ≡ key_reply call held }
    ensures entry { (R : K → K → Ordering) (m : FinMap R ℕ) (call : MapCall K) (key : K) (held : Option ℕ)
        → map_key call ≡ Some key → Finds m key held → is_map_entry call m ≡ is_key_entry call held }
    ensures after { (R : K → K → Ordering) → IsKeyOrder R → (m : FinMap R ℕ) (call : MapCall K) (key : K) (held : Option ℕ)
        → map_key call ≡ Some key → Finds m key held → Finds (map_after call m) key (key_after call held) }
    ensures clear { (R : K → K → Ordering) (m : FinMap R ℕ) (call : MapCall K) (key : K) (held : Option ℕ)
        → map_key call ≡ None → (map_reply call m ≡ key_reply call held) × (is_map_entry call m ≡ is_key_entry call held) × Finds (map_after call m) key (key_after call held) }
{}

/// A call that is no entry of the shared history changes nothing.
pub fn only_entries_change<K>()
    ensures { (R : K → K → Ordering) → IsKeyOrder R → (m : FinMap R ℕ) (call : MapCall K)
        → is_map_entry call m ≡ false → map_after call m ≡ m }
{}

/// Which calls are entries, as their replies say: a load-or-store that stored, a load-and-delete that removed, and a
/// compare-and-swap or compare-and-delete that answered true. A delete is one where the key was there. A load never is one,
/// and a store, a swap and a clear always are, also where they leave the map as it was.
pub fn entries_are_seen<K>()
    ensures load { (R : K → K → Ordering) (m : FinMap R ℕ) (key : K)
        → is_map_entry (MapCall.Load key) m ≡ false }
    ensures store { (R : K → K → Ordering) (m : FinMap R ℕ) (key : K) (value : ℕ)
        → is_map_entry (MapCall.Store key value) m ≡ true }
    ensures swap { (R : K → K → Ordering) (m : FinMap R ℕ) (key : K) (value : ℕ)
        → is_map_entry (MapCall.Swap key value) m ≡ true }
    ensures clear { (R : K → K → Ordering) (m : FinMap R ℕ)
        → is_map_entry MapCall.Clear m ≡ true }
    ensures load_or_store { (R : K → K → Ordering) (m : FinMap R ℕ) (key : K) (value there : ℕ) (loaded : Bool)
        → map_reply (MapCall.LoadOrStore key value) m ≡ MapReply.Settled there loaded
        → is_map_entry (MapCall.LoadOrStore key value) m ≡ not loaded }
    ensures load_and_delete { (R : K → K → Ordering) (m : FinMap R ℕ) (key : K) (found : Option ℕ)
        → map_reply (MapCall.LoadAndDelete key) m ≡ MapReply.Found found
        → is_map_entry (MapCall.LoadAndDelete key) m ≡ is_some found }
    ensures delete { (R : K → K → Ordering) (m : FinMap R ℕ) (key : K) (found : Option ℕ)
        → Finds m key found
        → is_map_entry (MapCall.Delete key) m ≡ is_some found }
    ensures compare_and_swap { (R : K → K → Ordering) (m : FinMap R ℕ) (key : K) (old new : ℕ) (was : Bool)
        → map_reply (MapCall.CompareAndSwap key old new) m ≡ MapReply.Compared was
        → is_map_entry (MapCall.CompareAndSwap key old new) m ≡ was }
    ensures compare_and_delete { (R : K → K → Ordering) (m : FinMap R ℕ) (key : K) (old : ℕ) (was : Bool)
        → map_reply (MapCall.CompareAndDelete key old) m ≡ MapReply.Compared was
        → is_map_entry (MapCall.CompareAndDelete key old) m ≡ was }
{}

/// A compare-and-swap stores exactly where the old value is there. An absent key has no value, not even 0.
pub fn compare_and_swap_stores_over_the_old_value<K>()
    ensures there { (R : K → K → Ordering) → IsKeyOrder R → (m : FinMap R ℕ) (key : K) (old new : ℕ)
        → Finds m key (Some old)
        → (map_reply (MapCall.CompareAndSwap key old new) m ≡ MapReply.Compared true)
        × Finds (map_after (MapCall.CompareAndSwap key old new) m) key (Some new) }
    ensures another { (R : K → K → Ordering) (m : FinMap R ℕ) (key : K) (old new value : ℕ)
        → Finds m key (Some value) → value ≢ old
        → (map_reply (MapCall.CompareAndSwap key old new) m ≡ MapReply.Compared false)
        × (map_after (MapCall.CompareAndSwap key old new) m ≡ m) }
    ensures absent { (R : K → K → Ordering) (m : FinMap R ℕ) (key : K) (old new : ℕ)
        → Finds m key None
        → (map_reply (MapCall.CompareAndSwap key old new) m ≡ MapReply.Compared false)
        × (map_after (MapCall.CompareAndSwap key old new) m ≡ m) }
{}

/// A compare-and-delete removes exactly where the old value is there. An absent key has no value, not even 0.
pub fn compare_and_delete_removes_the_old_value<K>()
    ensures there { (R : K → K → Ordering) → IsKeyOrder R → (m : FinMap R ℕ) (key : K) (old : ℕ)
        → Finds m key (Some old)
        → (map_reply (MapCall.CompareAndDelete key old) m ≡ MapReply.Compared true)
        × Finds (map_after (MapCall.CompareAndDelete key old) m) key None }
    ensures another { (R : K → K → Ordering) (m : FinMap R ℕ) (key : K) (old value : ℕ)
        → Finds m key (Some value) → value ≢ old
        → (map_reply (MapCall.CompareAndDelete key old) m ≡ MapReply.Compared false)
        × (map_after (MapCall.CompareAndDelete key old) m ≡ m) }
    ensures absent { (R : K → K → Ordering) (m : FinMap R ℕ) (key : K) (old : ℕ)
        → Finds m key None
        → (map_reply (MapCall.CompareAndDelete key old) m ≡ MapReply.Compared false)
        × (map_after (MapCall.CompareAndDelete key old) m ≡ m) }
{}

/// After a delete or a load-and-delete of a key it is absent, and after a clear every key is.
pub fn removed_keys_are_absent<K>()
    ensures delete { (R : K → K → Ordering) → IsKeyOrder R → (m : FinMap R ℕ) (key : K)
        → Finds (map_after (MapCall.Delete key) m) key None }
    ensures load_and_delete { (R : K → K → Ordering) → IsKeyOrder R → (m : FinMap R ℕ) (key : K)
        → Finds (map_after (MapCall.LoadAndDelete key) m) key None }
    ensures clear { (R : K → K → Ordering) (m : FinMap R ℕ) (key : K)
        → Finds (map_after MapCall.Clear m) key None }
{}

/// Every call has a key but a clear.
pub fn only_a_clear_has_no_key<K>()
    ensures { (call : MapCall K) → map_key call ≡ None → call ≡ MapCall.Clear }
{}
