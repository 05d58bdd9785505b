//! What a lawful history of shared maps and atomics says to their users.
ghost use Rattle.std.specs.Prelude.{◌≡◌, ◌≢◌, ℕ, ◌+◌, ◌^◌, ◌<◌, ◌≤◌, true, false, List, ◌∷◌, ◌++◌, length, take, Option, Some, None, slice_get, slice_index, ◌⊎◌};
ghost use Rattle.std.specs.Ordering.{nat_cmp};
ghost use Rattle.std.specs.FinMap.{FinMap, get};
ghost use Rattle.sync_types.specs.KeyCalls.{key_reply, is_key_entry};
ghost use Rattle.sync_types.specs.SequentialMap.{map_after, map_key};
ghost use Rattle.sync_types.specs.SequentialAtomic.{zero_of, atomic_reply, is_atomic_entry};
ghost use Rattle.sync_model.specs.Front.{AtLeast};
ghost use Rattle.sync_model.specs.SharedHistory.{Contents, first_contents, value_at, contents_at};
ghost use Rattle.sync_model.specs.SharedCalls.{Knows, IsStep, Lawful};
ghost use Rattle.sync_model.specs.Shared.{values_of, cost_of};
ghost use Rattle.sync_model.specs.SharedLaws.{LeaveKey, LeaveAtomic, value_by, number_by};

use crate::item::{Item, SharedCall, SharedEntry, SharedReply};
use sync_types::{AtomicCall, AtomicKind, AtomicReply, MapCall, MapReply, Number};

/// A load finds what the last store before its place stored: the last one of this atomic, or of this key, where no entry
/// between is on it. Where no entry before its place is on it, it finds the zero value of Go's type: no value at a key, 0 or
/// false in an atomic.
pub fn a_load_finds_the_last_store()
    ensures map { (start : Contents) (earlier between later : List SharedEntry) (store : SharedEntry) (calls : ℕ → List Item) (c j m key value : ℕ) (load : Item)
        → Lawful start (earlier ++ store ∷ (between ++ later)) calls → slice_get (calls c) j ≡ Some load
        → load.place ≡ length (earlier ++ store ∷ between) → load.call ≡ SharedCall.Map m (MapCall.Load key)
        → store.call ≡ SharedCall.Map m (MapCall.Store key value) → LeaveKey m key between → m < length start.maps
        → load.reply ≡ SharedReply.Map (MapReply.Found (Some value)) }
    ensures atomic { (start : Contents) (earlier between later : List SharedEntry) (store : SharedEntry) (calls : ℕ → List Item) (c j a : ℕ) (value : Number) (load : Item)
        → Lawful start (earlier ++ store ∷ (between ++ later)) calls → slice_get (calls c) j ≡ Some load
        → load.place ≡ length (earlier ++ store ∷ between) → load.call ≡ SharedCall.Atomic a AtomicCall.Load
        → store.call ≡ SharedCall.Atomic a (AtomicCall.Store value) → LeaveAtomic a between → a < length start.numbers
        → load.reply ≡ SharedReply.Atomic (AtomicReply.Held value) }
    ensures no_value { (maps : ℕ) (kinds : List AtomicKind) (earlier later : List SharedEntry) (calls : ℕ → List Item) (c j m key : ℕ) (load : Item)
        → Lawful (first_contents maps kinds) (earlier ++ later) calls → slice_get (calls c) j ≡ Some load
        → load.place ≡ length earlier → load.call ≡ SharedCall.Map m (MapCall.Load key) → LeaveKey m key earlier
        → load.reply ≡ SharedReply.Map (MapReply.Found None) }
    ensures zero { (maps : ℕ) (kinds : List AtomicKind) (earlier later : List SharedEntry) (calls : ℕ → List Item) (c j a : ℕ) (kind : AtomicKind) (load : Item)
        → Lawful (first_contents maps kinds) (earlier ++ later) calls → slice_get (calls c) j ≡ Some load
        → load.place ≡ length earlier → load.call ≡ SharedCall.Atomic a AtomicCall.Load → slice_get kinds a ≡ Some kind → LeaveAtomic a earlier
        → load.reply ≡ SharedReply.Atomic (AtomicReply.Held (zero_of kind)) }
{}

/// Each key of a map goes by itself, and each atomic: what a call answers, and whether it is an entry, follows from the entries
/// on its key or its atomic that lie before its place, played one after the other to one thread. So what is known of the
/// objects for one thread is known of those that callers share, key by key. A call of a cursor is never an entry.
pub fn each_key_and_each_atomic_goes_by_itself()
    ensures map { (maps : ℕ) (kinds : List AtomicKind) (history : List SharedEntry) (calls : ℕ → List Item) (c j m key : ℕ) (call : MapCall ℕ) (x : Item)
        → Lawful (first_contents maps kinds) history calls → slice_get (calls c) j ≡ Some x → x.call ≡ SharedCall.Map m call → map_key call ≡ Some key → m < maps
        → (x.reply ≡ SharedReply.Map (key_reply call (value_by m key None (take x.place history)))) × (x.entry ≡ is_key_entry call (value_by m key None (take x.place history))) }
    ensures clear { (start : Contents) (history : List SharedEntry) (calls : ℕ → List Item) (c j m : ℕ) (x : Item)
        → Lawful start history calls → slice_get (calls c) j ≡ Some x → x.call ≡ SharedCall.Map m MapCall.Clear
        → (x.reply ≡ SharedReply.Map MapReply.Done) × (x.entry ≡ true) }
    ensures atomic { (maps : ℕ) (kinds : List AtomicKind) (history : List SharedEntry) (calls : ℕ → List Item) (c j a : ℕ) (kind : AtomicKind) (call : AtomicCall) (x : Item)
        → Lawful (first_contents maps kinds) history calls → slice_get (calls c) j ≡ Some x → x.call ≡ SharedCall.Atomic a call → slice_get kinds a ≡ Some kind
        → (x.reply ≡ SharedReply.Atomic (atomic_reply call (number_by a (zero_of kind) (take x.place history)))) × (x.entry ≡ is_atomic_entry call (number_by a (zero_of kind) (take x.place history))) }
    ensures begin { (start : Contents) (history : List SharedEntry) (calls : ℕ → List Item) (c j m : ℕ) (x : Item)
        → Lawful start history calls → slice_get (calls c) j ≡ Some x → x.call ≡ SharedCall.Begin m → (x.reply ≡ SharedReply.Begun) × (x.entry ≡ false) }
    ensures next { (start : Contents) (history : List SharedEntry) (calls : ℕ → List Item) (c j b : ℕ) (x : Item)
        → Lawful start history calls → slice_get (calls c) j ≡ Some x → x.call ≡ SharedCall.Next b → x.entry ≡ false }
{}

/// A caller's calls lie in the history in the caller's own order: an entry lies below the place of each later call of its
/// caller, and no later call has a lower place.
pub fn a_callers_calls_are_in_order()
    ensures below { (start : Contents) (history : List SharedEntry) (calls : ℕ → List Item) (c i j : ℕ) (first second : Item)
        → Lawful start history calls → i < j → slice_get (calls c) i ≡ Some first → slice_get (calls c) j ≡ Some second
        → first.entry ≡ true → first.place < second.place }
    ensures order { (start : Contents) (history : List SharedEntry) (calls : ℕ → List Item) (c i j : ℕ) (first second : Item)
        → Lawful start history calls → i < j → slice_get (calls c) i ≡ Some first → slice_get (calls c) j ≡ Some second
        → first.place ≤ second.place }
{}

/// What a caller knew lies behind it: an entry of another caller lies below the place of each call before which it was known,
/// and no call that was known has a higher place. So a load finds each store of which its caller was told through a lock, or
/// a later one.
pub fn a_call_lies_behind_what_its_caller_knew()
    ensures below { (start : Contents) (history : List SharedEntry) (calls : ℕ → List Item) (c d i j : ℕ) (known call : Item)
        → Lawful start history calls → slice_get (calls d) i ≡ Some known → slice_get (calls c) j ≡ Some call → i < slice_index call.front d
        → known.entry ≡ true → known.place < call.place }
    ensures order { (start : Contents) (history : List SharedEntry) (calls : ℕ → List Item) (c d i j : ℕ) (known call : Item)
        → Lawful start history calls → slice_get (calls d) i ≡ Some known → slice_get (calls c) j ≡ Some call → i < slice_index call.front d
        → known.place ≤ call.place }
    ensures forgets_nothing { (start : Contents) (history : List SharedEntry) (calls : ℕ → List Item) (c i j : ℕ) (first second : Item)
        → Lawful start history calls → i < j → slice_get (calls c) i ≡ Some first → slice_get (calls c) j ≡ Some second
        → AtLeast second.front first.front }
{}

/// Each entry of the history is a call of its caller, at its place, and no entry is two calls. Each call that says it is an
/// entry is one; a store always is one, and a load never.
pub fn each_entry_is_a_call()
    ensures call { (start : Contents) (history : List SharedEntry) (calls : ℕ → List Item) (n : ℕ) (entry : SharedEntry)
        → Lawful start history calls → slice_get history n ≡ Some entry
        → (j : ℕ) × (x : Item) × (slice_get (calls entry.caller) j ≡ Some x) × (x.entry ≡ true) × (x.place ≡ n) × (x.call ≡ entry.call) × (x.reply ≡ entry.reply) }
    ensures entry { (start : Contents) (history : List SharedEntry) (calls : ℕ → List Item) (c j : ℕ) (x : Item)
        → Lawful start history calls → slice_get (calls c) j ≡ Some x → x.entry ≡ true
        → (entry : SharedEntry) × (slice_get history x.place ≡ Some entry) × (entry.caller ≡ c) × (entry.call ≡ x.call) × (entry.reply ≡ x.reply) }
    ensures once { (start : Contents) (history : List SharedEntry) (calls : ℕ → List Item) (c d i j : ℕ) (x y : Item)
        → Lawful start history calls → slice_get (calls c) i ≡ Some x → slice_get (calls d) j ≡ Some y → x.entry ≡ true → y.entry ≡ true
        → x.place ≡ y.place → (c ≡ d) × (i ≡ j) }
    ensures store { (start : Contents) (history : List SharedEntry) (calls : ℕ → List Item) (c j m key value : ℕ) (x : Item)
        → Lawful start history calls → slice_get (calls c) j ≡ Some x → x.call ≡ SharedCall.Map m (MapCall.Store key value) → x.entry ≡ true }
    ensures store_of_atomic { (start : Contents) (history : List SharedEntry) (calls : ℕ → List Item) (c j a : ℕ) (value : Number) (x : Item)
        → Lawful start history calls → slice_get (calls c) j ≡ Some x → x.call ≡ SharedCall.Atomic a (AtomicCall.Store value) → x.entry ≡ true }
    ensures load { (start : Contents) (history : List SharedEntry) (calls : ℕ → List Item) (c j m key : ℕ) (x : Item)
        → Lawful start history calls → slice_get (calls c) j ≡ Some x → x.call ≡ SharedCall.Map m (MapCall.Load key) → x.entry ≡ false }
    ensures load_of_atomic { (start : Contents) (history : List SharedEntry) (calls : ℕ → List Item) (c j a : ℕ) (x : Item)
        → Lawful start history calls → slice_get (calls c) j ≡ Some x → x.call ≡ SharedCall.Atomic a AtomicCall.Load → x.entry ≡ false }
{}

/// The callers' own lists determine the history. So two histories of one set of lists differ in nothing that a reply shows:
/// they are equal.
pub fn the_calls_determine_the_history()
    ensures { (start other : Contents) (first second : List SharedEntry) (calls : ℕ → List Item)
        → Lawful start first calls → Lawful other second calls → first ≡ second }
{}

/// Each step of a cursor follows its begin, and shows a pair or none. A Range shows no key twice; it shows a key only with a value that the key had after all that its caller knew when it
/// began, and before the step that shows it; and when it ends it has shown every key that stood all the while.
pub fn a_range_shows_each_key_once_and_misses_none()
    ensures steps { (start : Contents) (history : List SharedEntry) (calls : ℕ → List Item) (c b j : ℕ) (x : Item)
        → Lawful start history calls → slice_get (calls c) j ≡ Some x → x.call ≡ SharedCall.Next b
        → (begin : Item) × (m : ℕ) × (shown : Option (ℕ × ℕ)) × (b < j) × (slice_get (calls c) b ≡ Some begin) × (begin.call ≡ SharedCall.Begin m) × IsStep (calls c) b j x shown }
    ensures once { (start : Contents) (history : List SharedEntry) (calls : ℕ → List Item) (c b i j key value other : ℕ) (x y : Item)
        → Lawful start history calls → IsStep (calls c) b i x (Some (key, value)) → IsStep (calls c) b j y (Some (key, other)) → i ≡ j }
    ensures shown { (start : Contents) (history : List SharedEntry) (calls : ℕ → List Item) (c b i m key value : ℕ) (begin x : Item)
        → Lawful start history calls → slice_get (calls c) b ≡ Some begin → begin.call ≡ SharedCall.Begin m → IsStep (calls c) b i x (Some (key, value))
        → (n : ℕ) × Knows calls begin.front n × (n ≤ x.place) × (value_at (contents_at start history n) m key ≡ Some value) }
    ensures misses_none { (start : Contents) (history : List SharedEntry) (calls : ℕ → List Item) (c b i m key : ℕ) (begin x : Item)
        → Lawful start history calls → slice_get (calls c) b ≡ Some begin → begin.call ≡ SharedCall.Begin m → IsStep (calls c) b i x None → key < 2 ^ 32
        → ((n : ℕ) → Knows calls begin.front n → n ≤ x.place → value_at (contents_at start history n) m key ≢ None)
        → (j : ℕ) × (y : Item) × (value : ℕ) × (j < i) × IsStep (calls c) b j y (Some (key, value)) }
{}

/// What a call asks: a map has no value but those of calls, so all are 0 to 2^63 - 1; and only a load takes none of its
/// caller's spare entries.
pub fn a_map_has_the_values_of_its_calls()
    ensures values { (call : MapCall ℕ) (m : FinMap nat_cmp ℕ) (key value : ℕ) → get (map_after call m) key ≡ Some value
        → (get m key ≡ Some value) ⊎ ((i : ℕ) × (slice_get (values_of call) i ≡ Some value)) }
    ensures load { (key : ℕ) → cost_of (MapCall.Load key) ≡ 0 }
    ensures others { (call : MapCall ℕ) → ((key : ℕ) → call ≢ MapCall.Load key) → cost_of call ≡ 1 }
{}
