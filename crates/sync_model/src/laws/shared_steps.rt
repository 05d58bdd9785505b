//! How a lawful history of shared maps and atomics goes on, for those who keep one.
ghost use Rattle.std.specs.Prelude.{◌≡◌, ◌≢◌, ℕ, ◌+◌, ◌<◌, ◌≤◌, true, false, List, [], ◌∷◌, ◌++◌, length, Option, Some, slice_get};
ghost use Rattle.sync_model.specs.Front.{AtLeast};
ghost use Rattle.sync_model.specs.Journal.{Begins};
ghost use Rattle.sync_model.specs.SharedHistory.{Contents, contents_after, contents_at, shared_after, is_entry, IsReply, IsLegal, entries_by, marked_in, history_with};
ghost use Rattle.sync_model.specs.SharedCalls.{bound, Knows, Grows, IsStep, WasSo, Lawful, MayCall, AddsCall};
ghost use Rattle.sync_model.specs.Shared.{CallerState, Called};
ghost use Rattle.sync_model.specs.SharedLaws.{IsWithinBoth, SameState, TakesIn};

use crate::item::{Item, SharedCall, SharedEntry, SharedReply};

/// The law holds at the start, and one more call keeps it, where it is one that its caller may make. The lists count alone:
/// which function gives them doesn't matter.
pub fn one_more_call_keeps_the_law()
    ensures start { (start : Contents) → Lawful start [] (λ caller. []) }
    ensures more { (start : Contents) (history : List SharedEntry) (calls new : ℕ → List Item) (c : ℕ) (x : Item)
        → AddsCall calls c x new → Lawful start history calls → MayCall start history calls c x → Lawful start (history_with history c x) new }
    ensures same { (start : Contents) (history : List SharedEntry) (calls other : ℕ → List Item)
        → ((c : ℕ) → other c ≡ calls c) → Lawful start history calls → Lawful start history other }
{}

/// A call that the law allows is what its caller is promised, where the caller's state takes it in and has seen some first
/// part of the history that it leads to.
pub fn a_lawful_call_is_as_promised()
    ensures { (start : Contents) (history : List SharedEntry) (calls : ℕ → List Item) (x : Item) (cost : ℕ) (old new : CallerState) (takes : TakesIn x cost old new)
        → calls takes.was.number ≡ takes.was.items → Lawful start history calls → MayCall start history calls takes.was.number x
        → Begins (history_with history takes.was.number x) new.seen → Called start x.call x.reply cost old new }
{}

/// What a caller is promised of a call speaks of what contracts see of its note alone, before the call and after it. So a
/// step that a caller makes before or behind its call, and that nobody sees, changes nothing of the promise.
pub fn a_promise_carries_over()
    ensures { (start : Contents) (call : SharedCall) (reply : SharedReply) (cost : ℕ) (old new other_old other_new : CallerState)
        → SameState old other_old → SameState new other_new → Called start call reply cost old new → Called start call reply cost other_old other_new }
{}

/// What a front knows stays true: when callers make more calls, further on in the history, of a front that counts less, and
/// of one that a note has after it took in another.
pub fn fronts_stay_known()
    ensures grows { (calls new : ℕ → List Item) (c : ℕ) (x : Item) → AddsCall calls c x new → Grows calls new }
    ensures more { (calls new : ℕ → List Item) (front : List ℕ) (n m : ℕ) → Grows calls new → n ≤ m → Knows calls front n → Knows new front m }
    ensures less { (calls : ℕ → List Item) (front other : List ℕ) (n : ℕ) → AtLeast front other → Knows calls front n → Knows calls other n }
    ensures both { (calls : ℕ → List Item) (both first second : List ℕ) (n : ℕ)
        → IsWithinBoth both first second → Knows calls first n → Knows calls second n → Knows calls both n }
{}

/// What was so at some moment stays so.
pub fn what_was_so_stays_so()
    ensures { (calls new : ℕ → List Item) (start : Contents) (history later : List SharedEntry) (front : List ℕ) (reach m key : ℕ) (value : Option ℕ)
        → Grows calls new → reach ≤ length history → WasSo start history calls front reach m key value → WasSo start (history ++ later) new front reach m key value }
{}

/// A cursor has made no step before the call that begins it.
pub fn a_cursor_steps_after_it_began()
    ensures { (start : Contents) (history : List SharedEntry) (calls : ℕ → List Item) (c b i : ℕ) (x : Item) (shown : Option (ℕ × ℕ))
        → Lawful start history calls → IsStep (calls c) b i x shown → b < i }
{}

/// Later entries change nothing of what the maps and atomics contained before. A history in two parts leads to where the
/// second part leads from there, and is legal exactly where the second part is from there, and the first.
pub fn histories_go_on()
    ensures same { (start : Contents) (earlier later : List SharedEntry) (n : ℕ) → n ≤ length earlier → contents_at start (earlier ++ later) n ≡ contents_at start earlier n }
    ensures all { (start : Contents) (history : List SharedEntry) (n : ℕ) → length history ≤ n → contents_at start history n ≡ contents_after start history }
    ensures after { (start : Contents) (earlier later : List SharedEntry) → contents_after start (earlier ++ later) ≡ contents_after (contents_after start earlier) later }
    ensures apart { (start : Contents) (earlier later : List SharedEntry) → IsLegal start (earlier ++ later) → IsLegal start earlier × IsLegal (contents_after start earlier) later }
    ensures joined { (start : Contents) (earlier later : List SharedEntry) → IsLegal start earlier → IsLegal (contents_after start earlier) later → IsLegal start (earlier ++ later) }
    ensures legal { (start : Contents) (history : List SharedEntry) (n : ℕ) (entry : SharedEntry) → IsLegal start history → slice_get history n ≡ Some entry
        → (is_entry entry.call (contents_at start history n) ≡ true) × IsReply entry.call entry.reply (contents_at start history n) }
{}

/// One more entry is one more of its caller's, with its number, and none of another's.
pub fn entries_go_on()
    ensures own { (c : ℕ) (history : List SharedEntry) (entry : SharedEntry) → entry.caller ≡ c → entries_by c (history ++ entry ∷ []) ≡ entries_by c history ++ (length history, entry) ∷ [] }
    ensures other { (c : ℕ) (history : List SharedEntry) (entry : SharedEntry) → entry.caller ≢ c → entries_by c (history ++ entry ∷ []) ≡ entries_by c history }
    ensures marked { (c : ℕ) (earlier later : List Item) → marked_in c (earlier ++ later) ≡ marked_in c earlier ++ marked_in c later }
    ensures seen { (c : ℕ) (items : List Item) (seen later : List SharedEntry) → marked_in c items ≡ entries_by c (seen ++ later)
        → ((j : ℕ) (x : Item) → slice_get items j ≡ Some x → bound x ≤ length seen) → marked_in c items ≡ entries_by c seen }
{}

/// However long a history is, there are as many maps and atomics as at the start. A call that is no entry changes nothing.
pub fn maps_and_atomics_stay()
    ensures maps { (start : Contents) (history : List SharedEntry) → length (contents_after start history).maps ≡ length start.maps }
    ensures numbers { (start : Contents) (history : List SharedEntry) → length (contents_after start history).numbers ≡ length start.numbers }
    ensures no_entry { (call : SharedCall) (contents : Contents) → is_entry call contents ≡ false → shared_after call contents ≡ contents }
{}
