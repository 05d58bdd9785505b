//! Laws of the machine, which answers as the one-thread maps and atomics do, and of walks over its maps. Each is the contract
//! of a function that does nothing.
ghost use Rattle.std.specs.Prelude.{◌≡◌, ℕ, ◌<◌, ◌≤◌, List, Some, None};
ghost use Rattle.std.specs.FinMap.{entries};
ghost use Rattle.sync_model.specs.declared.item.SharedReply.TheVariants.{Shown};
ghost use Rattle.shared_plain.specs.declared.event.Event.TheVariants.{Next};
ghost use Rattle.sync_types.specs.declared.atomic_object.AtomicKind.{AtomicKind};
ghost use Rattle.sync_model.specs.SharedHistory.{Contents, first_contents, map_at, shared_after, value_at, IsReply, is_entry};
ghost use Rattle.shared_plain.specs.declared.event.Event.{Event};
ghost use Rattle.shared_plain.specs.declared.event.Answered.{Answered};
ghost use Rattle.shared_plain.specs.MapWalks.{IsWalk};
ghost use Rattle.shared_plain.specs.PlainMachine.{Holdings, first_holdings, contents_of, call_of, next};

/// At the start the maps are empty and the atomics are 0, or false.
pub fn starts_empty()
    ensures { (maps keys : ℕ) (kinds : List AtomicKind) → contents_of (first_holdings maps keys kinds) ≡ first_contents maps kinds }
{}

/// An event that is answered is answered as the one-thread objects answer its call, says whether the call is an entry, and
/// leaves what the call does. One that isn't answered changes nothing.
pub fn answers_as_one_thread()
    ensures reply { (h : Holdings) (caller : ℕ) (event : Event) (answered : Answered) → (next h caller event).1 ≡ Some answered → IsReply (call_of event) answered.reply (contents_of h) }
    ensures entry { (h : Holdings) (caller : ℕ) (event : Event) (answered : Answered) → (next h caller event).1 ≡ Some answered → answered.entry ≡ is_entry (call_of event) (contents_of h) }
    ensures after { (h : Holdings) (caller : ℕ) (event : Event) (answered : Answered) → (next h caller event).1 ≡ Some answered → contents_of (next h caller event).0 ≡ shared_after (call_of event) (contents_of h) }
    ensures unfit { (h : Holdings) (caller : ℕ) (event : Event) → (next h caller event).1 ≡ None → (next h caller event).0 ≡ h }
{}

/// A cursor's step shows the least key of the map that is at least `from`, with its value, and `None` where none of those keys
/// has a value.
pub fn steps_show_the_least_key()
    ensures shown { (h : Holdings) (caller m begin from key value : ℕ) (answered : Answered) → (next h caller (Next m begin from)).1 ≡ Some answered → answered.reply ≡ Shown (Some (key, value))
        → (from ≤ key) × (value_at (contents_of h) m key ≡ Some value) × ((other : ℕ) → from ≤ other → other < key → value_at (contents_of h) m other ≡ None) }
    ensures none { (h : Holdings) (caller m begin from : ℕ) (answered : Answered) → (next h caller (Next m begin from)).1 ≡ Some answered → answered.reply ≡ Shown None
        → (key : ℕ) → from ≤ key → value_at (contents_of h) m key ≡ None }
{}

/// A walk over a map that begins at key 0 shows exactly the map's entries, each once, from the least key up.
pub fn walks_show_the_entries()
    ensures { (contents : Contents) (m : ℕ) (pairs : List (ℕ × ℕ)) → IsWalk contents m 0 pairs → pairs ≡ entries (map_at contents m) }
{}
