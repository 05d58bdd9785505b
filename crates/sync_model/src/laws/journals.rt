//! What holds of the journals of every machine.
ghost use Rattle.std.specs.Prelude.{◌≡◌, ◌≢◌, ◌<◌, true, List, [], ◌∷◌, ◌++◌, Some, None};
ghost use Rattle.sync_model.specs.Front.{Front, AtLeast, NoLess, Later};
ghost use Rattle.sync_model.specs.Journal.{halt_of, is_such, log_of, state_after, front_at, Follows, KeepsEdges, TimesRise, Rising};
ghost use Rattle.sync_model.specs.Log as log;

use crate::journal::{Deed, Entry};
use crate::machine::Machine;
use sync_types::Misuse;

/// The events that a machine took, of a journal that follows it, are a log of the machine for one thread: the replies
/// are the machine's, and they lead to the same state. So what holds of every log holds of an object that is shared.
pub fn journal_is_log<M: Machine>()
    ensures { (start : M.State) (journal : List (Entry M.Event M.Reply)) → Follows M.next M.HALTS start None journal
        → log.Follows M.next start (log_of journal) × (log.after M.next start (log_of journal) ≡ state_after M.next start journal) }
{}

/// The first halt stands: there is none before it, and what comes later changes nothing of it.
pub fn the_first_halt_stands<M: Machine>()
    ensures none { (journal : List (Entry M.Event M.Reply)) (last : Entry M.Event M.Reply)
        → halt_of journal ≡ None → ((misuse : Misuse) → last.deed ≢ Deed.Halt misuse) → halt_of (journal ++ last ∷ []) ≡ None }
    ensures first { (journal : List (Entry M.Event M.Reply)) (last : Entry M.Event M.Reply) (misuse : Misuse)
        → halt_of journal ≡ None → last.deed ≡ Deed.Halt misuse → halt_of (journal ++ last ∷ []) ≡ Some misuse }
    ensures stands { (earlier later : List (Entry M.Event M.Reply)) (misuse : Misuse)
        → halt_of earlier ≡ Some misuse → halt_of (earlier ++ later) ≡ Some misuse }
{}

/// Until the first halt each event is answered by the machine, and from it on each is refused by its misuse.
pub fn a_halt_refuses_events<M: Machine>()
    ensures answered { (start : M.State) (earlier later : List (Entry M.Event M.Reply)) (entry : Entry M.Event M.Reply) (event : M.Event) (reply : M.Reply)
        → Follows M.next M.HALTS start None (earlier ++ entry ∷ later) → entry.deed ≡ Deed.Event event reply
        → (halt_of earlier ≡ None) × (reply ≡ (M.next (state_after M.next start earlier) entry.caller event).1) }
    ensures refused { (start : M.State) (earlier later : List (Entry M.Event M.Reply)) (entry : Entry M.Event M.Reply) (event : M.Event) (misuse : Misuse)
        → Follows M.next M.HALTS start None (earlier ++ entry ∷ later) → entry.deed ≡ Deed.Refused event misuse
        → halt_of earlier ≡ Some misuse }
{}

/// An acquiring entry knows what each releasing entry before it knew.
pub fn edges_lead_to_later_entries<M: Machine>()
    ensures { (earlier between later : List (Entry M.Event M.Reply)) (first second : Entry M.Event M.Reply)
        → KeepsEdges M.frees M.takes (earlier ++ first ∷ (between ++ second ∷ later))
        → is_such M.frees first.deed ≡ true → is_such M.takes second.deed ≡ true → AtLeast second.front first.front }
{}

/// Of two entries of a journal the earlier one has the lower number, whatever they did: so an order of all events by their
/// numbers keeps the order of each object.
pub fn earlier_entries_have_lower_numbers<M: Machine>()
    ensures { (earlier between later : List (Entry M.Event M.Reply)) (first second : Entry M.Event M.Reply)
        → TimesRise (earlier ++ first ∷ (between ++ second ∷ later)) → first.time < second.time }
{}

/// Along the entries of one caller, from one front to another, the numbers rise, and what the caller knows never gets less:
/// so the order by numbers keeps the order of each caller too.
pub fn a_callers_entries_rise<M: Machine>()
    ensures entries { (from to : Front) (earlier between later : List (Entry M.Event M.Reply)) (first second : Entry M.Event M.Reply)
        → Rising from (earlier ++ first ∷ (between ++ second ∷ later)) to → Later (front_at second) (front_at first) }
    ensures from { (from to : Front) (earlier later : List (Entry M.Event M.Reply)) (entry : Entry M.Event M.Reply)
        → Rising from (earlier ++ entry ∷ later) to → Later (front_at entry) from × NoLess to (front_at entry) }
    ensures all { (from to : Front) (entries : List (Entry M.Event M.Reply)) → Rising from entries to → NoLess to from }
{}
