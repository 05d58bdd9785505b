//! How the entries of several calls add up.
ghost use Rattle.std.specs.Prelude.{◌≡◌, ◌<◌, ◌+◌, ◌%◌, ◌^◌, ℕ, List, [], ◌∷◌, ◌++◌, Option, Some, length, slice_get, slice_index};
ghost use Rattle.atomic_table.specs.Table.{State};
ghost use Rattle.sync_model.specs.declared.journal.Entry.{Entry};
ghost use Rattle.sync_model.specs.Front.{Front};
ghost use Rattle.ruled_object.specs.declared.cell.Cell.{Cell};
ghost use Rattle.ruled_object.specs.declared.pass.Pass.{Pass};
ghost use Rattle.ruled_object.specs.declared.rule.Begin.{Begin};
ghost use Rattle.ruled_object.specs.declared.view.View.{View};
ghost use Rattle.ruled_object.specs.declared.object.Object.{Object};
ghost use Rattle.ruled_object.specs.Gathered.{IsSeen, IsWhole};
ghost use Rattle.ruled_object.specs.Growth.{Placed, Grows, IsLawful, KeepsNote, NeedsNoTurn, AddUp, LastTells, entries_of};
ghost use Rattle.ruled_object.specs.Notes.{held_by, IsNoteOf, Shows};
ghost use Rattle.ruled_object.specs.Passes.{own_by, seen_by, IsPassOf, IsSpent};
ghost use Rattle.ruled_object.specs.Rule.{Kept};
ghost use Rattle.ruled_object.specs.Standing.{stand_next, stand_from};
ghost use Rattle.ruled_object.specs.Turns.{HaveTaken, IsOut, TurnTells};

use crate::new::MAX_CALLS;
use sync_model::{MAX_CALLERS, Note, Worded};

/// What several calls of one caller add to the history. No call adds nothing; what two calls add, one after the other,
/// they add together; and of several entries the last one tells whether a halt was met.
pub fn growth<M: Worded, N: Note>()
    ensures nothing { (start : M.State) (pass : Pass M.State N M.Event M.Reply) (front : Front)
        → Grows M.next M.HALTS start pass front [] pass front }
    ensures both { (start : M.State) → AddUp N M.next M.HALTS start }
    ensures halted { LastTells M.Event M.Reply }
{}

/// What two calls keep of their caller's note, one after the other, they keep together.
pub fn notes_are_kept<N: Note>()
    ensures { (first second third : N)
        → KeepsNote N.at N.own N.front first second → KeepsNote N.at N.own N.front second third
        → KeepsNote N.at N.own N.front first third }
{}

/// Where a caller stands after one entry more of its own, alone or behind others: where the entry's deed leads from where
/// it stood before.
pub fn standing<M: Worded, W>()
    ensures entry { (out : W) (after : W → M.Event → M.Reply → W) (place : W) (own : List (Entry M.Event M.Reply)) (last : Entry M.Event M.Reply)
        → stand_from out after place (own ++ last ∷ []) ≡ stand_next out after (stand_from out after place own) last.deed }
    ensures entries { (out : W) (after : W → M.Event → M.Reply → W) (place : W) (old new : List (Entry M.Event M.Reply)) (es : List (Placed M.Event M.Reply)) (last : Placed M.Event M.Reply)
        → new ≡ old ++ entries_of (es ++ last ∷ [])
        → stand_from out after place new ≡ stand_next out after (stand_from out after place (old ++ entries_of es)) last.entry.deed }
{}

/// A caller's pass is what holds its entries, and a copy is what holds nobody's. What the one shows of the history the
/// other does.
pub fn passes_and_copies<M: Worded, N: Note>()
    ensures holds { (object : Object M N M.State M.Event M.Reply N.Home) (pass : Pass M.State N M.Event M.Reply)
        → IsPassOf object pass → IsNoteOf object pass × (held_by pass ≡ Some (own_by pass)) }
    ensures is_pass { (object : Object M N M.State M.Event M.Reply N.Home) (pass : Pass M.State N M.Event M.Reply) (own : List (Entry M.Event M.Reply))
        → IsNoteOf object pass → held_by pass ≡ Some own → IsPassOf object pass × (own_by pass ≡ own) }
    ensures shows { (start : M.State) (pass : Pass M.State N M.Event M.Reply)
        → IsLawful M.next M.HALTS M.frees M.takes start pass → Shows M.next M.HALTS M.frees M.takes start pass }
    ensures lawful { (start : M.State) (pass : Pass M.State N M.Event M.Reply) (own : List (Entry M.Event M.Reply))
        → held_by pass ≡ Some own → Shows M.next M.HALTS M.frees M.takes start pass → IsLawful M.next M.HALTS M.frees M.takes start pass }
{}

/// Passes that were looked at together and handed back, each with its caller's entries, have together seen the whole
/// history.
pub fn all_handed_back<M: Worded, N: Note>()
    ensures { (start : M.State) (journal : List (Entry M.Event M.Reply)) (old new : List (Pass M.State N M.Event M.Reply))
        → IsWhole M.next M.HALTS M.frees M.takes start journal old → length new ≡ length old
        → ((i : ℕ) (before after : Pass M.State N M.Event M.Reply) → slice_get old i ≡ Some before → slice_get new i ≡ Some after → (seen_by after ≡ journal) × (own_by after ≡ own_by before))
        → IsSeen M.next M.HALTS M.frees M.takes start journal new }
{}

/// Who made one event that the word alone decides took no turn, also where it took off a call before; and who made several
/// events didn't make one alone.
pub fn turns_needed<M: Worded, N: Note>()
    ensures spent { (start : M.State) (old mid new : Pass M.State N M.Event M.Reply) (from to : Front)
        → IsSpent old mid → NeedsNoTurn M.next M.HALTS M.alone start mid from new to → NeedsNoTurn M.next M.HALTS M.alone start old from new to }
    ensures several { (start : M.State) (old new : Pass M.State N M.Event M.Reply) (es : List (Placed M.Event M.Reply)) (low high from to : Front)
        → Grows M.next M.HALTS start old low es new high → 1 < length es → NeedsNoTurn M.next M.HALTS M.alone start old from new to }
{}

/// The turn word of an object tells how often its callers took the turn: while nobody has it, the word is twice the number of
/// turns that they count together, modulo 2^64, and while one of them has it, one less. So where all counts stay as they
/// were, no step that raises the word by one has taken the turn.
pub fn turns_are_counted<M: Worded, N: Note>()
    ensures free { (begin : Begin M.State N) (now : State (Option (Cell M.State N)) (View M.Event M.Reply)) (turns : ℕ → ℕ)
        → Kept M.next M.HALTS M.frees M.takes N.front N.at M.tells M.means begin now → HaveTaken now.views begin.callers turns
        → (IsOut now.views → ⊥) → TurnTells now 0 begin.callers turns }
    ensures out { (begin : Begin M.State N) (now : State (Option (Cell M.State N)) (View M.Event M.Reply)) (turns : ℕ → ℕ)
        → Kept M.next M.HALTS M.frees M.takes N.front N.at M.tells M.means begin now → HaveTaken now.views begin.callers turns
        → IsOut now.views → TurnTells now 1 begin.callers turns }
    ensures counted { (begin : Begin M.State N) (before now : State (Option (Cell M.State N)) (View M.Event M.Reply)) (turns : ℕ → ℕ)
        → Kept M.next M.HALTS M.frees M.takes N.front N.at M.tells M.means begin before → HaveTaken before.views begin.callers turns → (IsOut before.views → ⊥)
        → Kept M.next M.HALTS M.frees M.takes N.front N.at M.tells M.means begin now → HaveTaken now.views begin.callers turns → IsOut now.views
        → slice_index now.words 1 ≡ (slice_index before.words 1 + 1) % 2 ^ 64 → ⊥ }
{}

/// The limits of an object by their numbers: how many calls a pass is good for, and how many callers an object has.
pub fn limits()
    ensures { (MAX_CALLS ≡ 1000000) × (MAX_CALLERS ≡ 64) }
{}
