//! What holds of what a worker makes. Each law is the contract of a function that does nothing.
ghost use Rattle.std.specs.Prelude.{◌≡◌, ℕ, ◌+◌, ◌<◌, true, List, ◌++◌, length, take, Option, Some, slice_get, slice_index, IsSome};
ghost use Rattle.sync_types.specs.declared.atomic_object.AtomicCall.{AtomicCall};
ghost use Rattle.sync_types.specs.declared.atomic_object.AtomicKind.{AtomicKind};
ghost use Rattle.sync_types.specs.SequentialAtomic.{is_atomic_call};
ghost use Rattle.sync_model.specs.declared.item.Item.{Item};
ghost use Rattle.sync_model.specs.Front.{AtLeast};
ghost use Rattle.sync_model.specs.Note.{Holding, SameHome};
ghost use Rattle.sync_model.specs.Shared.{IsAtomicCall, items_of};
ghost use Rattle.workload.specs.declared.object.ObjectKind.TheVariants.{Atomic};
ghost use Rattle.workload.specs.Plan.{Plan};
ghost use Rattle.run_record.specs.InOneOrder.{NumbersRise};
ghost use Rattle.run_record.specs.Limits.{IsCallOf};
ghost use Rattle.run_record.specs.Record.{shared_in, front_of};
ghost use Rattle.thread_objects.specs.Calling.{HasCalled};
ghost use Rattle.thread_objects.specs.Catalog.{HasAtomics, IsAt};
ghost use Rattle.thread_objects.specs.GivenUp.{MakesOnly};
ghost use Rattle.thread_objects.specs.Laws.{Stays, Joins, Counts};
ghost use Rattle.thread_objects.specs.Spending.{Spends};
ghost use Rattle.thread_objects.specs.Working.{Desk, Moves};

use run_record::Made;
use sync_model::Note;

/// A worker that makes nothing stays at its desk. What it makes from one desk to another, and then to a third, it makes from
/// the first one to the third: what it makes first comes before, its calls on maps and atomics too.
pub fn moves()
    ensures none { Stays }
    ensures joined { Joins }
    ensures shared { (earlier later : List Made) → shared_in (earlier ++ later) ≡ shared_in earlier ++ shared_in later }
{}

/// A worker knows all its own earlier calls on maps and atomics, forgets nothing from one item to the next, and knows at the end
/// what it knew at each of them. The numbers of what it made rise from each item to the next, on whichever objects.
pub fn a_worker_knows_its_own_calls()
    ensures own { (old new : Desk) (items : List Made) (worker i : ℕ) (made : Made)
        → Moves old items new → old.worker ≡ Some worker → slice_get items i ≡ Some made → slice_index (front_of made) worker ≡ length old.calls + length (shared_in (take i items)) }
    ensures rises { (old new : Desk) (items : List Made) (i j : ℕ) (earlier later : Made)
        → Moves old items new → i < j → slice_get items i ≡ Some earlier → slice_get items j ≡ Some later → AtLeast (front_of later) (front_of earlier) }
    ensures ends { (old new : Desk) (items : List Made) (i : ℕ) (made : Made)
        → Moves old items new → slice_get items i ≡ Some made → AtLeast new.front.counts (front_of made) }
    ensures times { (old new : Desk) (items : List Made) → (moves : Moves old items new) → NumbersRise 0 items moves.numbers }
{}

/// A note that counts all its holder's calls on maps and atomics has their number as its holder's own.
pub fn a_note_counts_its_calls()
    ensures { Counts }
{}

/// Of its spare entries a caller uses none while its note holds what it held, and by calls one after the other what each of them
/// uses. Its note is still its own.
pub fn what_calls_spend<N: Note>()
    ensures none { (old new : N) → N.own new ≡ N.own old → IsSome (N.own old) → Spends N.own 0 old new }
    ensures joined { (cost more : ℕ) (old between new : N) → Spends N.own cost old between → Spends N.own more between new → Spends N.own (cost + more) old new }
    ensures held { (cost : ℕ) (old new : N) → Spends N.own cost old new → IsSome (N.own new) }
{}

/// A caller makes no call on maps and atomics while its note holds what it held. Who makes only calls of a workload, and then
/// only such calls, makes only such calls.
pub fn which_calls_are_made()
    ensures none { (plan : Plan) (old new : Option Holding) → new ≡ old → MakesOnly (IsCallOf plan) (items_of old) (items_of new) }
    ensures joined { (plan : Plan) (old between new : List Item) → MakesOnly (IsCallOf plan) old between → MakesOnly (IsCallOf plan) between new → MakesOnly (IsCallOf plan) old new }
{}

/// A caller makes nothing while its note holds what it held and is of the same home. What it makes by one part of a call and then
/// by another, it makes by both together.
pub fn what_a_call_leaves<N: Note>()
    ensures none { (plan : Plan) (old new : N) → SameHome N.at old new → N.own new ≡ N.own old → IsSome (N.own old) → HasCalled N.at N.own plan 0 old new }
    ensures joined { (plan : Plan) (cost more : ℕ) (old between new : N) → HasCalled N.at N.own plan cost old between → HasCalled N.at N.own plan more between new → HasCalled N.at N.own plan (cost + more) old new }
{}

/// An atomic that is found by the place where it is declared has every call of its type.
pub fn an_atomic_is_found_by_its_place()
    ensures { (plan : Plan) (types : List AtomicKind) (numbers : List ℕ) (place : ℕ) (type : AtomicKind) (call : AtomicCall)
        → HasAtomics plan types numbers → IsAt plan place (Atomic type) → is_atomic_call type call ≡ true → (place < length numbers) × IsAtomicCall types (slice_index numbers place) call }
{}
