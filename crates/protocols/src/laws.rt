//! What holds of the calls of every kind of object. Each law is the contract of a function that does nothing.
ghost use Rattle.std.specs.Prelude.{◌≡◌, ℕ, true, false, List, Result, Ok, Err};
ghost use Rattle.sync_types.specs.declared.misuse.Misuse.{Misuse};
ghost use Rattle.sync_model.specs.declared.journal.Deed.{Deed};
ghost use Rattle.sync_model.specs.Log.{Entry, after, Follows};
ghost use Rattle.protocols.specs.Spelling.{CallAnswer, Spells, Ends, TakesInLast};
ghost use Rattle.protocols.specs.Stands.{stand_from, MovesItsMaker};

use crate::protocol::Protocol;
use sync_model::{Answer, Machine};

/// A call of whatever kind makes one deed at least, and none of its deeds is a halt. The machine took each of its events but
/// the last. It took that one too where the call is done, and refused it, by the misuse of the first halt, exactly where the
/// call answers `Halted`.
pub fn endings<P: Protocol>()
    ensures { (stage : P.Stage) (deeds : List (Deed P.Event P.Reply)) (answer : CallAnswer P.Outcome)
        → Spells P.event P.meaning stage deeds answer → Ends deeds answer }
{}

/// A call takes in what earlier calls left by its last event, exactly where its outcome gains: a lock by the event that gives it
/// the lock, say, and not by the one that queued it. A call that is a misuse, or that met a halt, takes in nothing.
pub fn calls_gain_at_their_end<P: Protocol>()
    ensures done { (stage : P.Stage) (deeds : List (Deed P.Event P.Reply)) (outcome : P.Outcome)
        → Spells P.event P.meaning stage deeds (Answer.Done (Ok outcome)) → TakesInLast P.takes (P.gains stage outcome) deeds }
    ensures misused { (stage : P.Stage) (deeds : List (Deed P.Event P.Reply)) (misuse : Misuse)
        → Spells P.event P.meaning stage deeds (Answer.Done (Err misuse)) → TakesInLast P.takes false deeds }
    ensures halted { (stage : P.Stage) (deeds : List (Deed P.Event P.Reply)) (misuse : Misuse)
        → Spells P.event P.meaning stage deeds (Answer.Halted misuse) → TakesInLast P.takes false deeds }
{
    P::laws();
}

/// A call comes to nothing but what its first stage gives: a lock to no misuse, say, and an unlock to no try's answer.
pub fn calls_give_what_they_may<P: Protocol>()
    ensures { (stage : P.Stage) (deeds : List (Deed P.Event P.Reply)) (given : Result P.Outcome Misuse)
        → Spells P.event P.meaning stage deeds (Answer.Done given) → P.gives stage given ≡ true }
{
    P::laws();
}

/// Each caller stands where its own answers say, after whatever events, if each event moves the caller that makes it, by its
/// answer, and nobody else. A kind proves `Protocol::laws` by it.
pub fn callers_stand_where_their_answers_say<M: Machine, W>()
    ensures { (at : M.State → ℕ → W) (moved : W → M.Event → M.Reply → W) → MovesItsMaker M.next at moved
        → (state : M.State) (caller : ℕ) (log : List (Entry M.Event M.Reply))
        → Follows M.next state log → at (after M.next state log) caller ≡ stand_from moved (at state caller) caller log }
{}

/// What no event changes, such as the number of callers, is after whatever events what it was.
pub fn what_no_event_changes_stays<M: Machine>()
    ensures { (size : M.State → ℕ) → ((state : M.State) (caller : ℕ) (event : M.Event) → size (M.next state caller event).0 ≡ size state)
        → (state : M.State) (log : List (Entry M.Event M.Reply)) → size (after M.next state log) ≡ size state }
{}
