//! What holds of the logs of every machine.
ghost use Rattle.std.specs.Prelude.{◌≡◌, ℕ, List, ◌∷◌, ◌++◌};
ghost use Rattle.sync_model.specs.Log.{Entry, entry, after, Follows};

use crate::machine::Machine;

/// A log in two parts follows its machine exactly where the first part does, and the second one follows it from the
/// state that the first one leads to. Both together lead to where the second one leads from there.
pub fn logs_go_on<M: Machine>()
    ensures after { (state : M.State) (earlier later : List (Entry M.Event M.Reply))
        → after M.next state (earlier ++ later) ≡ after M.next (after M.next state earlier) later }
    ensures apart { (state : M.State) (earlier later : List (Entry M.Event M.Reply))
        → Follows M.next state (earlier ++ later) → Follows M.next state earlier × Follows M.next (after M.next state earlier) later }
    ensures joined { (state : M.State) (earlier later : List (Entry M.Event M.Reply))
        → Follows M.next state earlier → Follows M.next (after M.next state earlier) later → Follows M.next state (earlier ++ later) }
{}

/// Each reply of a log is what its machine answers to the event, in the state that the earlier events lead to.
pub fn replies_are_the_machines<M: Machine>()
    ensures { (state : M.State) (earlier later : List (Entry M.Event M.Reply)) (caller : ℕ) (event : M.Event) (reply : M.Reply)
        → Follows M.next state (earlier ++ entry caller event reply ∷ later)
        → reply ≡ (M.next (after M.next state earlier) caller event).1 }
{}
