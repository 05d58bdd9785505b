//! What the calls of a kind of object do, said once.
ghost use Rattle.std.specs.Prelude.{◌≡◌, ◌⊎◌, ℕ, ◌<◌, Bool, true, false, List, Option, Some, None, Result};
ghost use Rattle.sync_types.specs.declared.misuse.Misuse.{Misuse};
ghost use Rattle.sync_model.specs.Log.{Entry, after, Follows};
ghost use Rattle.protocols.specs.declared.step.Step.{Step};
ghost use Rattle.protocols.specs.Stands.{stand_from};
ghost use Rattle.protocols.specs.Steps.{IsExpected, KeepsResults, GainsAtItsEnd, LeadsOn};

use crate::step::Step;
use sync_model::Machine;

/// The calls of a kind of object, as stages of one event each. A call is named by its first stage; the answer to each
/// stage's event tells how it goes on. What is said here holds of every way to run the object: by threads, by a schedule,
/// and in the record of a run.
///
/// To give a kind its protocol is to say what its stages are, and to prove `laws`.
pub trait Protocol: Machine {
    /// One event of a call.
    type Stage: Copy + Drop;

    /// What a call can come to that isn't a misuse.
    type Outcome: Copy + Drop;

    /// Where a caller stands, by the answers to its own events.
    type Stand: Copy + Drop;

    // A stage's event, at a moment.
    ghost event: { Self.Stage → ℕ → Self.Event };

    // The moment that an event carries, where it carries one.
    ghost moment: { Self.Event → Option ℕ };

    // How the call goes on, by the answer to the stage's event.
    ghost meaning: { Self.Stage → Self.Reply → Step Self.Stage Self.Outcome };

    // Where a caller stands before its first call, and between two calls.
    ghost out: { Self.Stand };

    // Where it stands after an event of its own with this answer.
    ghost stands: { Self.Stand → Self.Event → Self.Reply → Self.Stand };

    // Where an outcome leaves it: out, but for a call that a later one is to end.
    ghost left: { Self.Outcome → Self.Stand };

    // Whether a caller that stands here may make the stage, at an object that began in this state.
    ghost allows: { Self.State → Self.Stand → Self.Stage → Bool };

    // Whether a call from this stage on may give this.
    ghost gives: { Self.Stage → Result Self.Outcome Misuse → Bool };

    // Whether a call from this stage on with this outcome takes in what earlier calls left: an edge of Go's memory model.
    ghost gains: { Self.Stage → Self.Outcome → Bool };

    // The states in which an object of so many callers may begin.
    ghost begins: { ℕ → Self.State → Type 0 };

    /// The stage's event, at the moment `now`, in nanoseconds.
    fn event(stage: Self::Stage, now: u64) -> Self::Event
        ensures { result ≡ event stage now };

    /// Whether the stage's event may carry a moment. Where it doesn't, no clock is read.
    fn is_timed(stage: Self::Stage) -> bool
        ensures { result ≡ false → (now : ℕ) → moment (event stage now) ≡ None };

    /// How the call goes on, by the answer to the stage's event.
    fn meaning(stage: Self::Stage, reply: &Self::Reply) -> Step<Self::Stage, Self::Outcome>
        ensures { result ≡ meaning stage reply.now };

    /// What holds of the kind's calls; it does nothing. Whatever was done at an object from its beginning on, the event of a
    /// stage that is allowed gets an answer that a call goes on by. Each answer leads to where the next stage is allowed, or
    /// to where the outcome leaves the caller. A call gives no more than its first stage says, and acquires by its last
    /// event, exactly where its outcome gains. An event carries the moment at which it is made, or none, and is then the same at
    /// every moment.
    fn laws()
        ensures expected { (callers caller now : ℕ) (start : Self.State) (log : List (Entry Self.Event Self.Reply)) (stage : Self.Stage)
            → begins callers start → Follows Self.next start log → caller < callers
            → allows start (stand_from stands out caller log) stage ≡ true
            → IsExpected (meaning stage (Self.next (after Self.next start log) caller (event stage now)).1) }
        ensures leads { (start : Self.State) (stand : Self.Stand) (stage : Self.Stage) (now : ℕ) (reply : Self.Reply)
            → allows start stand stage ≡ true
            → LeadsOn out left (allows start) (stands stand (event stage now) reply) (meaning stage reply) }
        ensures gives { (stage : Self.Stage) (reply : Self.Reply) → KeepsResults gives stage (meaning stage reply) }
        ensures gains { (stage : Self.Stage) (now : ℕ) (reply : Self.Reply)
            → GainsAtItsEnd gains stage (Self.takes (event stage now) reply) (meaning stage reply) }
        ensures moments { (stage : Self.Stage) (now : ℕ)
            → (moment (event stage now) ≡ None) ⊎ (moment (event stage now) ≡ Some now) }
        ensures timeless { (stage : Self.Stage) (now other : ℕ)
            → moment (event stage now) ≡ None → event stage now ≡ event stage other };
}
