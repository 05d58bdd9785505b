//! A sequential object, as a machine: a state, the events that callers make on it, and their replies.
ghost use Rattle.std.specs.Prelude.{◌≡◌, ℕ, Bool};

use crate::callers::Callers;

/// An object for one thread. A running object shares one machine among its callers, event by event.
pub trait Machine {
    /// What the object holds. It is determined by what contracts see of it.
    type State: Drop;

    /// What a caller does to it.
    type Event: Copy + Drop;

    /// What it answers.
    type Reply: Copy + Drop;

    /// Whether an object of this machine may be halted by a misuse.
    const HALTS: bool;

    // The same for proofs: a clause reads `M.HALTS`.
    ghost HALTS: { Bool };

    // The state after an event of a caller, and the reply.
    ghost next: { Self.State → ℕ → Self.Event → Self.State × Self.Reply };

    // An event with this reply synchronizes before later ones that take it in.
    ghost frees: { Self.Event → Self.Reply → Bool };

    // An event with this reply takes in what the earlier releasing ones left.
    ghost takes: { Self.Event → Self.Reply → Bool };

    /// Makes one event of a caller.
    fn step(state: &mut Self::State, caller: u32, event: Self::Event) -> Self::Reply
        ensures { (state.new, result) ≡ next state.old caller event };

    /// Whether the event synchronizes before a later acquiring one, as the Go memory model says of the object.
    fn releases(event: &Self::Event, reply: &Self::Reply) -> bool
        ensures { result ≡ frees event.now reply.now };

    /// Whether the event is synchronized after each earlier releasing one.
    fn acquires(event: &Self::Event, reply: &Self::Reply) -> bool
        ensures { result ≡ takes event.now reply.now };

    /// Whom an event lets go on: the callers that waited, and needn't wait any longer. It is asked with the state after the
    /// event, before another event can come between. A caller that is left out sleeps on, which no clause refuses: tests
    /// do. By default it is nobody, as for a machine at which nobody waits.
    fn wakes(_state: &Self::State, _event: &Self::Event, _reply: &Self::Reply) -> Callers {
        Callers::nobody()
    }
}
