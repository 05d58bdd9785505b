//! When a call reads its caller's clock: for each event that has a moment, before it waits for the object, or for those alone
//! whose moment matters, once the object is its own.
ghost use Rattle.std.specs.Prelude.{◌≡◌, ℕ, Bool, true, false, IfSome};
ghost use Rattle.call_loop.specs.Stages.{EndsCall, IsClocked, IsTimedBy, ReadyOr};
ghost use Rattle.protocols.specs.Spelling.{IsEventOf};
ghost use Rattle.protocols.specs.Steps.{IsAt};

use crate::lazily_timed::LazilyTimed;
use protocols::Protocol;
use ruled_object::EventSource;
use sync_model::Worded;
use sync_outside::Clock;

/// Whether the clock is read for a stage's event: `Eager` or `Lazy`.
pub trait Timing<P: Protocol + Worded> {
    /// Whether the clock is read once it is known what the event finds.
    const LAZY: bool;

    // It may leave out events that end their call, and to which no moment matters.
    ghost LAZY: { Bool };

    /// Whether it leaves out this stage's event, in the state that the kept one and the word stand for together.
    fn leaves_out(&self, stage: P::Stage, kept: &P::State, word: u64) -> bool
        requires { word ≡ P.tells (P.means kept.now word) }
        ensures lazy { result ≡ true → LAZY ≡ true }
        ensures ends { result ≡ true → (caller now : ℕ) → EndsCall (P.meaning stage (P.next (P.means kept.now word) caller (P.event stage now)).1) }
        ensures any_moment { result ≡ true → (caller now other : ℕ) → P.next (P.means kept.now word) caller (P.event stage now) ≡ P.next (P.means kept.now word) caller (P.event stage other) };
}

/// The clock is read for each event that has a moment, before the call waits for the object.
#[derive(Drop)]
pub struct Eager;

impl<P: Protocol + Worded> Timing<P> for Eager {
    const LAZY: bool = false;

    ghost LAZY = { false };

    #[inline(always)]
    fn leaves_out(&self, _stage: P::Stage, _kept: &P::State, _word: u64) -> bool {
        false
    }
}

/// The clock isn't read for an event that needs no moment (`LazilyTimed`). For any other that has one it is read while the
/// object is the caller's own.
#[derive(Drop)]
pub struct Lazy;

impl<P: LazilyTimed> Timing<P> for Lazy {
    const LAZY: bool = true;

    ghost LAZY = { true };

    #[inline(always)]
    fn leaves_out(&self, stage: P::Stage, kept: &P::State, word: u64) -> bool {
        P::needs_no_moment(stage, kept, word)
    }
}

// Where the event of a stage comes from: it was made before the call waited for the object, or is made by what it finds.
#[derive(Drop)]
pub(crate) struct StageEvent<'a, P: Protocol + Worded, T: Timing<P>, C: Clock> {
    pub(crate) stage: P::Stage,
    pub(crate) timing: &'a T,
    pub(crate) clock: &'a C,
    pub(crate) ready: Option<P::Event>,
}

impl<'a, P: Protocol + Worded, T: Timing<P>, C: Clock> EventSource<P> for StageEvent<'a, P, T, C> {
    ghost may = { λ source state event. ReadyOr source.ready (IsTimedBy P.next P.event P.moment P.meaning T.LAZY (C.shows source.clock.now) source.stage state) event };

    ghost refused = { λ source event. ReadyOr source.ready (IsClocked P.event P.moment (C.shows source.clock.now) source.stage) event };

    #[inline(always)]
    fn event(&self, kept: &P::State, word: u64) -> P::Event {
        if let Some(event) = self.ready {
            return event;
        }
        if self.timing.leaves_out(self.stage, kept, word) {
            return P::event(self.stage, 0);
        }
        event_at::<P, C>(self.stage, self.clock)
    }

    #[inline(always)]
    fn refused_event(&self) -> P::Event {
        if let Some(event) = self.ready {
            return event;
        }
        event_at::<P, C>(self.stage, self.clock)
    }
}

// The stage's event, where it is made before the call waits for the object.
#[inline(always)]
pub(crate) fn made_before<P: Protocol + Worded, T: Timing<P>, C: Clock>(
    stage: P::Stage,
    clock: &C,
) -> Option<P::Event>
    ensures { IfSome result (λ event. IsClocked P.event P.moment (C.shows clock.now) stage event) }
{
    if T::LAZY {
        return None;
    }
    Some(event_at::<P, C>(stage, clock))
}

// The stage's event, at the moment that the clock shows where the event carries one.
#[inline(always)]
fn event_at<P: Protocol, C: Clock>(stage: P::Stage, clock: &C) -> P::Event
    ensures event { IsEventOf P.event stage result }
    ensures moment { IsAt (C.shows clock.now) (P.moment result) }
{
    P::laws();
    if !P::is_timed(stage) {
        return P::event(stage, 0);
    }
    let now = clock.now();
    P::event(stage, now)
}
