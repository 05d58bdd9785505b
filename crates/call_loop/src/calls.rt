//! Running a call, stage by stage.
//!
//! The calls from here down to the machine's step are inlined, so that the compiler makes one function of a call on a type:
//! `docs/PERFORMANCE.md` says what it saves.
ghost use Rattle.std.specs.Prelude.{◌≡◌, ◌<◌, true, false};
ghost use Rattle.sync_model.specs.Front.{SameCounts};
ghost use Rattle.ruled_object.specs.Growth.{IsLawful, KeepsNote, NeedsNoTurn};
ghost use Rattle.ruled_object.specs.Passes.{own_by, left_of, callers_of, start_of, IsHomeOf, IsOneLess, IsPassOf, SamePass};
ghost use Rattle.ruled_object.specs.Standing.{stand_by};
ghost use Rattle.protocols.specs.Spelling.{Spells, AreTimely};
ghost use Rattle.call_loop.specs.Calls.{Did, IsGiven, left_in, has_gained};
ghost use Rattle.call_loop.specs.Stages.{AreTimedBy};

use crate::stage::make;
use crate::timing::{Eager, Timing};
use protocols::{Protocol, Step};
use ruled_object::laws::{growth, notes_are_kept, turns_needed};
use ruled_object::{Object, PassOf};
use std::sync::Wait;
use sync_model::{Answer, Note, Worded};
use sync_outside::{At, Clock};
use sync_types::Misuse;

/// Makes the call whose first stage this is, and takes one off the calls that are left: see `call_within`.
#[inline(always)]
pub fn call<P: Protocol + Worded, N: Note, C: Clock, R: Wait>(
    object: &Object<P, N>,
    rt: &R,
    at: &At<N, C>,
    pass: &mut PassOf<P, N>,
    note: &mut N,
    stage: P::Stage,
) -> Answer<Result<P::Outcome, Misuse>>
    requires begun { P.begins (callers_of object.now) (start_of object.now) }
    requires pass { IsPassOf object.now pass.old × (0 < left_of pass.old) }
    requires allowed { P.allows (start_of object.now) (stand_by P.out P.stands (own_by pass.old)) stage ≡ true }
    requires home { IsHomeOf N.at object.now at.now.home.now × N.at at.now.home.now note.old }
    ensures pass { IsPassOf object.now pass.new × IsOneLess pass.old pass.new }
    ensures stands { stand_by P.out P.stands (own_by pass.new) ≡ left_in P.out P.left result }
    ensures note { KeepsNote N.at N.own N.front note.old note.new }
    ensures events { Did P.next P.HALTS (start_of object.now) (Spells P.event P.meaning stage) (AreTimely P.moment (C.shows at.now.clock.now)) pass.old (N.front note.old) result pass.new (N.front note.new) }
    ensures gives { IsGiven (P.gives stage) result }
    ensures no_edge { has_gained (P.gains stage) result ≡ false → SameCounts (N.front note.new) (N.front note.old) }
    ensures journal { IsLawful P.next P.HALTS P.frees P.takes (start_of object.now) pass.new }
    ensures turns { NeedsNoTurn P.next P.HALTS P.alone (start_of object.now) pass.old (N.front note.old) pass.new (N.front note.new) }
{
    call_timed(object, rt, at, pass, note, stage, &Eager)
}

/// `call` by this timing: see `call_within_timed`.
#[inline(always)]
pub fn call_timed<P: Protocol + Worded, T: Timing<P>, N: Note, C: Clock, R: Wait>(
    object: &Object<P, N>,
    rt: &R,
    at: &At<N, C>,
    pass: &mut PassOf<P, N>,
    note: &mut N,
    stage: P::Stage,
    timing: &T,
) -> Answer<Result<P::Outcome, Misuse>>
    requires begun { P.begins (callers_of object.now) (start_of object.now) }
    requires pass { IsPassOf object.now pass.old × (0 < left_of pass.old) }
    requires allowed { P.allows (start_of object.now) (stand_by P.out P.stands (own_by pass.old)) stage ≡ true }
    requires home { IsHomeOf N.at object.now at.now.home.now × N.at at.now.home.now note.old }
    ensures pass { IsPassOf object.now pass.new × IsOneLess pass.old pass.new }
    ensures stands { stand_by P.out P.stands (own_by pass.new) ≡ left_in P.out P.left result }
    ensures note { KeepsNote N.at N.own N.front note.old note.new }
    ensures events { Did P.next P.HALTS (start_of object.now) (Spells P.event P.meaning stage) (AreTimedBy P.moment (C.shows at.now.clock.now) T.LAZY) pass.old (N.front note.old) result pass.new (N.front note.new) }
    ensures gives { IsGiven (P.gives stage) result }
    ensures no_edge { has_gained (P.gains stage) result ≡ false → SameCounts (N.front note.new) (N.front note.old) }
    ensures journal { IsLawful P.next P.HALTS P.frees P.takes (start_of object.now) pass.new }
    ensures turns { NeedsNoTurn P.next P.HALTS P.alone (start_of object.now) pass.old (N.front note.old) pass.new (N.front note.new) }
{
    growth::<P, N>();
    turns_needed::<P, N>();
    object.spend(pass);
    call_within_timed(object, rt, at, pass, note, stage, timing)
}

/// Makes the call whose first stage this is, as part of a longer one: it takes nothing off the calls that are left. It makes
/// one stage after the other, as the protocol says. Where the caller is to wait it sleeps until it is woken; nobody may have
/// told it to go on, and then it sleeps again.
///
/// Where it makes one event alone, and the object's word alone decides that event or the event is refused, it takes no turn.
///
/// It answers `Halted` exactly where the object was halted before the last of its events. Where it gains nothing, and where
/// it is a misuse or halted, its caller's note knows what it knew.
#[inline(always)]
pub fn call_within<P: Protocol + Worded, N: Note, C: Clock, R: Wait>(
    object: &Object<P, N>,
    rt: &R,
    at: &At<N, C>,
    pass: &mut PassOf<P, N>,
    note: &mut N,
    stage: P::Stage,
) -> Answer<Result<P::Outcome, Misuse>>
    requires begun { P.begins (callers_of object.now) (start_of object.now) }
    requires pass { IsPassOf object.now pass.old }
    requires allowed { P.allows (start_of object.now) (stand_by P.out P.stands (own_by pass.old)) stage ≡ true }
    requires home { IsHomeOf N.at object.now at.now.home.now × N.at at.now.home.now note.old }
    ensures pass { IsPassOf object.now pass.new × SamePass pass.old pass.new }
    ensures stands { stand_by P.out P.stands (own_by pass.new) ≡ left_in P.out P.left result }
    ensures note { KeepsNote N.at N.own N.front note.old note.new }
    ensures events { Did P.next P.HALTS (start_of object.now) (Spells P.event P.meaning stage) (AreTimely P.moment (C.shows at.now.clock.now)) pass.old (N.front note.old) result pass.new (N.front note.new) }
    ensures gives { IsGiven (P.gives stage) result }
    ensures no_edge { has_gained (P.gains stage) result ≡ false → SameCounts (N.front note.new) (N.front note.old) }
    ensures journal { IsLawful P.next P.HALTS P.frees P.takes (start_of object.now) pass.new }
    ensures turns { NeedsNoTurn P.next P.HALTS P.alone (start_of object.now) pass.old (N.front note.old) pass.new (N.front note.new) }
{
    call_within_timed(object, rt, at, pass, note, stage, &Eager)
}

/// `call_within` by this timing. With `Lazy` it reads no clock for an event that needs no moment
/// (`LazilyTimed::needs_no_moment`). Such an event may have any moment; it is then the call's only one, and its moment decides
/// nothing.
#[inline(always)]
pub fn call_within_timed<P: Protocol + Worded, T: Timing<P>, N: Note, C: Clock, R: Wait>(
    object: &Object<P, N>,
    rt: &R,
    at: &At<N, C>,
    pass: &mut PassOf<P, N>,
    note: &mut N,
    stage: P::Stage,
    timing: &T,
) -> Answer<Result<P::Outcome, Misuse>>
    requires begun { P.begins (callers_of object.now) (start_of object.now) }
    requires pass { IsPassOf object.now pass.old }
    requires allowed { P.allows (start_of object.now) (stand_by P.out P.stands (own_by pass.old)) stage ≡ true }
    requires home { IsHomeOf N.at object.now at.now.home.now × N.at at.now.home.now note.old }
    ensures pass { IsPassOf object.now pass.new × SamePass pass.old pass.new }
    ensures stands { stand_by P.out P.stands (own_by pass.new) ≡ left_in P.out P.left result }
    ensures note { KeepsNote N.at N.own N.front note.old note.new }
    ensures events { Did P.next P.HALTS (start_of object.now) (Spells P.event P.meaning stage) (AreTimedBy P.moment (C.shows at.now.clock.now) T.LAZY) pass.old (N.front note.old) result pass.new (N.front note.new) }
    ensures gives { IsGiven (P.gives stage) result }
    ensures no_edge { has_gained (P.gains stage) result ≡ false → SameCounts (N.front note.new) (N.front note.old) }
    ensures journal { IsLawful P.next P.HALTS P.frees P.takes (start_of object.now) pass.new }
    ensures turns { NeedsNoTurn P.next P.HALTS P.alone (start_of object.now) pass.old (N.front note.old) pass.new (N.front note.new) }
{
    P::laws();
    growth::<P, N>();
    turns_needed::<P, N>();
    notes_are_kept::<N>();
    match make(object, rt, at, pass, note, stage, timing) {
        Answer::Halted(misuse) => Answer::Halted(misuse),
        Answer::Done(Step::Finished(outcome)) => Answer::Done(Ok(outcome)),
        Answer::Done(Step::Misused(misuse)) => Answer::Done(Err(misuse)),
        Answer::Done(Step::Waits(later)) => {
            object.park(rt, pass);
            go_on(object, rt, at, pass, note, later)
        }
        Answer::Done(Step::Next(later)) => go_on(object, rt, at, pass, note, later),
        Answer::Done(Step::Never) => unreachable!(),
    }
}

// Goes on with a call whose first stage didn't end it. It stands apart, so that a call that ends with its first stage, as most
// do, is compiled for that stage alone.
#[inline(never)]
fn go_on<P: Protocol + Worded, N: Note, C: Clock, R: Wait>(
    object: &Object<P, N>,
    rt: &R,
    at: &At<N, C>,
    pass: &mut PassOf<P, N>,
    note: &mut N,
    stage: P::Stage,
) -> Answer<Result<P::Outcome, Misuse>>
    requires begun { P.begins (callers_of object.now) (start_of object.now) }
    requires pass { IsPassOf object.now pass.old }
    requires allowed { P.allows (start_of object.now) (stand_by P.out P.stands (own_by pass.old)) stage ≡ true }
    requires home { IsHomeOf N.at object.now at.now.home.now × N.at at.now.home.now note.old }
    ensures pass { IsPassOf object.now pass.new × SamePass pass.old pass.new }
    ensures stands { stand_by P.out P.stands (own_by pass.new) ≡ left_in P.out P.left result }
    ensures note { KeepsNote N.at N.own N.front note.old note.new }
    ensures events { Did P.next P.HALTS (start_of object.now) (Spells P.event P.meaning stage) (AreTimely P.moment (C.shows at.now.clock.now)) pass.old (N.front note.old) result pass.new (N.front note.new) }
    ensures gives { IsGiven (P.gives stage) result }
    ensures no_edge { has_gained (P.gains stage) result ≡ false → SameCounts (N.front note.new) (N.front note.old) }
    ensures journal { IsLawful P.next P.HALTS P.frees P.takes (start_of object.now) pass.new }
{
    P::laws();
    growth::<P, N>();
    notes_are_kept::<N>();
    let mut due = stage;
    for _ in rt.forever() {
        match make(object, rt, at, pass, note, due, &Eager) {
            Answer::Halted(misuse) => return Answer::Halted(misuse),
            Answer::Done(Step::Finished(outcome)) => return Answer::Done(Ok(outcome)),
            Answer::Done(Step::Misused(misuse)) => return Answer::Done(Err(misuse)),
            Answer::Done(Step::Waits(later)) => {
                object.park(rt, pass);
                due = later;
            }
            Answer::Done(Step::Next(later)) => due = later,
            Answer::Done(Step::Never) => unreachable!(),
        }
    }
    unreachable!()
}
