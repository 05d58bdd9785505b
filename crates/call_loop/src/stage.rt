//! One stage of a running call.
ghost use Rattle.std.specs.Prelude.{◌≡◌, true, false};
ghost use Rattle.sync_model.specs.Front.{SameCounts};
ghost use Rattle.ruled_object.specs.Growth.{IsLawful, KeepsNote, NeedsNoTurn};
ghost use Rattle.ruled_object.specs.Passes.{own_by, callers_of, start_of, IsHomeOf, IsPassOf, SamePass};
ghost use Rattle.ruled_object.specs.Standing.{stand_by};
ghost use Rattle.call_loop.specs.Stages.{MadeStage, MayBeAt, MayCome, StandsOn, acquires_by};

use crate::timing::{StageEvent, Timing, made_before};
use protocols::{Protocol, Step};
use ruled_object::laws::standing;
use ruled_object::{Object, PassOf};
use std::sync::Wait;
use sync_model::laws::journals::journal_is_log;
use sync_model::{Answer, Note, Worded};
use sync_outside::{At, Clock};

// Makes the event of a stage that its caller is allowed, and tells how the call goes on. The clock is read by `timing`.
#[inline(always)]
pub(crate) fn make<P: Protocol + Worded, T: Timing<P>, N: Note, C: Clock, R: Wait>(
    object: &Object<P, N>,
    rt: &R,
    at: &At<N, C>,
    pass: &mut PassOf<P, N>,
    note: &mut N,
    stage: P::Stage,
    timing: &T,
) -> Answer<Step<P::Stage, P::Outcome>>
    requires begun { P.begins (callers_of object.now) (start_of object.now) }
    requires pass { IsPassOf object.now pass.old }
    requires allowed { P.allows (start_of object.now) (stand_by P.out P.stands (own_by pass.old)) stage ≡ true }
    requires home { IsHomeOf N.at object.now at.now.home.now × N.at at.now.home.now note.old }
    ensures pass { IsPassOf object.now pass.new × SamePass pass.old pass.new }
    ensures note { KeepsNote N.at N.own N.front note.old note.new }
    ensures made { MadeStage P.next P.HALTS (start_of object.now) P.event P.moment P.meaning (MayBeAt T.LAZY (C.shows at.now.clock.now) result) stage pass.old (N.front note.old) result pass.new (N.front note.new) }
    ensures expected { MayCome result }
    ensures stands { StandsOn P.out P.left (P.allows (start_of object.now)) (stand_by P.out P.stands (own_by pass.new)) result }
    ensures no_edge { acquires_by (P.gains stage) result ≡ false → SameCounts (N.front note.new) (N.front note.old) }
    ensures journal { IsLawful P.next P.HALTS P.frees P.takes (start_of object.now) pass.new }
    ensures turns { NeedsNoTurn P.next P.HALTS P.alone (start_of object.now) pass.old (N.front note.old) pass.new (N.front note.new) }
{
    P::laws();
    standing::<P, P::Stand>();
    journal_is_log::<P>();
    let ready = made_before::<P, T, C>(stage, at.clock);
    let source = StageEvent::<P, T, C> {
        stage,
        timing,
        clock: at.clock,
        ready,
    };
    let did = object.call_with(rt, at.home, pass, note, &source);
    match did.1 {
        Answer::Halted(misuse) => Answer::Halted(misuse),
        Answer::Done(reply) => Answer::Done(P::meaning(stage, &reply)),
    }
}
