//! The calls of a group.
ghost use Rattle.std.specs.Prelude.{◌≡◌, ◌<◌, List};
ghost use Rattle.sync_types.specs.declared.misuse.Misuse.{Misuse};
ghost use Rattle.sync_model.specs.declared.answer.Answer.TheVariants.{Halted};
ghost use Rattle.sync_model.specs.Front.{SameCounts};
ghost use Rattle.ruled_object.specs.Growth.{Placed, KeepsNote, MeetsHalt, deeds_of};
ghost use Rattle.ruled_object.specs.Passes.{left_of, number_of, IsOneLess, SamePass};
ghost use Rattle.flight_core.specs.declared.event.FlightEvent.{FlightEvent};
ghost use Rattle.flight_core.specs.declared.event.FlightReply.{FlightReply};
ghost use Rattle.single_flight.specs.FlightCalls.{Comes, Lands, StandsAs};
ghost use Rattle.single_flight.specs.Flights.{FlightGrows, IsHomeOf, IsPassOf, IsLeaderOf, IsFlightLawful};

use crate::answers::{begun, landed};
use crate::begun::{Begun, Flight};
use crate::group::{Group, GroupPass};
use call_loop::{call, call_within};
use flight_core::FlightStage;
use std::sync::Wait;
use sync_model::{Answer, Note};
use sync_outside::{At, Clock};

impl<N: Note> Group<N> {
    /// Go's `Do`, as far as its function: where no flight of the key is in the air the caller leads one, does the work, and has to
    /// `land` it. Else it waits for the flight that there is, and gets what that comes to.
    ///
    /// Each earlier landing synchronizes before its return, but where it is halted: then its note knows what it knew.
    pub fn begin<C: Clock, R: Wait>(
        &self,
        rt: &R,
        at: &At<N, C>,
        pass: &mut GroupPass<N>,
        note: &mut N,
        key: u32,
    ) -> Answer<Begun>
        requires pass { IsPassOf self.now pass.old × (0 < left_of pass.old) }
        requires home { IsHomeOf N.at self.now at.now.home.now × N.at at.now.home.now note.old }
        ensures pass { StandsAs self.now pass.new result × IsOneLess pass.old pass.new }
        ensures note { KeepsNote N.at N.own N.front note.old note.new }
        ensures events { (es : List (Placed FlightEvent FlightReply)) × FlightGrows self.now pass.old (N.front note.old) es pass.new (N.front note.new) × Comes key (deeds_of es) result × MeetsHalt es result }
        ensures halted { (misuse : Misuse) → result ≡ Halted misuse → SameCounts (N.front note.new) (N.front note.old) }
        ensures journal { IsFlightLawful self.now pass.new }
    {
        let caller = pass.number();
        let answer = call(&self.object, rt, at, pass, note, FlightStage::Join(key));
        begun(answer, caller)
    }

    /// The end of Go's `Do`: ends the flight that the caller leads, with what its work came to, and releases those who joined it. It
    /// answers whether anybody did.
    ///
    /// It synchronizes before the return of each call that takes the value in, and before each later flight. Its own caller
    /// learns nothing.
    pub fn land<C: Clock, R: Wait>(
        &self,
        flight: Flight,
        rt: &R,
        at: &At<N, C>,
        pass: &mut GroupPass<N>,
        note: &mut N,
        value: i64,
    ) -> Answer<bool>
        requires flight { flight.caller ≡ number_of pass.old }
        requires pass { IsLeaderOf self.now pass.old }
        requires home { IsHomeOf N.at self.now at.now.home.now × N.at at.now.home.now note.old }
        ensures pass { IsPassOf self.now pass.new × SamePass pass.old pass.new }
        ensures note { KeepsNote N.at N.own N.front note.old note.new }
        ensures events { (es : List (Placed FlightEvent FlightReply)) × FlightGrows self.now pass.old (N.front note.old) es pass.new (N.front note.new) × Lands value (deeds_of es) result × MeetsHalt es result }
        ensures no_edge { SameCounts (N.front note.new) (N.front note.old) }
        ensures journal { IsFlightLawful self.now pass.new }
    {
        let Flight { caller: _ } = flight;
        landed(call_within(&self.object, rt, at, pass, note, FlightStage::Land(value)))
    }
}
