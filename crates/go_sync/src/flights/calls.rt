//! The call of a flight's caller.
ghost use Rattle.std.specs.Prelude.{◌<◌, true};
ghost use Rattle.flight_core.specs.FlightMachine.{next};
ghost use Rattle.single_flight.specs.Flights.{start_of, IsFlightLawful, IsPassOf};
ghost use Rattle.ruled_object.specs.Passes.{left_of};
ghost use Rattle.go_sync.specs.FlightCallers.{Makes};
ghost use Rattle.go_sync.specs.Flying.{Flies, MayLand};
ghost use Rattle.go_sync.specs.Made.{Made};
ghost use Rattle.go_sync.specs.Renewing.{IsSame};

use super::{FlightCaller, FlightPass, Flights};
use flight_core::FlightCore;
use ruled_object::MAX_CALLS;
use ruled_object::laws::growth;
use single_flight::Begun;
use std::sync::Wait;
use sync_model::{Answer, NoNote};
use sync_outside::{At, Clock};

// A pass that is good for a call: where none is left it is renewed.
fn ready(flights: &Flights, pass: &mut FlightPass)
    requires { IsPassOf flights.now pass.old }
    ensures pass { IsPassOf flights.now pass.new × (0 < left_of pass.new) }
    ensures same { IsSame pass.old pass.new }
{
    if pass.left() == 0 {
        flights.renew(pass, MAX_CALLS);
    }
}

impl<C: Clock> FlightCaller<'_, C> {
    /// x/sync's `Group.Do`: calls the function where no call of the key is under way, and else waits for the one that is. It
    /// answers what the function came to, and whether that was given to more than one caller. The function is called only where its
    /// condition holds once the caller is known to lead the flight (`MayLand`).
    #[tactic(auto, using(crate::proofs::Renewed::made_again))]
    pub fn fly<F: FnOnce() -> i64 + Drop, R: Wait>(
        &mut self,
        rt: &R,
        key: u32,
        work: F,
    ) -> Answer<(i64, bool)>
        requires { (leader : _) → MayLand self.old.flights.now key self.old.pass leader → F.pre work }
        ensures { Makes (Flies (F.post work) key) self.old result self.new }
    {
        ready(self.flights, &mut self.pass);
        flown(rt, self.flights, self.clock, &mut self.pass, key, work)
    }
}

// What the flight of the key comes to. A caller that leads it lands it: between the two its pass isn't between two calls.
fn flown<F: FnOnce() -> i64 + Drop, C: Clock, R: Wait>(
    rt: &R,
    flights: &Flights,
    clock: &C,
    pass: &mut FlightPass,
    key: u32,
    work: F,
) -> Answer<(i64, bool)>
    requires work { (leader : _) → MayLand flights.now key pass.old leader → F.pre work }
    requires pass { IsPassOf flights.now pass.old × (0 < left_of pass.old) }
    ensures pass { IsPassOf flights.now pass.new }
    ensures made { Made next true (start_of flights.now) (Flies (F.post work) key) pass.old result pass.new }
    ensures journal { IsFlightLawful flights.now pass.new }
{
    growth::<FlightCore, NoNote>();
    let at: At<NoNote, C> = At { home: &(), clock };
    let mut note = NoNote::new();
    match flights.begin(rt, &at, pass, &mut note, key) {
        Answer::Done(Begun::Lead(flight)) => {
            let value = work();
            match flights.land(flight, rt, &at, pass, &mut note, value) {
                Answer::Done(shared) => Answer::Done((value, shared)),
                Answer::Halted(misuse) => Answer::Halted(misuse),
            }
        }
        Answer::Done(Begun::Got(value)) => Answer::Done((value, true)),
        Answer::Halted(misuse) => Answer::Halted(misuse),
    }
}
