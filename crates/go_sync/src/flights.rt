//! Flights, after Go's `golang.org/x/sync/singleflight`, and the callers that threads come to them by.
ghost use Rattle.std.specs.Prelude.{◌≡◌, ◌+◌, ◌<◌, ◌≤◌, All, IfOk, IfSome, MatchOption, vec_len};
ghost use Rattle.single_flight.specs.Flights.{IsPassOf};

mod calls;

use ruled_object::MAX_CALLS;
use single_flight::{Group, GroupPass};
use std::alloc::{AllocError, Global};
use sync_model::NoNote;
use sync_outside::Clock;

/// A space of keys for which work is done by one thread at a time: x/sync's `singleflight.Group`.
pub type Flights = Group<NoNote>;

/// What flights keep of a thread.
pub type FlightPass = GroupPass<NoNote>;

/// What flights keep of their threads, one for each. `flight_callers` makes callers of them.
pub type FlightPasses = Vec<FlightPass>;

/// Flights, of which none is in the air, for so many threads, 64 at most.
pub fn new_flights(alloc: Global, threads: u32) -> Result<(Flights, FlightPasses), AllocError>
    requires { (0 < threads) × (threads ≤ 64) }
    ensures passes { IfOk result (λ made. All (IsPassOf made.0) made.1.items) }
    ensures count { IfOk result (λ made. vec_len made.1 ≡ threads) }
{
    let (flights, passes) = Group::new(alloc, threads, MAX_CALLS, NoNote::new())?;
    Ok((flights, passes))
}

/// A caller for each thread.
pub fn flight_callers<'a, C: Clock>(
    alloc: Global,
    flights: &'a Flights,
    clock: &'a C,
    mut passes: FlightPasses,
) -> Result<Vec<FlightCaller<'a, C>>, AllocError>
    requires { All (IsPassOf flights.now) passes.items }
    ensures count { IfOk result (λ callers. vec_len callers ≡ vec_len passes) }
    ensures each { IfOk result (λ callers. All (λ caller. caller.flights.now ≡ flights.now) callers.items) }
{
    let mut callers = Vec::with_capacity(alloc, passes.len())?;
    while let Some(caller) = FlightCaller::last(flights, clock, &mut passes) {
        callers.push(caller)?;
    }
    Ok(callers)
}

/// What one thread comes for keys by.
///
/// What a flight came to synchronizes before the return of each call that gets it, and before each later flight.
#[derive(Drop)]
pub struct FlightCaller<'a, C: Clock> {
    flights: &'a Flights,
    clock: &'a C,
    pass: FlightPass,
    ghost is: { IsPassOf flights.now pass },
}

impl<'a, C: Clock> FlightCaller<'a, C> {
    /// The caller of the last of these passes.
    pub fn last(flights: &'a Flights, clock: &'a C, passes: &mut FlightPasses) -> Option<Self>
        requires { All (IsPassOf flights.now) passes.old.items }
        ensures passes { All (IsPassOf flights.now) passes.new.items }
        ensures count { MatchOption result (vec_len passes.old ≡ 0) (λ _. vec_len passes.new + 1 ≡ vec_len passes.old) }
        ensures at { IfSome result (λ caller. caller.flights.now ≡ flights.now) }
    {
        let pass = passes.pop()?;
        Some(FlightCaller {
            flights,
            clock,
            pass,
        })
    }
}
