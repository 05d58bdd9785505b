//! Whom a landing lets go on.
use crate::rows::{NOBODY, WakeRow, first_other_wake};
use flight_core::{FlightCore, FlightEvent};
use std::test::Fail;

const LANDED: [WakeRow<FlightEvent>; 8] = [
    (3, FlightEvent::Join(7), NOBODY),
    (2, FlightEvent::Join(7), NOBODY),
    (1, FlightEvent::Join(8), NOBODY),
    (0, FlightEvent::Join(7), NOBODY),
    (3, FlightEvent::Land(5), [Some(0), Some(2), None]),
    (2, FlightEvent::Leave, NOBODY),
    // Nobody joined this one, whomever the landing before let go on.
    (1, FlightEvent::Land(5), NOBODY),
    (1, FlightEvent::Land(5), NOBODY),
];

#[test]
fn a_landing_wakes_those_who_joined_and_nobody_else(rt: HostRuntime) -> Result<(), Fail> {
    let mut flights = FlightCore::new(rt.alloc(), 4)?;
    assert!(rt; first_other_wake::<FlightCore>(&mut flights, &LANDED).is_none());
    Ok(())
}
