//! Whom each event of the machine Starts lets go on.
use crate::rows::{NOBODY, WakeRow, first_other_wake};
use starts_core::{StartEvent, StartsCore};
use std::test::Fail;

const LETS_ON: [WakeRow<StartEvent>; 9] = [
    (1, StartEvent::Leave, NOBODY),
    (4, StartEvent::Leave, NOBODY),
    (0, StartEvent::Start(1), [Some(1), None, None]),
    (1, StartEvent::Leave, NOBODY),
    (0, StartEvent::End, NOBODY),
    (3, StartEvent::End, NOBODY),
    (0, StartEvent::End, NOBODY),
    (1, StartEvent::End, [Some(2), Some(4), None]),
    (2, StartEvent::Leave, NOBODY),
];

#[test]
fn a_start_lets_one_go_on_and_the_last_end_all_who_wait(rt: HostRuntime) -> Result<(), Fail> {
    let mut starts = StartsCore::new(rt.alloc(), &[false, true, true, false, true])?;
    assert!(rt; first_other_wake::<StartsCore>(&mut starts, &LETS_ON) == None);
    Ok(())
}
