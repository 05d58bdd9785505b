//! Flights by one thread.
use super::setup::{Flyer, new};
use crate::made::knows;
use std::test::Fail;
use sync_model::Answer;

// As x/sync's own test of one call: the caller gets what its own function came to, and shares it with nobody.
#[test]
fn a_flight_alone_is_not_shared(rt: HostRuntime) -> Result<(), Fail> {
    let (group, mut passes) = new(rt.alloc(), 1)?;
    let mut only = Flyer::last(&group, &mut passes, knows(0)).expect(&rt, "a pass");
    for (key, value) in [(7, 5), (7, -6), (0, i64::MAX), (u32::MAX, i64::MIN)] {
        let flown = only.fly(&rt, key, || -> i64 { value });
        assert!(rt; flown == Some(Answer::Done((value, false))), "{key}");
    }
    Ok(())
}
