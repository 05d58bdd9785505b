//! A worked run of the Pool machine, event by event.
use crate::rows::{Row, first_other};
use pool_core::{PoolCore, PoolEvent, PoolReply};
use std::test::Fail;

const ROOM: [Row<PoolEvent<u64>, PoolReply<u64>>; 16] = [
    (0, PoolEvent::Put(1), PoolReply::Kept),
    (0, PoolEvent::Put(2), PoolReply::Kept),
    (0, PoolEvent::Put(3), PoolReply::Dropped(3)),
    (0, PoolEvent::LookOwn, PoolReply::Item(1)),
    (0, PoolEvent::LookOwn, PoolReply::Item(2)),
    (0, PoolEvent::LookOwn, PoolReply::Nothing),
    (0, PoolEvent::LookVictim(0), PoolReply::Nothing),
    (1, PoolEvent::LookOwn, PoolReply::Still),
    (0, PoolEvent::LookOther(1), PoolReply::Still),
    // One sweep leaves an item among the victims, a second removes it.
    (0, PoolEvent::Put(4), PoolReply::Kept),
    (0, PoolEvent::Sweep, PoolReply::Swept),
    (0, PoolEvent::Put(5), PoolReply::Kept),
    (0, PoolEvent::Sweep, PoolReply::Swept),
    (0, PoolEvent::LookOwn, PoolReply::Nothing),
    (0, PoolEvent::LookVictim(0), PoolReply::Item(5)),
    (0, PoolEvent::LookVictim(0), PoolReply::Nothing),
];

#[test]
fn keeps_to_its_room(rt: HostRuntime) -> Result<(), Fail> {
    let mut pool = PoolCore::new(rt.alloc(), 1, 1)?;
    assert!(rt; first_other::<PoolCore>(&mut pool, &ROOM) == None);
    Ok(())
}
