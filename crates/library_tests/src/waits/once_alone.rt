//! Stored functions by one thread.
use super::once_setup::{last_stored, stored};
use super::setup::HERE;
use crate::made::knows;
use std::sync::atomic::{AtomicU64, Ordering};
use std::test::Fail;
use sync_model::Answer;

#[test]
fn a_function_that_fails_is_called_once(rt: HostRuntime) -> Result<(), Fail> {
    let runs = AtomicU64::new(0);
    let (function, mut passes) = stored(rt.alloc(), 2, || -> Result<(), u32> {
        runs.fetch_add(1, Ordering::SeqCst);
        Err(3)
    })?;
    let mut second = last_stored(&function, &mut passes);
    let mut first = last_stored(&function, &mut passes);
    let mut note = knows(0);
    let failed = Answer::Done(Err(3));
    assert!(rt; function.call(&rt, &HERE, &mut first, &mut note) == failed);
    assert!(rt; function.call(&rt, &HERE, &mut second, &mut note) == failed);
    assert!(rt; function.call(&rt, &HERE, &mut first, &mut note) == failed);
    assert!(rt; runs.load(Ordering::SeqCst) == 1);
    Ok(())
}

#[test]
fn a_pair_of_values_is_kept(rt: HostRuntime) -> Result<(), Fail> {
    let (value, mut passes) = stored(rt.alloc(), 1, || -> (u64, u64) { (4, 5) })?;
    let mut only = last_stored(&value, &mut passes);
    let mut note = knows(0);
    assert!(rt; value.call(&rt, &HERE, &mut only, &mut note) == Answer::Done((4, 5)));
    assert!(rt; value.call(&rt, &HERE, &mut only, &mut note) == Answer::Done((4, 5)));
    Ok(())
}
