//! Pools by callers in threads of their own.
ghost use Rattle.std.specs.Thread.{IsSync};

use super::setup::{Caller, made};
use crate::made::knows;
use go_pool::PoolGet;
use std::alloc::{AllocError, Global};
use std::sync::Wait;
use std::test::Fail;
use std::thread::{Threads, join};
use sync_model::Answer;

// Puts 250 items from a first one on, with a get after each, and gives what the gets took.
fn put_and_get<R: Wait>(
    rt: &R,
    alloc: Global,
    mut caller: Caller,
    first: u64,
) -> Result<Vec<u64>, AllocError> {
    let mut taken = Vec::new(alloc);
    for place in 0..250u64 {
        caller.put(rt, first.wrapping_add(place));
        if let Some(Answer::Done(PoolGet::Item(item))) = caller.get(rt) {
            taken.push(item)?;
        }
    }
    Ok(taken)
}

// Two callers put and get at the same time, each in a thread of its own.
fn two_beside<R: Threads + Wait + Sync>(
    rt: &R,
    alloc: Global,
    one: Caller,
    other: Caller,
    first: u64,
) -> Result<Vec<u64>, AllocError> {
    let (taken, more) = join(
        rt,
        move || -> Result<Vec<u64>, AllocError>
            requires { IsSync R.row }
        { put_and_get(rt, alloc, one, first) },
        move || -> Result<Vec<u64>, AllocError>
            requires { IsSync R.row }
        { put_and_get(rt, alloc, other, first.wrapping_add(1000)) },
    );
    let mut taken = taken?;
    taken.extend_from_slice(&more?)?;
    Ok(taken)
}

#[test]
fn no_item_is_seen_twice(rt: HostRuntime) -> Result<(), Fail> {
    let (pool, mut passes) = made(rt.alloc(), 2, 8, 5000, 500)?;
    let second = Caller::last(&pool, &mut passes, knows(0)).expect(&rt, "a pass");
    let first = Caller::last(&pool, &mut passes, knows(0)).expect(&rt, "a pass");
    let mut taken = two_beside(&rt, rt.alloc(), first, second, 0)?;
    assert!(rt; taken.len() >= 250);
    taken.sort()?;
    for (item, next) in taken.iter().zip(taken.iter().skip(1)) {
        assert!(rt; item < next, "{item} twice");
    }
    Ok(())
}
