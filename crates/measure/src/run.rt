//! Callers that make their pairs, each in a thread of its own.
ghost use Rattle.std.specs.Thread.{IsSync};

use crate::fresh::Fresh;
use crate::measured::Measured;
use crate::plan::{How, Plan};
use std::alloc::{AllocError, Global};
use std::rt;
use std::sync::Wait;
use std::thread::{Threads, map_indices, map_vec};
use sync_outside::Clock;
use system_io::SystemClock;

/// How many nanoseconds a caller takes for its pairs.
fn time_of<M: Measured, C: Clock, R: Wait + rt::Clock>(
    rt: &R,
    object: &M,
    clock: &C,
    mut pass: M::Pass,
    plan: Plan,
) -> u64
    requires { M.has_pass object.now pass }
{
    let mut kept = M::Kept::fresh(plan.callers);
    let start = SystemClock::new(rt);
    for round in 0..plan.rounds {
        object.pair(rt, clock, &mut pass, &mut kept);
    }
    start.now()
}

/// How many nanoseconds the slowest of so many callers of one object takes, each in a thread of its own.
fn shared<M: Measured, C: Clock + Sync, R: Threads + Wait + rt::Clock + Sync>(
    rt: &R,
    alloc: Global,
    clock: &C,
    plan: Plan,
    threads: usize,
) -> Result<u64, AllocError> {
    let (object, mut passes) = M::new(alloc, plan)?;
    passes.truncate(threads);
    if let Some(mut pass) = passes.pop() {
        object.fill(rt, &mut pass);
        passes.push_reserved(pass);
    }
    let times = map_vec(
        rt,
        passes,
        &|pass: M::Pass| -> u64
            requires { M.has_pass object pass }
        { time_of(rt, &object, clock, pass, plan) },
    )?;
    Ok(times.iter().copied().max().unwrap_or(0))
}

/// How many nanoseconds the slowest of so many callers takes, each in a thread of its own with an object of its own.
fn apart<M: Measured, C: Clock + Sync, R: Threads + Wait + rt::Clock + Sync>(
    rt: &R,
    alloc: Global,
    clock: &C,
    plan: Plan,
    threads: usize,
) -> Result<u64, AllocError> {
    let times = map_indices(
        rt,
        alloc,
        threads,
        &|_| -> Result<u64, AllocError>
            requires { IsSync R.row × IsSync C.row }
        { shared::<M, C, R>(rt, alloc, clock, plan, 1) },
    )?;
    let mut slowest = 0;
    for time in times {
        slowest = time?.max(slowest);
    }
    Ok(slowest)
}

/// How many tenths of a nanosecond a pair takes.
pub fn measure<M: Measured, C: Clock + Sync, R: Threads + Wait + rt::Clock + Sync>(
    rt: &R,
    alloc: Global,
    clock: &C,
    plan: Plan,
) -> Result<u64, AllocError> {
    let time = match plan.how {
        How::Own(threads) => apart::<M, C, R>(rt, alloc, clock, plan, threads)?,
        How::Shared(threads) => shared::<M, C, R>(rt, alloc, clock, plan, threads)?
    };
    Ok(time.saturating_mul(10) / u64::from(plan.rounds))
}
