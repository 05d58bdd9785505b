//! Four threads each store a result in one map, and are done. A fifth waits for all four, and reads what they stored: what one hands in, the other one finds.
ghost use Rattle.std.specs.Prelude.{◌≡◌, ◌<◌, ◌^◌, true, IfSome};
ghost use Rattle.library_programs.specs.Results.{FindsResults, HandsIn};

use std::alloc::Global;
use std::sync::Wait;
use std::thread::{Threads, map_vec};
use std::{io, rt};
use synced_map::laws::what_was_stored_before_is_found_after;
use synced_map::{Answer, Clock, SyncedMap, SyncedMapCaller};
use system_io::SystemClock;

/// How many threads work.
const WORKERS: u32 = 4;

/// What one thread works with. Those whose number is below `WORKERS` work, and the last one reads.
#[derive(Drop)]
pub struct Worker<'a, C: Clock> {
    pub map: SyncedMapCaller<'a, C>,
    pub number: u32,
}

impl<C: Clock> Worker<'_, C> {
    /// The sum of all results, for the one who reads.
    pub fn run<R: Wait>(&mut self, rt: &R) -> Option<u64> {
        if self.number < WORKERS {
            let result = work(self.number);
            hand_in(rt, &mut self.map, self.number, result);
            return None;
        }
        let mut sum: u64 = 0;
        for number in 0..WORKERS {
            let result = collect(rt, &mut self.map, number)?;
            sum = sum.wrapping_add(result?);
        }
        Some(sum)
    }
}

// The result of a worker.
fn work(number: u32) -> u64
    ensures { result < 2 ^ 63 }
{
    let number = u64::from(number);
    (number * number + 1) % 1_000
}

/// Stores a result under the worker's number, and is done. False where it wasn't told to the one who waits.
pub fn hand_in<C: Clock, R: Wait>(
    rt: &R,
    map: &mut SyncedMapCaller<C>,
    number: u32,
    value: u64,
) -> bool
    requires { value < 2 ^ 63 }
    ensures { result ≡ true → HandsIn map.old.map.now.table number value map.old map.new }
{
    let stored = map.store(rt, number, value);
    if !stored {
        return false;
    }
    let Answer::Done(Ok(())) = map.done(rt) else {
        return false;
    };
    true
}

/// Waits until all are done, and reads the result under a worker's number. What was handed in before is found, or what was stored there
/// later. `None` outside where somebody misused the group.
pub fn collect<C: Clock, R: Wait>(
    rt: &R,
    map: &mut SyncedMapCaller<C>,
    number: u32,
) -> Option<Option<u64>>
    ensures { IfSome result (λ found. FindsResults map.old.map.now.table number found map.new) }
{
    what_was_stored_before_is_found_after();
    let Answer::Done(Ok(())) = map.wait(rt) else {
        return None;
    };
    Some(map.get(rt, number))
}

/// Hands all results in, and prints their sum.
pub fn run<R: Threads + Wait + Print + rt::Clock + Sync>(rt: &R, alloc: Global) -> io::Result<()> {
    let clock = SystemClock::new(rt);
    let (map, passes) = SyncedMap::new(alloc, WORKERS + 1, 10, WORKERS as i32)?;
    let mut callers = map.callers(alloc, &clock, passes)?;
    let mut workers = Vec::new(alloc);
    for number in 0..WORKERS + 1 {
        if let Some(map) = callers.pop() {
            workers.push(Worker { map, number })?;
        }
    }
    for found in map_vec(rt, workers, &|mut worker: Worker<_>| worker.run(rt))? {
        if let Some(sum) = found {
            println!(rt; "{sum}")?;
        }
    }
    Ok(())
}
