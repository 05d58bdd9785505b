//! Four threads look up values in one cache, which they read together. What isn't there is worked out by one thread for all who come for it, and what the
//! work needs is set up once.
use go_sync::{
    Answer, Clock, FlightCaller, OnceValueCaller, RwGuarded, RwGuardedCaller, flight_callers,
    new_flights, new_once_value, once_value_callers,
};
use std::alloc::{AllocError, Global};
use std::collections::BTreeMap;
use std::sync::Wait;
use std::thread::{Threads, map_vec};
use std::{io, rt};
use system_io::SystemClock;

/// How many keys each thread looks up.
const KEYS: u32 = 100;

/// The values that are known.
type Cache = BTreeMap<u32, i64>;

/// What one thread works with.
#[derive(Drop)]
struct Worker<'c, 'b, 'f, C: Clock> {
    cache: RwGuardedCaller<'c, Cache, C>,
    base: OnceValueCaller<'b, i64, C>,
    flights: FlightCaller<'f, C>,
}

impl<C: Clock> Worker<'_, '_, '_, C> {
    // The sum of the values of all keys.
    fn run<R: Wait>(&mut self, rt: &R) -> Result<i64, AllocError> {
        let mut sum: i64 = 0;
        for key in 0..KEYS {
            if let Some(value) = self.value(rt, key)? {
                sum = sum.wrapping_add(value);
            }
        }
        Ok(sum)
    }

    // The value of a key. Where the cache doesn't have it, it is worked out, and put there. `None` is only for what was halted.
    fn value<R: Wait>(&mut self, rt: &R, key: u32) -> Result<Option<i64>, AllocError> {
        let known = self
            .cache
            .read(rt, move |cache: &Cache| cache.get(&key).copied());
        if let Some(Some(value)) = known {
            return Ok(Some(value));
        }
        let Answer::Done(base) = self.base.call(rt, || set_up()) else {
            return Ok(None);
        };
        let Answer::Done((value, _)) = self.flights.fly(rt, key, move || work(base, key)) else {
            return Ok(None);
        };
        let put = move |cache: &mut Cache| cache.insert(key, value);
        self.cache.write(rt, put).unwrap_or(Ok(None))?;
        Ok(Some(value))
    }
}

// What all work needs.
fn set_up() -> i64 {
    let mut sum: i64 = 0;
    for n in 0..1_000 {
        sum = sum.wrapping_add(n);
    }
    sum
}

fn work(base: i64, key: u32) -> i64 {
    base.wrapping_add(i64::from(key))
}

// A worker of one caller of each.
fn workers_of<'c, 'b, 'f, C: Clock>(
    alloc: Global,
    mut caches: Vec<RwGuardedCaller<'c, Cache, C>>,
    mut bases: Vec<OnceValueCaller<'b, i64, C>>,
    mut flyers: Vec<FlightCaller<'f, C>>,
) -> Result<Vec<Worker<'c, 'b, 'f, C>>, AllocError> {
    let mut workers = Vec::new(alloc);
    for _ in 0..4 {
        if let (Some(cache), Some(base), Some(flights)) = (
            caches.pop(),
            bases.pop(),
            flyers.pop(),
        ) {
            workers.push(Worker {
                cache,
                base,
                flights,
            })?;
        }
    }
    Ok(workers)
}

/// Looks all keys up, and prints each thread's sum and how many keys the cache then has.
pub fn run<R: Threads + Wait + Print + rt::Clock + Sync>(rt: &R, alloc: Global) -> io::Result<()> {
    let clock = SystemClock::new(rt);
    let (cache, passes) = RwGuarded::new(alloc, 4, BTreeMap::new(alloc))?;
    let caches = cache.callers(alloc, &clock, passes)?;
    let (base, passes) = new_once_value(alloc, 4)?;
    let bases = once_value_callers(alloc, &base, &clock, passes)?;
    let (flights, passes) = new_flights(alloc, 4)?;
    let flyers = flight_callers(alloc, &flights, &clock, passes)?;
    let workers = workers_of(alloc, caches, bases, flyers)?;
    for sum in map_vec(rt, workers, &|mut worker: Worker<_>| worker.run(rt))? {
        let sum = sum?;
        println!(rt; "{sum}")?;
    }
    let known = cache.into_inner().len();
    println!(rt; "{known} keys")
}
