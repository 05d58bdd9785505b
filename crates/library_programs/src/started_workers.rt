//! One thread starts two others, as Go does by `wg.Go`, waits until they have returned, and prints what they counted. A third one waits to be started, and nobody
//! starts it.
use go_sync::{Clock, GoCaller, GoGroup, Guarded, GuardedCaller};
use std::alloc::Global;
use std::sync::Wait;
use std::thread::{Threads, map_vec};
use std::{io, rt};
use system_io::SystemClock;

/// What one thread works with.
#[derive(Drop)]
struct Worker<'g, 't, C: Clock> {
    group: GoCaller<'g, C>,
    total: GuardedCaller<'t, u64, C>,
}

impl<C: Clock> Worker<'_, '_, C> {
    // What it finds in the end: the first one the total, and each other one what it added.
    fn run<R: Wait>(&mut self, rt: &R) -> Option<u64> {
        if self.group.number() == 0 {
            return self.lead(rt);
        }
        let total = &mut self.total;
        self.group.run(rt, || add(rt, total))
    }

    // Starts two, waits for them, and looks.
    fn lead<R: Wait>(&mut self, rt: &R) -> Option<u64> {
        self.group.go(rt, 1);
        self.group.go(rt, 2);
        self.group.wait(rt);
        self.group.end(rt);
        self.total.with(rt, |total: &mut u64| *total)
    }
}

// Adds 1 a thousand times.
fn add<C: Clock, R: Wait>(rt: &R, total: &mut GuardedCaller<u64, C>) -> u64 {
    for _ in 0..1000 {
        total.with(rt, |n: &mut u64| *n = n.wrapping_add(1));
    }
    1000
}

/// Starts them, and prints what each one found.
pub fn run<R: Threads + Wait + Print + rt::Clock + Sync>(rt: &R, alloc: Global) -> io::Result<()> {
    let clock = SystemClock::new(rt);
    let (group, passes) = GoGroup::new(alloc, 4)?;
    let mut groups = group.callers(alloc, &clock, passes)?;
    let (total, passes) = Guarded::new(alloc, 4, 0u64)?;
    let mut totals = total.callers(alloc, &clock, passes)?;
    let mut workers = Vec::new(alloc);
    for _ in 0..4 {
        if let (Some(group), Some(total)) = (groups.pop(), totals.pop()) {
            workers.push(Worker { group, total })?;
        }
    }
    for found in map_vec(rt, workers, &|mut worker: Worker<_>| worker.run(rt))? {
        match found {
            Some(found) => println!(rt; "{found}")?,
            None => println!(rt; "not started")?,
        }
    }
    Ok(())
}
