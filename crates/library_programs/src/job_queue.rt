//! One thread fills a queue and three empty it, as Go does by a mutex and a cond. What is printed is the sum of all they took.
use go_sync::{Clock, CondCaller, Guarded, GuardedCaller, cond_callers, new_cond};
use std::alloc::{AllocError, Global};
use std::collections::VecDeque;
use std::sync::Wait;
use std::thread::{Threads, map_vec};
use std::{io, rt};
use system_io::SystemClock;

/// The jobs that nobody has taken yet, and whether no more will come.
#[derive(Drop)]
struct Queue {
    jobs: VecDeque<u64>,
    closed: bool,
}

/// What one thread works with. Its callers have a lifetime for each object.
#[derive(Drop)]
struct Worker<'q, 'c, C: Clock> {
    queue: GuardedCaller<'q, Queue, C>,
    cond: CondCaller<'c, C>,
    fills: bool,
}

impl<C: Clock> Worker<'_, '_, C> {
    // The sum of the jobs that it took.
    fn run<R: Wait>(&mut self, rt: &R) -> Result<u64, AllocError> {
        if self.fills {
            let filled = self.fill(rt);
            self.queue.with(rt, |queue: &mut Queue| queue.closed = true);
            self.cond.broadcast(rt);
            filled?;
        }
        Ok(self.empty(rt))
    }

    fn fill<R: Wait>(&mut self, rt: &R) -> Result<(), AllocError> {
        for job in 0..1_000 {
            let put = move |queue: &mut Queue| queue.jobs.push_back(job);
            self.queue.with(rt, put).unwrap_or(Ok(()))?;
            self.cond.signal(rt);
        }
        Ok(())
    }

    fn empty<R: Wait>(&mut self, rt: &R) -> u64 {
        let mut sum: u64 = 0;
        for _ in rt.forever() {
            let is_idle = |queue: &Queue| queue.jobs.is_empty() && !queue.closed;
            let next = |queue: &mut Queue| queue.jobs.pop_front();
            match self.queue.wait_while(rt, &mut self.cond, is_idle, next) {
                Some(Some(job)) => sum = sum.wrapping_add(job),
                _ => return sum,
            }
        }
        unreachable!()
    }
}

/// Fills and empties the queue, and prints the sum.
pub fn run<R: Threads + Wait + Print + rt::Clock + Sync>(rt: &R, alloc: Global) -> io::Result<()> {
    let clock = SystemClock::new(rt);
    let (jobs, closed) = (VecDeque::new(alloc), false);
    let (queue, passes) = Guarded::new(alloc, 4, Queue { jobs, closed })?;
    let mut queues = queue.callers(alloc, &clock, passes)?;
    let (cond, passes) = new_cond(alloc, 4)?;
    let mut conds = cond_callers(alloc, &cond, &clock, passes)?;
    let mut workers = Vec::new(alloc);
    for number in 0..4 {
        if let (Some(queue), Some(cond)) = (queues.pop(), conds.pop()) {
            let fills = number == 0;
            workers.push(Worker { queue, cond, fills })?;
        }
    }
    let mut sum: u64 = 0;
    for taken in map_vec(rt, workers, &|mut worker: Worker<_>| worker.run(rt))? {
        sum = sum.wrapping_add(taken?);
    }
    println!(rt; "{sum}")
}
