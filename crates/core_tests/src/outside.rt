//! Clocks, threads and gates: the fakes, and the real ones where they can be told.

use std::alloc::{AllocError, Global};
use std::sync::atomic::{AtomicU64, Ordering};
use std::sync::{OnceLock, Wait};
use std::test::Fail;
use std::thread;
use std::thread::Threads;
use sync_model::FrontNote;
use sync_outside::{
    At, Clock, Gate, HoldGate, MemClock, RefuseStart, Spawner, StartCounts, Started, ThreadSpawner,
    Work,
};
use system_io::SystemClock;

// The moment that any clock shows.
fn moment<C: Clock>(clock: &C) -> u64 {
    clock.now()
}

#[test]
fn clocks_show_their_moments(rt: HostRuntime) -> Result<(), Fail> {
    let clock = MemClock::new(Vec::from_slice(rt.alloc(), &[5, 9, 7])?);
    let (first, second) = thread::join(&rt, || clock.now(), || clock.now());
    assert!(rt; (first.min(second), first.max(second)) == (5, 9));
    assert!(rt; (clock.now(), clock.now(), clock.now()) == (7, 7, 7));
    let at: At<FrontNote, MemClock> = At {
        home: &(),
        clock: &clock,
    };
    assert!(rt; moment(at.clock) == 7);
    assert!(rt; MemClock::new(Vec::new(rt.alloc())).now() == 0);

    let machine = SystemClock::new(&rt);
    let (first, second) = thread::join(&rt, || machine.now(), || machine.now());
    assert!(rt; first.max(second) <= moment(&machine));
    Ok(())
}

// Gives a number to the other worker, and comes to the number that the other one gave.
#[derive(Drop)]
struct Exchange<'a> {
    number: u64,
    to: &'a OnceLock<u64>,
    from: &'a OnceLock<u64>,
}

impl Work for Exchange<'_> {
    type Out = u64;

    ghost ready = { λ _. Unit {0} };

    ghost gives = { λ _ _. Unit {0} };

    fn work<R: Wait>(self, rt: &R) -> u64 {
        let _ = self.to.set(rt, self.number);
        *self.from.wait(rt)
    }
}

// What two workers that wait for each other come to, or the numbers of the jobs that came back.
fn exchanged<P: Spawner, R: Threads + Wait + Sync>(
    rt: &R,
    alloc: Global,
    spawner: &mut P,
) -> Result<Started<u64, u64>, AllocError> {
    let (left, right) = (OnceLock::new(), OnceLock::new());
    let mut jobs = Vec::new(alloc);
    jobs.push(Exchange {
        number: 3,
        to: &left,
        from: &right,
    })?;
    jobs.push(Exchange {
        number: 5,
        to: &right,
        from: &left,
    })?;
    match spawner.start_all(rt, alloc, jobs) {
        Started::Done(results) => Ok(Started::Done(results)),
        Started::Refused(back) => {
            let mut numbers = Vec::new(alloc);
            for job in &back {
                numbers.push(if job.to.get().is_none() {
                    job.number
                } else {
                    0
                })?;
            }
            Ok(Started::Refused(numbers))
        }
        Started::Memory(_) => Err(AllocError),
    }
}

// Faults, jobs that were done, and calls in which all were.
fn numbers_of(counts: &StartCounts) -> (u64, u64, u64) {
    (counts.faults(), counts.ran(), counts.rounds())
}

#[test]
fn jobs_that_wait_for_one_another_are_done_or_all_come_back(rt: HostRuntime) -> Result<(), Fail> {
    for (refused, counts) in [
        (0, (0, 2, 1)),
        (1, (1, 0, 0)),
        (2, (1, 0, 0)),
        (3, (0, 2, 1)),
    ] {
        let mut spawner = RefuseStart::new(refused);
        let (is_done, numbers) = match exchanged(&rt, rt.alloc(), &mut spawner)? {
            Started::Done(results) => (true, results),
            Started::Refused(back) => (false, back),
            Started::Memory(_) => return Err(Fail::from(AllocError))
        };
        let want: [u64; 2] = if is_done { [5, 3] } else { [3, 5] };
        assert!(rt; numbers.as_slice() == want.as_slice(), "{refused}");
        assert!(rt; numbers_of(spawner.counts()) == counts, "{refused}");
    }
    let mut machine = ThreadSpawner::new();
    for round in 1..3_u64 {
        let started = exchanged(&rt, rt.alloc(), &mut machine)?;
        assert!(rt; matches!(started, Started::Done(_)), "{round}");
        assert!(rt; numbers_of(machine.counts()) == (0, 2 * round, round));
    }
    Ok(())
}

// Adds 1 to the number that the workers share.
#[derive(Drop)]
struct Adding<'a> {
    shared: &'a AtomicU64,
}

impl Work for Adding<'_> {
    type Out = u64;

    ghost ready = { λ _. Unit {0} };

    ghost gives = { λ _ _. Unit {0} };

    fn work<R: Wait>(self, _rt: &R) -> u64 {
        self.shared.fetch_add(1, Ordering::SeqCst)
    }
}

// That it holds one call until another was answered, the tests of the program show.
#[test]
fn a_gate_that_nobody_opens_gives_up(rt: HostRuntime) -> Result<(), Fail> {
    let alone = HoldGate::new(0);
    alone.before(&rt, 1, 0);
    alone.before(&rt, 0, 1);
    assert!(rt; !alone.has_given_up());
    alone.before(&rt, 0, 0);
    assert!(rt; alone.has_given_up());
    Ok(())
}

// So many jobs, each of which adds 1 to the shared number.
fn jobs_that_add<'a>(
    alloc: Global,
    jobs: u32,
    shared: &'a AtomicU64,
) -> Result<Vec<Adding<'a>>, AllocError> {
    let mut all = Vec::new(alloc);
    for _ in 0..jobs {
        all.push(Adding { shared })?;
    }
    Ok(all)
}

#[test]
fn any_number_of_jobs_is_done(rt: HostRuntime) -> Result<(), Fail> {
    for count in [0, 1, 2, 32] {
        let shared = AtomicU64::new(0);
        let jobs = jobs_that_add(rt.alloc(), count, &shared)?;
        let done = match ThreadSpawner::new().start_all(&rt, rt.alloc(), jobs) {
            Started::Done(results) => results.len(),
            Started::Refused(_) | Started::Memory(_) => usize::MAX
        };
        assert!(rt; (done, shared.load(Ordering::SeqCst)) == (count as usize, u64::from(count)));
    }
    Ok(())
}

// All other jobs have their threads by then. None of them may have begun.
#[test]
fn no_job_works_where_the_last_start_is_refused(rt: HostRuntime) -> Result<(), Fail> {
    let shared = AtomicU64::new(0);
    let jobs = jobs_that_add(rt.alloc(), 32, &shared)?;
    let back = match RefuseStart::new(32).start_all(&rt, rt.alloc(), jobs) {
        Started::Refused(back) => back.len(),
        Started::Done(_) | Started::Memory(_) => 0
    };
    assert!(rt; (back, shared.load(Ordering::SeqCst)) == (32, 0));
    Ok(())
}
