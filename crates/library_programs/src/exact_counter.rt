//! Four threads add to one counter under a mutex, and what it ends at is proved: each thread's number, together.
ghost use Rattle.std.specs.Prelude.{◌≡◌, ℕ, ◌+◌, ◌*◌, ◌<◌, ◌≤◌, ◌^◌, IfOk, IfSome};
ghost use Rattle.std.specs.Thread.{IsSync};

use go_sync::{Clock, Guarded, GuardedCaller};
use std::alloc::{AllocError, Global};
use std::marker::Brand;
use std::sync::Wait;
use std::sync::ledger::{Blank, Book, Ledger, Share};
use std::thread::{Threads, map_vec};
use std::{io, rt};
use system_io::SystemClock;

/// A count to come.
pub trait Job: Ledger {
    ghost hits: { ℕ };
}

impl Job for Brand {
    ghost hits = { 0 };
}

/// The ledger has one ticket for each hit that is still to come.
#[derive(Drop)]
struct Counter<J: Job> {
    count: u64,
    tickets: Book<J>,
    ghost adds_up: { count + tickets.total ≡ J.hits },
    ghost fits: { J.hits < 2 ^ 64 },
}

impl<J: Job> Counter<J> {
    fn hit(&mut self, mine: Share<J>) -> Share<J>
        requires { 0 < mine.amount }
        ensures amount { result.amount + 1 ≡ mine.amount }
        ensures parts { result.parts ≡ mine.parts }
    {
        let Counter { count, tickets } = self;
        let mut left = mine;
        tickets.sub(&mut left, 1);
        *count += 1;
        left
    }

    fn last(self, all: &mut Share<J>) -> u64
        requires whole { all.old.parts ≡ J.parts }
        requires spent { all.old.amount ≡ 0 }
        ensures { result ≡ J.hits }
    {
        let mut counter = self;
        counter.tickets.audit(all);
        counter.count
    }
}

// One thread's place, with its tickets.
#[derive(Drop)]
struct Worker<'a, J: Job, C: Clock> {
    counter: GuardedCaller<'a, Counter<J>, C>,
    share: Share<J>,
    each: u32,
    ghost one_part: { share.parts ≡ 1 },
    ghost tickets: { share.amount ≡ each },
}

// What a thread hands back.
#[derive(Drop)]
struct Spent<J: Job> {
    share: Share<J>,
    ghost one_part: { share.parts ≡ 1 },
    ghost none_left: { share.amount ≡ 0 },
}

// One hit.
fn hit<J: Job, C: Clock, R: Wait>(
    rt: &R,
    counter: &mut GuardedCaller<Counter<J>, C>,
    share: Share<J>,
) -> Option<Share<J>>
    requires { 0 < share.amount }
    ensures { IfSome result (λ left. (left.amount + 1 ≡ share.amount) × (left.parts ≡ share.parts)) }
{
    let one = move |counter: &mut Counter<J>| -> Share<J>
        requires { 0 < share.amount }
        ensures { (result.amount + 1 ≡ share.amount) × (result.parts ≡ share.parts) }
    { counter.hit(share) };
    counter.with(rt, one)
}

// All hits of a thread.
fn work<J: Job, C: Clock, R: Wait>(rt: &R, worker: Worker<J, C>) -> Option<Spent<J>> {
    let Worker {
        mut counter,
        mut share,
        each,
    } = worker;
    for _i in 0..each {
        share = hit(rt, &mut counter, share)?;
    }
    Some(Spent { share })
}

// The counter, its callers and their tickets. All parts of the ledger are back at the end.
fn count_hits<J: Job + Send + Sync, C: Clock + Sync, R: Threads + Wait + Sync>(
    rt: &R,
    alloc: Global,
    clock: &C,
    blank: Blank,
    threads: u32,
    each: u32,
) -> Result<Option<u64>, AllocError>
    requires threads { (0 < threads) × (threads ≤ 64) }
    requires name { blank.name ≡ J.name }
    requires parts { (blank.parts ≡ J.parts) × (blank.parts ≡ threads + 1) }
    requires hits { threads * each ≡ J.hits }
    ensures { IfOk result (λ total. IfSome total (λ n. n ≡ J.hits)) }
{
    let (mut tickets, mut all) = blank.open::<J>();
    tickets.add(&mut all, threads as u64 * each as u64);
    let (counter, passes) = Guarded::new(alloc, threads, Counter { count: 0, tickets })?;
    let mut callers = counter.callers(alloc, clock, passes)?;
    let mut workers = Vec::new(alloc);
    for _i in 0..threads {
        let share = all.split_off(1, each as u64);
        let Some(counter) = callers.pop() else {
            return Ok(None);
        };
        workers.push(Worker {
            counter,
            share,
            each,
        })?;
    }
    let mut done = map_vec(
        rt,
        workers,
        &|worker: Worker<J, C>| -> Option<Spent<J>>
            requires { IsSync R.row × IsSync C.row }
        { work(rt, worker) },
    )?;
    while let Some(spent) = done.pop() {
        let Some(Spent { share }) = spent else {
            return Ok(None);
        };
        all.merge(share);
    }
    drop(done);
    drop(callers);
    Ok(Some(counter.into_inner().last(&mut all)))
}

/// What so many threads count together, each so often; `None` where one of them could make no call.
pub fn count<C: Clock + Sync, R: Threads + Wait + Sync>(
    rt: &R,
    alloc: Global,
    clock: &C,
    threads: u32,
    each: u32,
) -> Result<Option<u64>, AllocError>
    requires { (0 < threads) × (threads ≤ 64) }
    ensures { IfOk result (λ total. IfSome total (λ n. n ≡ threads * each)) }
{
    count_hits::<Brand, C, R>(
        rt,
        alloc,
        clock,
        Blank::new(threads as u64 + 1),
        threads,
        each,
    )
}

/// Counts, and prints the total.
pub fn run<R: Threads + Wait + Print + rt::Clock + Sync>(rt: &R, alloc: Global) -> io::Result<()> {
    let clock = SystemClock::new(rt);
    match count(rt, alloc, &clock, 4, 1000)? {
        Some(total) => println!(rt; "{total}"),
        None => println!(rt; "no call was left")
    }
}
