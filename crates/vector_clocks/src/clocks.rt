//! The clocks of workers and channels.
ghost use Rattle.std.specs.Prelude.{◌≡◌, ◌↔◌, IsTrue, ℕ, List, ◌+◌, ◌^◌, ◌<◌, length, slice_get, slice_index, Some, IfOk};
ghost use Rattle.vector_clocks.specs.Before.{made_before, Before};
ghost use Rattle.vector_clocks.specs.Fits.{AreBelow, Fits};
ghost use Rattle.vector_clocks.specs.Joins.{IsAtLeast};
ghost use Rattle.vector_clocks.specs.Knowing.{IsBehind, Taken, Shows, AtOrBefore, AreAt, AreGiven, AreSet, AreClocks, AreZero};
ghost use Rattle.vector_clocks.specs.declared.clock.Clock.{Clock};
ghost use Rattle.vector_clocks.specs.declared.step.Step.{Step};

use crate::clock::Clock;
use crate::step::Step;
use std::alloc::{AllocError, Global};

/// The clock behind each step of a trace: it knows the step itself and those before it.
pub fn clocks_of(
    alloc: Global,
    trace: &[Step],
    workers: usize,
    channels: usize,
) -> Result<Vec<Clock>, AllocError>
    requires { Fits trace.now workers channels }
    ensures { IfOk result (λ clocks. AreClocks trace.now clocks.items) }
{
    let mut of_workers = zeros(alloc, workers)?;
    let mut of_channels = zeros(alloc, channels)?;
    go_over(alloc, trace, &mut of_workers, &mut of_channels)
}

/// Whether an earlier step is before a later one, by their clocks: whether the later one's counts the earlier one.
pub fn is_before(trace: &[Step], clocks: &[Clock], earlier: usize, later: usize) -> bool
    requires fits { (workers channels : ℕ) × Fits trace.now workers channels }
    requires are { AreClocks trace.now clocks.now }
    requires order { earlier < later }
    requires within { later < length trace.now }
    ensures { IsTrue result ↔ Before trace.now earlier later }
{
    let worker = trace[earlier].worker as usize;
    clocks[earlier].counts[worker] <= clocks[later].counts[worker]
}

/// The clock behind each step of a trace, by workers and channels that know of no step.
fn go_over(
    alloc: Global,
    trace: &[Step],
    workers: &mut [Clock],
    channels: &mut [Clock],
) -> Result<Vec<Clock>, AllocError>
    requires fits { Fits trace.now (length workers.old) (length channels.old) }
    requires workers { AreZero workers.old }
    requires channels { AreZero channels.old }
    ensures { IfOk result (λ clocks. AreClocks trace.now clocks.items) }
{
    let mut clocks = Vec::new(alloc);
    for n in 0..trace.len() {
        clocks.push(advance(trace, n, workers, channels))?;
    }
    Ok(clocks)
}

/// Goes on by step `n`, and answers the clock behind it.
fn advance(trace: &[Step], n: usize, workers: &mut [Clock], channels: &mut [Clock]) -> Clock
    requires fits { Fits trace.now (length workers.old) (length channels.old) }
    requires within { n < length trace.now }
    requires are { AreAt trace.now n workers.old channels.old }
    ensures are { AreAt trace.now (n + 1) workers.new channels.new }
    ensures behind { IsBehind trace.now n result }
{
    let clock = behind(trace, n, workers, channels);
    let step = &trace[n];
    let worker = step.worker as usize;
    workers[worker] = clock;
    pass_on(step, &clock, channels);
    clock
}

/// The clock behind step `n`.
fn behind(trace: &[Step], n: usize, workers: &[Clock], channels: &[Clock]) -> Clock
    requires fits { Fits trace.now (length workers.now) (length channels.now) }
    requires within { n < length trace.now }
    requires are { AreAt trace.now n workers.now channels.now }
    ensures shows { Shows trace.now (n + 1) result.counts (λ i. AtOrBefore trace.now i n) }
    ensures own { (x : Step) → slice_get trace.now n ≡ Some x → slice_index result.counts x.worker ≡ made_before trace.now n x.worker + 1 }
{
    let step = &trace[n];
    let mut clock = taken(step.worker, &step.takes, workers, channels);
    clock.count(step.worker as usize);
    clock
}

/// What a step of a worker takes in, by the clocks before it.
fn taken(worker: u32, takes: &[u32], workers: &[Clock], channels: &[Clock]) -> Clock
    requires worker { worker < length workers.now }
    requires takes { AreBelow (length channels.now) takes.now }
    ensures shows { (trace : List Step) (n : ℕ) → AreAt trace n workers.now channels.now → Shows trace n result.counts (Taken trace n worker takes.now) }
    ensures rises { (was : Clock) → slice_get workers.now worker ≡ Some was → IsAtLeast result.counts was.counts }
{
    let mut clock = workers[worker as usize];
    for channel in takes {
        clock.join(&channels[*channel as usize]);
    }
    clock
}

/// Hands on what a clock knows.
fn pass_on(step: &Step, clock: &Clock, channels: &mut [Clock])
    requires gives { AreBelow (length channels.old) step.now.gives.items }
    requires sets { AreBelow (length channels.old) step.now.sets.items }
    ensures { (between : List Clock) × AreGiven step.now.gives.items clock.now channels.old between × AreSet step.now.sets.items clock.now between channels.new }
{
    give(&step.gives, clock, channels);
    set_all(&step.sets, clock, channels);
}

/// Gives what a clock knows into these channels.
fn give(gives: &[u32], clock: &Clock, channels: &mut [Clock])
    requires { AreBelow (length channels.old) gives.now }
    ensures { AreGiven gives.now clock.now channels.old channels.new }
{
    for channel in gives {
        channels[*channel as usize].join(clock);
    }
}

/// Sets these channels.
fn set_all(sets: &[u32], clock: &Clock, channels: &mut [Clock])
    requires { AreBelow (length channels.old) sets.now }
    ensures { AreSet sets.now clock.now channels.old channels.new }
{
    for channel in sets {
        channels[*channel as usize] = *clock;
    }
}

/// So many clocks that know of no step.
fn zeros(alloc: Global, count: usize) -> Result<Vec<Clock>, AllocError>
    ensures { IfOk result (λ clocks. (length clocks.items ≡ count) × AreZero clocks.items) }
{
    let mut clocks = Vec::new(alloc);
    for _ in 0..count {
        clocks.push(Clock::zero())?;
    }
    Ok(clocks)
}
