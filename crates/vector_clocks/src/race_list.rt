//! The races of a trace.
ghost use Rattle.std.specs.Prelude.{◌↔◌, ℕ, ◌+◌, ◌<◌, [], length, IsTrue, IfOk, OnOk};
ghost use Rattle.vector_clocks.specs.Fits.{Fits};
ghost use Rattle.vector_clocks.specs.Knowing.{AreClocks};
ghost use Rattle.vector_clocks.specs.Listing.{HoldAccesses, AreRacesUpTo};
ghost use Rattle.vector_clocks.specs.Races.{Conflicts, IsRace, AreRaces};

use crate::clock::Clock;
use crate::clocks::{clocks_of, is_before};
use crate::race::Race;
use crate::step::Step;
use std::alloc::{AllocError, Global};

/// The races of a trace, each once, sorted by their later step and then by their earlier one. After the Go memory model, two accesses
/// of a variable race where one of them is a write and neither happens before the other. The steps take time along the trace and its
/// channels; the accesses are compared with one another.
pub fn races(
    alloc: Global,
    trace: &[Step],
    workers: usize,
    channels: usize,
) -> Result<Vec<Race>, AllocError>
    requires { Fits trace.now workers channels }
    ensures { IfOk result (λ races. AreRaces trace.now races.items) }
{
    let clocks = clocks_of(alloc, trace, workers, channels)?;
    races_by(alloc, trace, &clocks)
}

/// The races of a trace by the clocks of its steps. Each access is compared with all accesses before it, and no step that makes none is.
fn races_by(alloc: Global, trace: &[Step], clocks: &[Clock]) -> Result<Vec<Race>, AllocError>
    requires fits { (workers channels : ℕ) × Fits trace.now workers channels }
    requires are { AreClocks trace.now clocks.now }
    ensures { IfOk result (λ races. AreRaces trace.now races.items) }
{
    let mut accesses = Vec::new(alloc);
    let mut races = Vec::new(alloc);
    for later in 0..trace.len() {
        if trace[later].access.is_some() {
            add_races(trace, clocks, &accesses, later, &mut races)?;
            accesses.push(later)?;
        }
    }
    Ok(races)
}

/// Adds the races of one access with the accesses before it.
fn add_races(
    trace: &[Step],
    clocks: &[Clock],
    accesses: &[usize],
    later: usize,
    races: &mut Vec<Race>,
) -> Result<(), AllocError>
    requires fits { (workers channels : ℕ) × Fits trace.now workers channels }
    requires are { AreClocks trace.now clocks.now }
    requires within { later < length trace.now }
    requires accesses { HoldAccesses trace.now later accesses.now }
    requires races { AreRacesUpTo trace.now later [] races.old.items }
    ensures { OnOk result (AreRacesUpTo trace.now later accesses.now races.new.items) }
{
    for earlier in accesses {
        if is_race(trace, clocks, *earlier, later) {
            races.push(Race {
                earlier: *earlier,
                later,
            })?;
        }
    }
    Ok(())
}

/// Whether an earlier step and a later one race.
fn is_race(trace: &[Step], clocks: &[Clock], earlier: usize, later: usize) -> bool
    requires fits { (workers channels : ℕ) × Fits trace.now workers channels }
    requires are { AreClocks trace.now clocks.now }
    requires order { earlier < later }
    requires within { later < length trace.now }
    ensures { IsTrue result ↔ IsRace trace.now earlier later }
{
    conflict(&trace[earlier], &trace[later]) && !is_before(trace, clocks, earlier, later)
}

/// Whether two steps are of two workers and access one variable, one of them by a write.
fn conflict(first: &Step, second: &Step) -> bool
    ensures { IsTrue result ↔ Conflicts first.now second.now }
{
    match (first.access, second.access) {
        (Some(one), Some(other)) => first.worker != second.worker
            && one.variable == other.variable
            && (one.writes || other.writes),
        _ => false,
    }
}
