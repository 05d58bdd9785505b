//! Whether a trace fits its numbers of workers and channels.
ghost use Rattle.std.specs.Prelude.{◌↔◌, IsTrue};
ghost use Rattle.vector_clocks.specs.Fits.{AreBelow, StepFits, Fits};

use crate::step::Step;

/// At most so many workers make the steps of a trace.
pub const WORKERS: usize = 32;

/// A trace has fewer steps than this.
pub const STEPS: usize = 4_294_967_296;

/// Whether a trace has fewer than 2^32 steps, of so many workers and channels, of which the workers are 32 at most.
pub fn fits(trace: &[Step], workers: usize, channels: usize) -> bool
    ensures { IsTrue result ↔ Fits trace.now workers channels }
{
    workers <= WORKERS
        && trace.len() < STEPS
        && trace.iter().all(|step| step_fits(step, workers, channels))
}

fn step_fits(step: &Step, workers: usize, channels: usize) -> bool
    ensures { IsTrue result ↔ StepFits workers channels step.now }
{
    (step.worker as usize) < workers
        && are_below(&step.takes, channels)
        && are_below(&step.gives, channels)
        && are_below(&step.sets, channels)
}

fn are_below(numbers: &[u32], end: usize) -> bool
    ensures { IsTrue result ↔ AreBelow end numbers.now }
{
    numbers.iter().all(|number| (*number as usize) < end)
}
