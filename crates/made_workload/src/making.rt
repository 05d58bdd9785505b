//! The workload that a seed gives.
ghost use Rattle.std.specs.Prelude.{◌≡◌, IfOk};
ghost use Rattle.made_workload.specs.Generated.{generated_plan};

use crate::generating::generate;
use std::alloc::{AllocError, Global};
use workload::laws::{one_reading, read_or_refused};
use workload::{ParseFault, Workload};
use workload_text::parse;

/// The workload that a seed gives: its text is made, and then read as any other text.
///
/// # Errors
///
/// Memory is out. The text is never refused.
pub fn made_workload(alloc: Global, seed: u64) -> Result<Workload, AllocError>
    ensures { IfOk result (λ made. made ≡ generated_plan seed) }
{
    one_reading();
    read_or_refused();
    let text = generate(alloc, seed)?;
    match parse(alloc, &text) {
        Ok(workload) => Ok(workload),
        Err(ParseFault::Memory) => Err(AllocError),
        Err(ParseFault::Refused { .. }) => unreachable!(),
    }
}
