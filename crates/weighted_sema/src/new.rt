//! A new semaphore.
ghost use Rattle.std.specs.Prelude.{◌≡◌, ◌≤◌, IfOk};
ghost use Rattle.sema_core.specs.SemaMachine.{start};
ghost use Rattle.weighted_sema.specs.Semas.{callers_of, start_of, AreNew, IsHomeOf};

use crate::sema::{Sema, SemaPass};
use ruled_object::MAX_CALLS;
use sema_core::SemaCore;
use std::alloc::{AllocError, Global};
use sync_model::{MAX_CALLERS, Note};

/// The greatest size of a semaphore.
pub const MAX_SIZE: u64 = 1_000_000;

impl<N: Note> Sema<N> {
    /// A semaphore of this size of which nothing is held, for callers 0 to `callers - 1`, and their passes, each good for `calls`
    /// calls. It keeps `note` for what is released leaves. No other call takes memory.
    pub fn new(
        alloc: Global,
        callers: u32,
        size: u64,
        calls: u64,
        note: N,
    ) -> Result<(Self, Vec<SemaPass<N>>), AllocError>
        requires callers { (1 ≤ callers) × (callers ≤ MAX_CALLERS) }
        requires size { (1 ≤ size) × (size ≤ MAX_SIZE) }
        requires calls { calls ≤ MAX_CALLS }
        ensures sema { IfOk result (λ made. (callers_of made.0 ≡ callers) × (start_of made.0 ≡ start callers size) × ((home : N.Home) → N.at home note → IsHomeOf N.at made.0 home)) }
        ensures passes { IfOk result (λ made. AreNew made.0 calls made.1.items) }
    {
        let core = SemaCore::new(alloc, callers, size)?;
        let (object, passes) = call_loop::new(alloc, callers, calls, core, note)?;
        Ok((Sema { object }, passes))
    }
}
