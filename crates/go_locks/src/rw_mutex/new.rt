//! A new reader/writer lock.
ghost use Rattle.std.specs.Prelude.{◌≡◌, ◌<◌, ◌≤◌, IfOk};
ghost use Rattle.rw_core.specs.RwMachine.{start};
ghost use Rattle.go_locks.specs.RwMutexes.{rw_callers, rw_start, IsHomeOfRwMutex, AreNewOfRwMutex};

use super::{RwMutex, RwPass};
use ruled_object::MAX_CALLS;
use rw_core::RwCore;
use std::alloc::{AllocError, Global};
use sync_model::{MAX_CALLERS, Note};

impl<N: Note> RwMutex<N> {
    /// An unlocked lock, and the passes of its callers in order of number, each good for `calls` calls. It keeps `note` for
    /// what unlocks leave. No other call takes memory.
    pub fn new(
        alloc: Global,
        callers: u32,
        calls: u64,
        note: N,
    ) -> Result<(Self, Vec<RwPass<N>>), AllocError>
        requires callers { (0 < callers) × (callers ≤ MAX_CALLERS) }
        requires calls { calls ≤ MAX_CALLS }
        ensures lock { IfOk result (λ made. (rw_callers made.0 ≡ callers) × (rw_start made.0 ≡ start callers) × ((home : N.Home) → N.at home note → IsHomeOfRwMutex N.at made.0 home)) }
        ensures passes { IfOk result (λ made. AreNewOfRwMutex made.0 calls made.1.items) }
    {
        let core = RwCore::new(alloc, callers)?;
        let (object, passes) = call_loop::new(alloc, callers, calls, core, note)?;
        Ok((RwMutex { object }, passes))
    }
}
