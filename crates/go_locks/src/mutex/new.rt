//! A new mutex.
ghost use Rattle.std.specs.Prelude.{◌≡◌, ◌<◌, ◌≤◌, All, IfOk};
ghost use Rattle.mutex_core.specs.MutexMachine.{start};
ghost use Rattle.ruled_object.specs.Passes.{turns_of};
ghost use Rattle.go_locks.specs.Mutexes.{mutex_callers, mutex_start, IsHomeOfMutex, AreNewOfMutex};

use super::{Mutex, MutexPass};
use mutex_core::MutexCore;
use ruled_object::MAX_CALLS;
use std::alloc::{AllocError, Global};
use sync_model::{MAX_CALLERS, Note};

impl<N: Note> Mutex<N> {
    /// An unlocked mutex, and the passes of its callers in order of number, each good for `calls` calls. None has taken a turn.
    /// It keeps `note` for what unlocks leave. No other call takes memory.
    pub fn new(
        alloc: Global,
        callers: u32,
        calls: u64,
        note: N,
    ) -> Result<(Self, Vec<MutexPass<N>>), AllocError>
        requires callers { (0 < callers) × (callers ≤ MAX_CALLERS) }
        requires calls { calls ≤ MAX_CALLS }
        ensures mutex { IfOk result (λ made. (mutex_callers made.0 ≡ callers) × (mutex_start made.0 ≡ start callers) × ((home : N.Home) → N.at home note → IsHomeOfMutex N.at made.0 home)) }
        ensures passes { IfOk result (λ made. AreNewOfMutex made.0 calls made.1.items) }
        ensures turns { IfOk result (λ made. All (λ pass. turns_of pass ≡ 0) made.1.items) }
    {
        let core = MutexCore::new(alloc, callers)?;
        let (object, passes) = call_loop::new(alloc, callers, calls, core, note)?;
        Ok((Mutex { object }, passes))
    }
}
