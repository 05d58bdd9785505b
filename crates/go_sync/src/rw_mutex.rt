//! Go's `sync.RWMutex`: a reader/writer lock, and the callers that threads lock it by.
ghost use Rattle.std.specs.Prelude.{◌≡◌, ◌+◌, ◌<◌, ◌≤◌, All, IfOk, IfSome, MatchOption, vec_len};
ghost use Rattle.go_locks.specs.RwMutexes.{IsPassOfRwMutex};

mod calls;

use go_locks::{RwMutex, RwPass};
use ruled_object::MAX_CALLS;
use std::alloc::{AllocError, Global};
use sync_model::NoNote;
use sync_outside::Clock;

/// What a reader/writer lock keeps of its threads, one for each. `rw_callers` makes callers of them.
pub type RwPasses = Vec<RwPass<NoNote>>;

/// An unlocked reader/writer lock for so many threads, 64 at most.
pub fn new_rw_mutex(alloc: Global, threads: u32) -> Result<(RwMutex<NoNote>, RwPasses), AllocError>
    requires { (0 < threads) × (threads ≤ 64) }
    ensures passes { IfOk result (λ made. All (IsPassOfRwMutex made.0) made.1.items) }
    ensures count { IfOk result (λ made. vec_len made.1 ≡ threads) }
{
    let (lock, passes) = RwMutex::new(alloc, threads, MAX_CALLS, NoNote::new())?;
    Ok((lock, passes))
}

/// A caller for each thread.
pub fn rw_callers<'a, C: Clock>(
    alloc: Global,
    lock: &'a RwMutex<NoNote>,
    clock: &'a C,
    mut passes: RwPasses,
) -> Result<Vec<RwCaller<'a, C>>, AllocError>
    requires { All (IsPassOfRwMutex lock.now) passes.items }
    ensures count { IfOk result (λ callers. vec_len callers ≡ vec_len passes) }
    ensures each { IfOk result (λ callers. All (λ caller. caller.lock.now ≡ lock.now) callers.items) }
{
    let mut callers = Vec::with_capacity(alloc, passes.len())?;
    while let Some(caller) = RwCaller::last(lock, clock, &mut passes) {
        callers.push(caller)?;
    }
    Ok(callers)
}

/// What one thread locks a reader/writer lock by: any number of readers hold it, or one writer.
///
/// In the words of Go's memory model: an `unlock` or `r_unlock` is synchronized before each later `lock` and `r_lock`, and before each
/// later try that succeeds.
#[derive(Drop)]
pub struct RwCaller<'a, C: Clock> {
    pub(crate) lock: &'a RwMutex<NoNote>,
    pub(crate) clock: &'a C,
    pub(crate) pass: RwPass<NoNote>,
    ghost is: { IsPassOfRwMutex lock.now pass },
}

impl<'a, C: Clock> RwCaller<'a, C> {
    /// The caller of the last of these passes.
    pub fn last(lock: &'a RwMutex<NoNote>, clock: &'a C, passes: &mut RwPasses) -> Option<Self>
        requires { All (IsPassOfRwMutex lock.now) passes.old.items }
        ensures passes { All (IsPassOfRwMutex lock.now) passes.new.items }
        ensures count { MatchOption result (vec_len passes.old ≡ 0) (λ _. vec_len passes.new + 1 ≡ vec_len passes.old) }
        ensures at { IfSome result (λ caller. caller.lock.now ≡ lock.now) }
    {
        let pass = passes.pop()?;
        Some(RwCaller { lock, clock, pass })
    }
}
