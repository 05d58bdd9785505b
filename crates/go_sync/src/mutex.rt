//! Go's `sync.Mutex`: a mutex, and the callers that threads lock it by.
ghost use Rattle.std.specs.Prelude.{◌≡◌, ◌+◌, ◌<◌, ◌≤◌, All, IfOk, IfSome, MatchOption, vec_len};
ghost use Rattle.go_locks.specs.Mutexes.{IsPassOfMutex};

mod calls;

use go_locks::{Mutex, MutexPass};
use ruled_object::MAX_CALLS;
use std::alloc::{AllocError, Global};
use sync_model::NoNote;
use sync_outside::Clock;

/// What a mutex keeps of its threads, one for each. `mutex_callers` makes callers of them.
pub type MutexPasses = Vec<MutexPass<NoNote>>;

/// An unlocked mutex for so many threads, 64 at most.
pub fn new_mutex(alloc: Global, threads: u32) -> Result<(Mutex<NoNote>, MutexPasses), AllocError>
    requires { (0 < threads) × (threads ≤ 64) }
    ensures passes { IfOk result (λ made. All (IsPassOfMutex made.0) made.1.items) }
    ensures count { IfOk result (λ made. vec_len made.1 ≡ threads) }
{
    let (mutex, passes) = Mutex::new(alloc, threads, MAX_CALLS, NoNote::new())?;
    Ok((mutex, passes))
}

/// A caller for each thread.
pub fn mutex_callers<'a, C: Clock>(
    alloc: Global,
    mutex: &'a Mutex<NoNote>,
    clock: &'a C,
    mut passes: MutexPasses,
) -> Result<Vec<MutexCaller<'a, C>>, AllocError>
    requires { All (IsPassOfMutex mutex.now) passes.items }
    ensures count { IfOk result (λ callers. vec_len callers ≡ vec_len passes) }
    ensures each { IfOk result (λ callers. All (λ caller. caller.mutex.now ≡ mutex.now) callers.items) }
{
    let mut callers = Vec::with_capacity(alloc, passes.len())?;
    while let Some(caller) = MutexCaller::last(mutex, clock, &mut passes) {
        callers.push(caller)?;
    }
    Ok(callers)
}

/// What one thread locks a mutex by.
///
/// In the words of Go's memory model: an `unlock` is synchronized before each later `lock`, and before each later `try_lock` that
/// succeeds. A lock isn't tied to its thread: one caller may lock it and another one unlock it.
#[derive(Drop)]
pub struct MutexCaller<'a, C: Clock> {
    pub(crate) mutex: &'a Mutex<NoNote>,
    pub(crate) clock: &'a C,
    pub(crate) pass: MutexPass<NoNote>,
    ghost is: { IsPassOfMutex mutex.now pass },
}

impl<'a, C: Clock> MutexCaller<'a, C> {
    /// The caller of the last of these passes.
    pub fn last(mutex: &'a Mutex<NoNote>, clock: &'a C, passes: &mut MutexPasses) -> Option<Self>
        requires { All (IsPassOfMutex mutex.now) passes.old.items }
        ensures passes { All (IsPassOfMutex mutex.now) passes.new.items }
        ensures count { MatchOption result (vec_len passes.old ≡ 0) (λ _. vec_len passes.new + 1 ≡ vec_len passes.old) }
        ensures at { IfSome result (λ caller. caller.mutex.now ≡ mutex.now) }
    {
        let pass = passes.pop()?;
        Some(MutexCaller { mutex, clock, pass })
    }
}
