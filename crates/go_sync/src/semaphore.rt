//! The weighted semaphore of Go's `golang.org/x/sync/semaphore`, without contexts, and the callers that threads use it by.
ghost use Rattle.std.specs.Prelude.{◌≡◌, ◌+◌, ◌<◌, ◌≤◌, All, IfOk, IfSome, MatchOption, vec_len};
ghost use Rattle.weighted_sema.specs.Semas.{IsPassOf, size_of};

mod calls;

use ruled_object::MAX_CALLS;
use std::alloc::{AllocError, Global};
use sync_model::NoNote;
use sync_outside::Clock;
use weighted_sema::{Sema, SemaPass};

/// What a semaphore keeps of its threads, one for each. `Semaphore::callers` makes callers of them.
pub type SemaPasses = Vec<SemaPass<NoNote>>;

/// A bound on what threads hold together: each comes for a weight, and all that is held is at most the size.
#[derive(Drop)]
pub struct Semaphore {
    sema: Sema<NoNote>,
    size: u64,
    ghost sized: { size ≡ size_of sema },
}

impl Semaphore {
    /// A semaphore of this size, 1 to 1,000,000, of which nothing is held, for so many threads, 64 at most, with their passes.
    pub fn new(alloc: Global, threads: u32, size: u64) -> Result<(Self, SemaPasses), AllocError>
        requires threads { (0 < threads) × (threads ≤ 64) }
        requires size { (1 ≤ size) × (size ≤ 1000000) }
        ensures size { IfOk result (λ made. size_of made.0.sema ≡ size) }
        ensures passes { IfOk result (λ made. All (IsPassOf made.0.sema) made.1.items) }
        ensures count { IfOk result (λ made. vec_len made.1 ≡ threads) }
    {
        let (sema, passes) = Sema::new(alloc, threads, size, MAX_CALLS, NoNote::new())?;
        Ok((Semaphore { sema, size }, passes))
    }

    /// A caller for each thread.
    pub fn callers<'a, C: Clock>(
        &'a self,
        alloc: Global,
        clock: &'a C,
        mut passes: SemaPasses,
    ) -> Result<Vec<SemaCaller<'a, C>>, AllocError>
        requires { All (IsPassOf self.now.sema) passes.items }
        ensures count { IfOk result (λ callers. vec_len callers ≡ vec_len passes) }
        ensures each { IfOk result (λ callers. All (λ caller. caller.semaphore.now ≡ self.now) callers.items) }
    {
        let mut callers = Vec::with_capacity(alloc, passes.len())?;
        while let Some(caller) = SemaCaller::last(self, clock, &mut passes) {
            callers.push(caller)?;
        }
        Ok(callers)
    }
}

/// What one thread uses a semaphore by. A weight is 1 up to the semaphore's size: a call with another number answers `None`, and
/// nothing was done.
///
/// A `release` synchronizes before each later `acquire`, and before each later `try_acquire` that succeeds.
#[derive(Drop)]
pub struct SemaCaller<'a, C: Clock> {
    semaphore: &'a Semaphore,
    clock: &'a C,
    pass: SemaPass<NoNote>,
    ghost is: { IsPassOf semaphore.now.sema pass },
}

impl<'a, C: Clock> SemaCaller<'a, C> {
    /// The caller of the last of these passes.
    pub fn last(semaphore: &'a Semaphore, clock: &'a C, passes: &mut SemaPasses) -> Option<Self>
        requires { All (IsPassOf semaphore.now.sema) passes.old.items }
        ensures passes { All (IsPassOf semaphore.now.sema) passes.new.items }
        ensures count { MatchOption result (vec_len passes.old ≡ 0) (λ _. vec_len passes.new + 1 ≡ vec_len passes.old) }
        ensures at { IfSome result (λ caller. caller.semaphore.now ≡ semaphore.now) }
    {
        let pass = passes.pop()?;
        Some(SemaCaller {
            semaphore,
            clock,
            pass,
        })
    }
}
