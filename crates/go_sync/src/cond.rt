//! Go's `sync.Cond`: a cond, and the callers that threads wait and signal by.
ghost use Rattle.std.specs.Prelude.{◌≡◌, ◌+◌, ◌<◌, ◌≤◌, All, IfOk, IfSome, MatchOption, vec_len};
ghost use Rattle.go_waits.specs.Conds.{IsPassOf};

mod calls;

use go_waits::{Cond, CondPass};
use ruled_object::MAX_CALLS;
use std::alloc::{AllocError, Global};
use sync_model::NoNote;
use sync_outside::Clock;

/// What a cond keeps of its threads, one for each. `cond_callers` makes callers of them.
pub type CondPasses = Vec<CondPass<NoNote>>;

/// A cond at which nobody waits, for so many threads, 64 at most.
pub fn new_cond(alloc: Global, threads: u32) -> Result<(Cond<NoNote>, CondPasses), AllocError>
    requires { (0 < threads) × (threads ≤ 64) }
    ensures passes { IfOk result (λ made. All (IsPassOf made.0) made.1.items) }
    ensures count { IfOk result (λ made. vec_len made.1 ≡ threads) }
{
    let (cond, passes) = Cond::new(alloc, threads, MAX_CALLS, NoNote::new())?;
    Ok((cond, passes))
}

/// A caller for each thread.
pub fn cond_callers<'a, C: Clock>(
    alloc: Global,
    cond: &'a Cond<NoNote>,
    clock: &'a C,
    mut passes: CondPasses,
) -> Result<Vec<CondCaller<'a, C>>, AllocError>
    requires { All (IsPassOf cond.now) passes.items }
    ensures count { IfOk result (λ callers. vec_len callers ≡ vec_len passes) }
    ensures each { IfOk result (λ callers. All (λ caller. caller.cond.now ≡ cond.now) callers.items) }
{
    let mut callers = Vec::with_capacity(alloc, passes.len())?;
    while let Some(caller) = CondCaller::last(cond, clock, &mut passes) {
        callers.push(caller)?;
    }
    Ok(callers)
}

/// What one thread waits and signals at a cond by.
///
/// In the words of Go's memory model: a `signal` or `broadcast` synchronizes before the return of any `wait` that it unblocks.
#[derive(Drop)]
pub struct CondCaller<'a, C: Clock> {
    cond: &'a Cond<NoNote>,
    clock: &'a C,
    pass: CondPass<NoNote>,
    ghost is: { IsPassOf cond.now pass },
}

impl<'a, C: Clock> CondCaller<'a, C> {
    /// The caller of the last of these passes.
    pub fn last(cond: &'a Cond<NoNote>, clock: &'a C, passes: &mut CondPasses) -> Option<Self>
        requires { All (IsPassOf cond.now) passes.old.items }
        ensures passes { All (IsPassOf cond.now) passes.new.items }
        ensures count { MatchOption result (vec_len passes.old ≡ 0) (λ _. vec_len passes.new + 1 ≡ vec_len passes.old) }
        ensures at { IfSome result (λ caller. caller.cond.now ≡ cond.now) }
    {
        let pass = passes.pop()?;
        Some(CondCaller { cond, clock, pass })
    }
}
