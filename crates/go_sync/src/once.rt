//! Go's `sync.Once`: a once, and the callers that threads come to it by.
ghost use Rattle.std.specs.Prelude.{◌≡◌, ◌+◌, ◌<◌, ◌≤◌, All, IfOk, IfSome, MatchOption, vec_len};
ghost use Rattle.go_waits.specs.Onces.{IsPassOf};

mod calls;

use go_waits::{Once, OncePass};
use ruled_object::MAX_CALLS;
use std::alloc::{AllocError, Global};
use sync_model::NoNote;
use sync_outside::Clock;

/// What a once keeps of its threads, one for each. `once_callers` makes callers of them.
pub type OncePasses = Vec<OncePass<(), NoNote>>;

/// A once that hasn't run, for so many threads, 64 at most.
pub fn new_once(alloc: Global, threads: u32) -> Result<(Once<(), NoNote>, OncePasses), AllocError>
    requires { (0 < threads) × (threads ≤ 64) }
    ensures passes { IfOk result (λ made. All (IsPassOf made.0) made.1.items) }
    ensures count { IfOk result (λ made. vec_len made.1 ≡ threads) }
{
    let (once, passes) = Once::new(alloc, threads, MAX_CALLS, NoNote::new())?;
    Ok((once, passes))
}

/// A caller for each thread.
pub fn once_callers<'a, C: Clock>(
    alloc: Global,
    once: &'a Once<(), NoNote>,
    clock: &'a C,
    mut passes: OncePasses,
) -> Result<Vec<OnceCaller<'a, C>>, AllocError>
    requires { All (IsPassOf once.now) passes.items }
    ensures count { IfOk result (λ callers. vec_len callers ≡ vec_len passes) }
    ensures each { IfOk result (λ callers. All (λ caller. caller.once.now ≡ once.now) callers.items) }
{
    let mut callers = Vec::with_capacity(alloc, passes.len())?;
    while let Some(caller) = OnceCaller::last(once, clock, &mut passes) {
        callers.push(caller)?;
    }
    Ok(callers)
}

/// What one thread comes to a once by.
///
/// In the words of Go's memory model: the return from the function synchronizes before the return of each call on the once.
#[derive(Drop)]
pub struct OnceCaller<'a, C: Clock> {
    once: &'a Once<(), NoNote>,
    clock: &'a C,
    pass: OncePass<(), NoNote>,
    ghost is: { IsPassOf once.now pass },
}

impl<'a, C: Clock> OnceCaller<'a, C> {
    /// The caller of the last of these passes.
    pub fn last(once: &'a Once<(), NoNote>, clock: &'a C, passes: &mut OncePasses) -> Option<Self>
        requires { All (IsPassOf once.now) passes.old.items }
        ensures passes { All (IsPassOf once.now) passes.new.items }
        ensures count { MatchOption result (vec_len passes.old ≡ 0) (λ _. vec_len passes.new + 1 ≡ vec_len passes.old) }
        ensures at { IfSome result (λ caller. caller.once.now ≡ once.now) }
    {
        let pass = passes.pop()?;
        Some(OnceCaller { once, clock, pass })
    }
}
