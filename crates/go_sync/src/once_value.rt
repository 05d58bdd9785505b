//! Go's `sync.OnceFunc` and `sync.OnceValue`: a once that keeps what its function came to, and the callers that threads come to it by.
ghost use Rattle.std.specs.Prelude.{◌≡◌, ◌+◌, ◌<◌, ◌≤◌, All, IfOk, IfSome, MatchOption, vec_len};
ghost use Rattle.go_waits.specs.Onces.{IsPassOf};

mod calls;

use go_waits::{Once, OncePass};
use ruled_object::MAX_CALLS;
use std::alloc::{AllocError, Global};
use sync_model::NoNote;
use sync_outside::Clock;

/// A once that keeps a value.
pub type OnceValue<T> = Once<T, NoNote>;

/// What such a once keeps of its threads, one for each. `once_value_callers` makes callers of them.
pub type OnceValuePasses<T> = Vec<OncePass<T, NoNote>>;

/// A once that has no value yet, for so many threads, 64 at most.
pub fn new_once_value<T: Copy>(
    alloc: Global,
    threads: u32,
) -> Result<(OnceValue<T>, OnceValuePasses<T>), AllocError>
    requires { (0 < threads) × (threads ≤ 64) }
    ensures passes { IfOk result (λ made. All (IsPassOf made.0) made.1.items) }
    ensures count { IfOk result (λ made. vec_len made.1 ≡ threads) }
{
    let (once, passes) = Once::new(alloc, threads, MAX_CALLS, NoNote::new())?;
    Ok((once, passes))
}

/// A caller for each thread.
pub fn once_value_callers<'a, T: Copy, C: Clock>(
    alloc: Global,
    once: &'a OnceValue<T>,
    clock: &'a C,
    mut passes: OnceValuePasses<T>,
) -> Result<Vec<OnceValueCaller<'a, T, C>>, AllocError>
    requires { All (IsPassOf once.now) passes.items }
    ensures count { IfOk result (λ callers. vec_len callers ≡ vec_len passes) }
    ensures each { IfOk result (λ callers. All (λ caller. caller.once.now ≡ once.now) callers.items) }
{
    let mut callers = Vec::with_capacity(alloc, passes.len())?;
    while let Some(caller) = OnceValueCaller::last(once, clock, &mut passes) {
        callers.push(caller)?;
    }
    Ok(callers)
}

/// What one thread comes to a once by that keeps a value. A pair serves for Go's `OnceValues`.
///
/// In the words of Go's memory model: the return from the function synchronizes before the return of each call on the once.
#[derive(Drop)]
pub struct OnceValueCaller<'a, T: Copy, C: Clock> {
    once: &'a OnceValue<T>,
    clock: &'a C,
    pass: OncePass<T, NoNote>,
    ghost is: { IsPassOf once.now pass },
}

/// What one thread comes to a once by whose function succeeds or fails: every call answers which. Go's `sync.OnceFunc`.
pub type OnceFuncCaller<'a, E, C> = OnceValueCaller<'a, Result<(), E>, C>;

impl<'a, T: Copy, C: Clock> OnceValueCaller<'a, T, C> {
    /// The caller of the last of these passes.
    pub fn last(
        once: &'a OnceValue<T>,
        clock: &'a C,
        passes: &mut OnceValuePasses<T>,
    ) -> Option<Self>
        requires { All (IsPassOf once.now) passes.old.items }
        ensures passes { All (IsPassOf once.now) passes.new.items }
        ensures count { MatchOption result (vec_len passes.old ≡ 0) (λ _. vec_len passes.new + 1 ≡ vec_len passes.old) }
        ensures at { IfSome result (λ caller. caller.once.now ≡ once.now) }
    {
        let pass = passes.pop()?;
        Some(OnceValueCaller { once, clock, pass })
    }
}
