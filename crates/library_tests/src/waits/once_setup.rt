//! Onces for the tests, and their callers.
ghost use Rattle.std.specs.Prelude.{◌≡◌, ◌<◌, ◌≤◌, ◌+◌, IfOk, All, vec_len};
ghost use Rattle.library_tests.specs.Fresh.{IsFresh, AreFresh};
ghost use Rattle.go_waits.specs.OnceValues.{once_of, function_of};
ghost use Rattle.go_waits.specs.Onces.{IsPassOf};

use super::setup::HERE;
use crate::made::knows;
use go_waits::{Once, OncePass, OnceRun, OnceValue};
use ruled_object::MAX_CALLS;
use std::alloc::{AllocError, Global};
use std::sync::Wait;
use sync_model::{Answer, FrontNote};

pub(super) type Shared = Once<(), FrontNote>;

pub(super) type SharedPass = OncePass<(), FrontNote>;

/// A once, and the passes of its callers.
pub(super) fn once(alloc: Global, callers: u32) -> Result<(Shared, Vec<SharedPass>), AllocError>
    requires { (1 ≤ callers) × (callers ≤ 64) }
    ensures { IfOk result (λ made. All (IsPassOf made.0) made.1.items) }
{
    let (once, passes) = Once::new(alloc, callers, MAX_CALLS, knows(0))?;
    Ok((once, passes))
}

/// A caller of a once, with its pass and its note.
#[derive(Drop)]
pub(super) struct Runner<'a> {
    once: &'a Shared,
    pass: SharedPass,
    note: FrontNote,
    ghost is: { IsPassOf once.now pass },
}

impl<'a> Runner<'a> {
    /// The caller of the last of these passes, with this note.
    pub(super) fn last(
        once: &'a Shared,
        passes: &mut Vec<SharedPass>,
        note: FrontNote,
    ) -> Option<Self>
        requires { All (IsPassOf once.now) passes.old.items }
        ensures { All (IsPassOf once.now) passes.new.items }
    {
        let pass = passes.pop()?;
        Some(Runner { once, pass, note })
    }

    /// Comes with a function, where a call is left.
    pub(super) fn run<R: Wait, F: FnOnce() -> Result<(), u32>>(
        &mut self,
        rt: &R,
        function: F,
    ) -> Option<Answer<OnceRun<u32>>>
        requires { F.pre function }
    {
        if self.pass.left() == 0 {
            return None;
        }
        Some(
            self.once
                .do_once(rt, &HERE, &mut self.pass, &mut self.note, function),
        )
    }
}

/// A function that is called once.
pub(super) fn stored<T: Copy, F: FnOnce() -> T + Drop>(
    alloc: Global,
    callers: u32,
    function: F,
) -> Result<(OnceValue<T, F, FrontNote>, Vec<OncePass<T, FrontNote>>), AllocError>
    requires { (1 ≤ callers) × (callers ≤ 64) }
    ensures function { IfOk result (λ made. function_of made.0 ≡ function) }
    ensures passes { IfOk result (λ made. AreFresh (once_of made.0) made.1.items × (vec_len made.1 ≡ callers)) }
{
    let (value, passes) = OnceValue::new(alloc, callers, MAX_CALLS, function, knows(0))?;
    Ok((value, passes))
}

/// The pass of a stored function's last caller.
pub(super) fn last_stored<T: Copy, F>(
    _function: &OnceValue<T, F, FrontNote>,
    passes: &mut Vec<OncePass<T, FrontNote>>,
) -> OncePass<T, FrontNote>
    requires { AreFresh (once_of _function.now) passes.old.items × (0 < vec_len passes.old) }
    ensures pass { IsFresh (once_of _function.now) result }
    ensures rest { AreFresh (once_of _function.now) passes.new.items × (vec_len passes.new + 1 ≡ vec_len passes.old) }
{
    passes.pop().unwrap()
}
