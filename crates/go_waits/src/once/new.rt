//! A new once.
ghost use Rattle.std.specs.Prelude.{◌≡◌, ◌≤◌, IfOk};
ghost use Rattle.wait_cores.specs.OnceMachine.{start};
ghost use Rattle.go_waits.specs.Onces.{callers_of, start_of, AreNew, IsHomeOf};

use super::{Once, OncePass};
use ruled_object::MAX_CALLS;
use std::alloc::{AllocError, Global};
use sync_model::{MAX_CALLERS, Note};
use wait_cores::OnceCore;

impl<T: Copy, N: Note> Once<T, N> {
    /// A once that hasn't run, for callers 0 to `callers - 1`, and their passes, each good for `calls` calls. It keeps `note`
    /// for what the function's end leaves. No other call takes memory.
    pub fn new(
        alloc: Global,
        callers: u32,
        calls: u64,
        note: N,
    ) -> Result<(Self, Vec<OncePass<T, N>>), AllocError>
        requires callers { (1 ≤ callers) × (callers ≤ MAX_CALLERS) }
        requires calls { calls ≤ MAX_CALLS }
        ensures once { IfOk result (λ made. (callers_of made.0 ≡ callers) × (start_of made.0 ≡ start callers) × ((home : N.Home) → N.at home note → IsHomeOf N.at made.0 home)) }
        ensures passes { IfOk result (λ made. AreNew made.0 calls made.1.items) }
    {
        let core = OnceCore::new(alloc, callers)?;
        let (object, passes) = call_loop::new(alloc, callers, calls, core, note)?;
        Ok((Once { object }, passes))
    }
}
