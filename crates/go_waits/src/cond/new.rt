//! A new cond.
ghost use Rattle.std.specs.Prelude.{◌≡◌, ◌≤◌, IfOk};
ghost use Rattle.wait_cores.specs.NotifyMachine.{start};
ghost use Rattle.go_waits.specs.Conds.{callers_of, start_of, AreNew, IsHomeOf};

use super::{Cond, CondPass};
use ruled_object::{MAX_CALLS, Object};
use std::alloc::{AllocError, Global};
use sync_model::{MAX_CALLERS, Note};
use wait_cores::NotifyCore;

impl<N: Note> Cond<N> {
    /// A cond at which nobody waits, for callers 0 to `callers - 1`, and their passes, each good for `calls` calls. It keeps
    /// `note` for what notifications leave. No other call takes memory.
    pub fn new(
        alloc: Global,
        callers: u32,
        calls: u64,
        note: N,
    ) -> Result<(Self, Vec<CondPass<N>>), AllocError>
        requires callers { (1 ≤ callers) × (callers ≤ MAX_CALLERS) }
        requires calls { calls ≤ MAX_CALLS }
        ensures cond { IfOk result (λ made. (callers_of made.0 ≡ callers) × (start_of made.0 ≡ start callers) × ((home : N.Home) → N.at home note → IsHomeOf N.at made.0 home)) }
        ensures passes { IfOk result (λ made. AreNew made.0 calls made.1.items) }
    {
        let core = NotifyCore::new(alloc, callers)?;
        let (object, passes) = Object::new(alloc, callers, calls, core, note)?;
        Ok((Cond { object }, passes))
    }
}
