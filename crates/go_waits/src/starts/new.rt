//! New workers that wait to be started.
ghost use Rattle.std.specs.Prelude.{◌≡◌, ◌≤◌, length, IfOk};
ghost use Rattle.starts_core.specs.StartsMachine.{begun};
ghost use Rattle.go_waits.specs.Startings.{callers_of, start_of, AreNew, IsHomeOf};

use super::{Starts, StartsPass};
use ruled_object::{MAX_CALLS, Object};
use starts_core::StartsCore;
use std::alloc::{AllocError, Global};
use sync_model::{MAX_CALLERS, Note};

impl<N: Note> Starts<N> {
    /// Workers 0 to `callers - 1`, of which those wait to be started for whom `dormant` says so, and all others are live; and
    /// their passes, each good for `calls` calls. It keeps `note` for what starts and ends leave. No other call takes memory.
    pub fn new(
        alloc: Global,
        callers: u32,
        calls: u64,
        dormant: &[bool],
        note: N,
    ) -> Result<(Self, Vec<StartsPass<N>>), AllocError>
        requires callers { (1 ≤ callers) × (callers ≤ MAX_CALLERS) }
        requires calls { calls ≤ MAX_CALLS }
        requires dormant { length dormant.now ≡ callers }
        ensures starts { IfOk result (λ made. (callers_of made.0 ≡ callers) × (start_of made.0 ≡ begun dormant.now) × ((home : N.Home) → N.at home note → IsHomeOf N.at made.0 home)) }
        ensures passes { IfOk result (λ made. AreNew made.0 calls made.1.items) }
    {
        let core = StartsCore::new(alloc, dormant)?;
        let (object, passes) = Object::new(alloc, callers, calls, core, note)?;
        Ok((Starts { object }, passes))
    }
}
