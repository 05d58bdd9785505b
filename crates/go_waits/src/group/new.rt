//! A new wait group.
ghost use Rattle.std.specs.Prelude.{◌≡◌, ◌≤◌, ◌≤ℤ◌, pos, IfOk};
ghost use Rattle.go_waits.specs.Groups.{IsBegun, callers_of, start_of, AreNew, IsHomeOf};

use super::{GroupPass, WaitGroup};
use ruled_object::MAX_CALLS;
use std::alloc::{AllocError, Global};
use sync_model::{MAX_CALLERS, Note};
use wait_cores::GroupCore;

/// The highest counter that a group may start with.
pub const MAX_START: i32 = 10_000;

impl<N: Note> WaitGroup<N> {
    /// A group whose counter is `start`, for callers 0 to `callers - 1`, and their passes, each good for `calls` calls. It
    /// keeps `note` for what is done leaves. No other call takes memory.
    pub fn new(
        alloc: Global,
        callers: u32,
        calls: u64,
        start: i32,
        note: N,
    ) -> Result<(Self, Vec<GroupPass<N>>), AllocError>
        requires callers { (1 ≤ callers) × (callers ≤ MAX_CALLERS) }
        requires calls { calls ≤ MAX_CALLS }
        requires start { (pos 0 ≤ℤ start) × (start ≤ℤ MAX_START) }
        ensures group { IfOk result (λ made. (callers_of made.0 ≡ callers) × IsBegun callers start (start_of made.0) × ((home : N.Home) → N.at home note → IsHomeOf N.at made.0 home)) }
        ensures passes { IfOk result (λ made. AreNew made.0 calls made.1.items) }
    {
        let mut core = GroupCore::new(alloc, callers)?;
        let _started = core.add(start);
        let (object, passes) = call_loop::new(alloc, callers, calls, core, note)?;
        Ok((WaitGroup { object }, passes))
    }
}
