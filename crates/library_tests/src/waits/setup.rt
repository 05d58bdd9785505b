//! Wait groups for the tests, and their callers.
ghost use Rattle.std.specs.Prelude.{◌≤◌, ◌≤ℤ◌, pos, IfOk};
ghost use Rattle.go_waits.specs.Groups.{AreGroupPasses, IsPassOf};

use crate::made::knows;
use go_waits::{GroupPass, WaitGroup};
use std::alloc::{AllocError, Global};
use std::sync::Wait;
use std::sync::atomic::{AtomicU64, Ordering};
use std::thread;
use sync_model::{Answer, FrontNote};
use sync_outside::{At, Clock};
use sync_types::Misuse;

/// A clock that stands still.
pub(crate) struct NoClock;

impl Clock for NoClock {
    ghost shows = { λ _ _. Unit {0} };

    fn now(&self) -> u64 {
        0
    }
}

/// Where the calls of the tests are made.
pub(crate) const HERE: At<'static, FrontNote, NoClock> = At {
    home: &(),
    clock: &NoClock,
};

/// Gives the others the time to fall asleep. The tests hold however long that takes.
pub(crate) fn pause() {
    for _ in 0..5_000 {
        thread::yield_now();
    }
}

/// Goes on once so many have counted themselves.
pub(crate) fn until<R: Wait>(rt: &R, counted: &AtomicU64, count: u64) {
    for _ in rt.forever() {
        if counted.load(Ordering::SeqCst) == count {
            return;
        }
        thread::yield_now();
    }
    unreachable!()
}

/// A group, and the passes of its callers.
pub(super) fn group(
    alloc: Global,
    callers: u32,
    calls: u64,
    start: i32,
) -> Result<(WaitGroup<FrontNote>, Vec<GroupPass<FrontNote>>), AllocError>
    requires callers { (1 ≤ callers) × (callers ≤ 64) }
    requires calls { calls ≤ 1000000 }
    requires start { (pos 0 ≤ℤ start) × (start ≤ℤ pos 10000) }
    ensures { IfOk result (λ made. AreGroupPasses made.0 made.1.items) }
{
    let (group, passes) = WaitGroup::new(alloc, callers, calls, start, knows(0))?;
    Ok((group, passes))
}

/// A caller of a group, with its pass and its note.
#[derive(Drop)]
pub(super) struct Member<'a> {
    group: &'a WaitGroup<FrontNote>,
    pass: GroupPass<FrontNote>,
    note: FrontNote,
    ghost is: { IsPassOf group.now pass },
}

impl<'a> Member<'a> {
    /// The caller of the last of these passes, with this note.
    pub(super) fn last(
        group: &'a WaitGroup<FrontNote>,
        passes: &mut Vec<GroupPass<FrontNote>>,
        note: FrontNote,
    ) -> Option<Self>
        requires { AreGroupPasses group.now passes.old.items }
        ensures { AreGroupPasses group.now passes.new.items }
    {
        let pass = passes.pop()?;
        Some(Member { group, pass, note })
    }

    /// An add, where a call is left.
    pub(super) fn add<R: Wait>(
        &mut self,
        rt: &R,
        delta: i32,
    ) -> Option<Answer<Result<(), Misuse>>> {
        if self.pass.left() == 0 {
            return None;
        }
        Some(
            self.group
                .add(rt, &HERE, &mut self.pass, &mut self.note, delta),
        )
    }

    /// A `done`, where a call is left.
    pub(super) fn done<R: Wait>(&mut self, rt: &R) -> Option<Answer<Result<(), Misuse>>> {
        if self.pass.left() == 0 {
            return None;
        }
        Some(self.group.done(rt, &HERE, &mut self.pass, &mut self.note))
    }

    /// A wait, where a call is left.
    pub(super) fn wait<R: Wait>(&mut self, rt: &R) -> Option<Answer<Result<(), Misuse>>> {
        if self.pass.left() == 0 {
            return None;
        }
        Some(self.group.wait(rt, &HERE, &mut self.pass, &mut self.note))
    }
}
