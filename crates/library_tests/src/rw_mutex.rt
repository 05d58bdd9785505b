//! Callers of a reader/writer lock for the tests.
ghost use Rattle.std.specs.Prelude.{◌<◌, ◌≤◌, IfOk, All};
ghost use Rattle.go_locks.specs.RwMutexes.{IsPassOfRwMutex};

use crate::made::{Made, answered, done, knows, returned};
use go_locks::{RwMutex, RwPass};
use ruled_object::MAX_CALLS;
use std::alloc::{AllocError, Global};
use std::sync::Wait;
use sync_model::FrontNote;
use sync_outside::{At, Clock};
use sync_types::Misuse;

pub(super) type Passes = Vec<RwPass<FrontNote>>;

/// A lock, and the passes of its callers.
pub(super) fn new(alloc: Global, callers: u32) -> Result<(RwMutex<FrontNote>, Passes), AllocError>
    requires { (0 < callers) × (callers ≤ 64) }
    ensures { IfOk result (λ made. All (IsPassOfRwMutex made.0) made.1.items) }
{
    let (lock, passes) = RwMutex::new(alloc, callers, MAX_CALLS, knows(0))?;
    Ok((lock, passes))
}

/// A call of a caller.
#[derive(Clone, Copy)]
pub(super) enum Call {
    Lock,
    TryLock,
    Unlock,
    RLock,
    TryRLock,
    RUnlock,
    Halt(Misuse),
}

/// A caller of a lock, with its pass and its note.
#[derive(Drop)]
pub(super) struct Member<'a> {
    lock: &'a RwMutex<FrontNote>,
    pass: RwPass<FrontNote>,
    note: FrontNote,
    ghost is: { IsPassOfRwMutex lock.now pass },
}

impl<'a> Member<'a> {
    /// The caller of the last of these passes, with this note.
    pub(super) fn last(
        lock: &'a RwMutex<FrontNote>,
        passes: &mut Passes,
        note: FrontNote,
    ) -> Option<Self>
        requires { All (IsPassOfRwMutex lock.now) passes.old.items }
        ensures { All (IsPassOfRwMutex lock.now) passes.new.items }
    {
        let pass = passes.pop()?;
        Some(Member { lock, pass, note })
    }

    /// Makes a call, where one is left.
    pub(super) fn make<C: Clock, R: Wait>(&mut self, rt: &R, clock: &C, call: Call) -> Made {
        if self.pass.left() == 0 {
            return Made::NoCallLeft;
        }
        let at: At<FrontNote, C> = At { home: &(), clock };
        let (pass, note) = (&mut self.pass, &mut self.note);
        match call {
            Call::Lock => done(self.lock.lock(rt, &at, pass, note)),
            Call::TryLock => answered(self.lock.try_lock(rt, &at, pass, note)),
            Call::Unlock => returned(self.lock.unlock(rt, &at, pass, note)),
            Call::RLock => done(self.lock.r_lock(rt, &at, pass, note)),
            Call::TryRLock => answered(self.lock.try_r_lock(rt, &at, pass, note)),
            Call::RUnlock => returned(self.lock.r_unlock(rt, &at, pass, note)),
            Call::Halt(misuse) => {
                self.lock.halt(rt, pass, note, misuse);
                Made::Done
            }
        }
    }

    /// How many calls of caller 0 are known.
    pub(super) fn known(&self) -> u32 {
        self.note.count(0)
    }
}
