//! Callers of a mutex for the tests.
ghost use Rattle.std.specs.Prelude.{◌<◌, ◌≤◌, IfOk, All};
ghost use Rattle.go_locks.specs.Mutexes.{IsPassOfMutex};

use crate::made::{Made, answered, done, knows, returned};
use go_locks::{Mutex, MutexPass};
use ruled_object::MAX_CALLS;
use std::alloc::{AllocError, Global};
use std::sync::Wait;
use sync_model::FrontNote;
use sync_outside::{At, Clock};
use sync_types::Misuse;

pub(super) type Passes = Vec<MutexPass<FrontNote>>;

/// A lock, and the passes of its callers.
pub(super) fn new(alloc: Global, callers: u32) -> Result<(Mutex<FrontNote>, Passes), AllocError>
    requires { (0 < callers) × (callers ≤ 64) }
    ensures { IfOk result (λ made. All (IsPassOfMutex made.0) made.1.items) }
{
    let (lock, passes) = Mutex::new(alloc, callers, MAX_CALLS, knows(0))?;
    Ok((lock, passes))
}

/// A call of a caller.
#[derive(Clone, Copy)]
pub(super) enum Call {
    Lock,
    TryLock,
    Unlock,
    Halt(Misuse),
}

/// A caller of a lock, with its pass and its note.
#[derive(Drop)]
pub(super) struct Member<'a> {
    lock: &'a Mutex<FrontNote>,
    pass: MutexPass<FrontNote>,
    note: FrontNote,
    ghost is: { IsPassOfMutex lock.now pass },
}

impl<'a> Member<'a> {
    /// The caller of the last of these passes, with this note.
    pub(super) fn last(
        lock: &'a Mutex<FrontNote>,
        passes: &mut Passes,
        note: FrontNote,
    ) -> Option<Self>
        requires { All (IsPassOfMutex lock.now) passes.old.items }
        ensures { All (IsPassOfMutex lock.now) passes.new.items }
    {
        let pass = passes.pop()?;
        Some(Member { lock, pass, note })
    }

    /// Makes a call, where one is left.
    pub(super) fn make<C: Clock, R: Wait>(&mut self, rt: &R, clock: &C, call: Call) -> Made {
        if self.pass.left() == 0 {
            return Made::NoCallLeft;
        }
        let at: At<FrontNote, C> = At { home: &(), clock };
        let (pass, note) = (&mut self.pass, &mut self.note);
        match call {
            Call::Lock => done(self.lock.lock(rt, &at, pass, note)),
            Call::TryLock => answered(self.lock.try_lock(rt, &at, pass, note)),
            Call::Unlock => returned(self.lock.unlock(rt, &at, pass, note)),
            Call::Halt(misuse) => {
                self.lock.halt(rt, pass, note, misuse);
                Made::Done
            }
        }
    }

    /// How many calls of caller 0 are known.
    pub(super) fn known(&self) -> u32 {
        self.note.count(0)
    }

    /// How often the turn was taken for this caller.
    pub(super) fn turns(&self) -> u64 {
        self.pass.turns()
    }

    /// What the lock's word says just now.
    pub(super) fn word(&mut self) -> u64 {
        self.lock.word(&mut self.pass)
    }
}
