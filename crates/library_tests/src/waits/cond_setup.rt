//! Conds and their mutexes for the tests, and their callers.
ghost use Rattle.std.specs.Prelude.{◌≤◌, IfOk, All};
ghost use Rattle.go_locks.specs.Mutexes.{IsPassOfMutex};
ghost use Rattle.go_waits.specs.Conds.{IsPassOf};

use super::setup::HERE;
use crate::made::{Made, done, knows, returned};
use go_locks::{Mutex, MutexPass};
use go_waits::{Cond, CondPass};
use ruled_object::MAX_CALLS;
use std::alloc::{AllocError, Global};
use std::sync::Wait;
use sync_model::FrontNote;

pub(super) type Locked = Mutex<FrontNote>;

pub(super) type LockPass = MutexPass<FrontNote>;

pub(super) type Notified = Cond<FrontNote>;

pub(super) type NotifiedPass = CondPass<FrontNote>;

/// A mutex, and the passes of its callers.
pub(super) fn mutex(alloc: Global, callers: u32) -> Result<(Locked, Vec<LockPass>), AllocError>
    requires { (1 ≤ callers) × (callers ≤ 64) }
    ensures { IfOk result (λ made. All (IsPassOfMutex made.0) made.1.items) }
{
    let (mutex, passes) = Mutex::new(alloc, callers, MAX_CALLS, knows(0))?;
    Ok((mutex, passes))
}

/// A cond, and the passes of its callers.
pub(super) fn cond(alloc: Global, callers: u32) -> Result<(Notified, Vec<NotifiedPass>), AllocError>
    requires { (1 ≤ callers) × (callers ≤ 64) }
    ensures { IfOk result (λ made. All (IsPassOf made.0) made.1.items) }
{
    let (cond, passes) = Cond::new(alloc, callers, MAX_CALLS, knows(0))?;
    Ok((cond, passes))
}

/// A call of a caller on its cond or its mutex.
#[derive(Clone, Copy)]
pub(super) enum Call {
    Lock,
    Unlock,
    Wait,
    Signal,
    Broadcast,
}

/// A caller of a cond and its mutex, with its passes and its note.
#[derive(Drop)]
pub(super) struct Waiter<'a> {
    mutex: &'a Locked,
    cond: &'a Notified,
    lock: LockPass,
    pass: NotifiedPass,
    note: FrontNote,
    ghost locks: { IsPassOfMutex mutex.now lock },
    ghost is: { IsPassOf cond.now pass },
}

impl<'a> Waiter<'a> {
    /// The caller of the last of these passes, with this note.
    pub(super) fn last(
        mutex: &'a Locked,
        cond: &'a Notified,
        locks: &mut Vec<LockPass>,
        passes: &mut Vec<NotifiedPass>,
        note: FrontNote,
    ) -> Option<Self>
        requires locks { All (IsPassOfMutex mutex.now) locks.old.items }
        requires passes { All (IsPassOf cond.now) passes.old.items }
        ensures locks { All (IsPassOfMutex mutex.now) locks.new.items }
        ensures passes { All (IsPassOf cond.now) passes.new.items }
    {
        let lock = locks.pop()?;
        let pass = passes.pop()?;
        Some(Waiter {
            mutex,
            cond,
            lock,
            pass,
            note,
        })
    }

    /// Makes a call, where one is left on both.
    pub(super) fn make<R: Wait>(&mut self, rt: &R, call: Call) -> Made {
        if self.lock.left() == 0 || self.pass.left() == 0 {
            return Made::NoCallLeft;
        }
        let Waiter {
            mutex,
            cond,
            lock,
            pass,
            note,
            ..
        } = self;
        match call {
            Call::Lock => done(mutex.lock(rt, &HERE, lock, note)),
            Call::Unlock => returned(mutex.unlock(rt, &HERE, lock, note)),
            Call::Wait => returned(cond.wait(rt, &HERE, pass, note, mutex, lock)),
            Call::Signal => done(cond.signal(rt, &HERE, pass, note)),
            Call::Broadcast => done(cond.broadcast(rt, &HERE, pass, note)),
        }
    }
}
