//! A value that a mutex guards, where none but the mutex's holder gets at it.
ghost use Rattle.go_sync.specs.GuardedCallers.{HasLocked};

use crate::mutex::MutexCaller;
use std::sync::{Mutex as Cell, MutexGuard, Wait};
use sync_outside::Clock;

/// A value beside its mutex.
#[derive(Drop)]
pub(crate) struct Kept<T: Drop> {
    cell: Cell<T>,
}

impl<T: Drop> Kept<T> {
    /// This value.
    pub(crate) fn new(value: T) -> Self {
        Kept {
            cell: Cell::new(value),
        }
    }

    /// The value, once nobody shares it.
    pub(crate) fn into_inner(self) -> T {
        self.cell.into_inner()
    }

    /// The value, for a caller that has just locked the mutex. It can't unlock while this lasts.
    #[inline(always)]
    pub(crate) fn hold<'a, C: Clock, R: Wait>(
        &'a self,
        rt: &R,
        holder: &'a MutexCaller<C>,
    ) -> MutexGuard<'a, T>
        requires { HasLocked C.shows holder.now }
    {
        self.cell.lock(rt)
    }
}
