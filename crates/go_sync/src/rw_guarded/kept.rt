//! A value that a reader/writer lock guards, where none but the lock's holders get at it.
ghost use Rattle.go_locks.specs.RwCalls.{ReadLocks, WriteLocks};
ghost use Rattle.go_sync.specs.RwCallers.{HasLocked};

use crate::rw_mutex::RwCaller;
use std::sync::{RwLock as Cell, RwLockReadGuard, RwLockWriteGuard, Wait};
use sync_outside::Clock;

/// A value beside its reader/writer lock.
#[derive(Drop)]
pub(crate) struct Kept<T: Drop> {
    cell: Cell<T>,
}

impl<T: Drop> Kept<T> {
    /// This value.
    pub(crate) fn new(value: T) -> Self {
        Kept {
            cell: Cell::new(value),
        }
    }

    /// The value, once nobody shares it.
    pub(crate) fn into_inner(self) -> T {
        self.cell.into_inner()
    }

    /// The value to look at, for a caller that has just locked the lock for reading. It can't unlock while this lasts.
    #[inline(always)]
    pub(crate) fn hold_to_read<'a, C: Clock, R: Wait>(
        &'a self,
        rt: &R,
        holder: &'a RwCaller<C>,
    ) -> RwLockReadGuard<'a, T>
        requires { HasLocked ReadLocks C.shows holder.now }
    {
        self.cell.read(rt)
    }

    /// The value to change, for a caller that has just locked the lock for writing. It can't unlock while this lasts.
    #[inline(always)]
    pub(crate) fn hold_to_write<'a, C: Clock, R: Wait>(
        &'a self,
        rt: &R,
        holder: &'a RwCaller<C>,
    ) -> RwLockWriteGuard<'a, T>
        requires { HasLocked WriteLocks C.shows holder.now }
    {
        self.cell.write(rt)
    }
}
