//! Semaphores for the tests, and their callers.
ghost use Rattle.std.specs.Prelude.{◌≡◌, ◌≤◌, IfOk, All};
ghost use Rattle.weighted_sema.specs.Semas.{size_of, IsPassOf};

use crate::made::{Made, answered, done, knows, returned};
use crate::waits::setup::HERE;
use ruled_object::MAX_CALLS;
use std::alloc::{AllocError, Global};
use std::sync::Wait;
use sync_model::FrontNote;
use weighted_sema::{Sema, SemaPass};

pub(super) type Passes = Vec<SemaPass<FrontNote>>;

/// A semaphore, and the passes of its callers.
pub(super) fn new(
    alloc: Global,
    callers: u32,
    size: u64,
) -> Result<(Sema<FrontNote>, Passes), AllocError>
    requires callers { (1 ≤ callers) × (callers ≤ 64) }
    requires size { (1 ≤ size) × (size ≤ 1000000) }
    ensures size { IfOk result (λ made. size_of made.0 ≡ size) }
    ensures passes { IfOk result (λ made. All (IsPassOf made.0) made.1.items) }
{
    let (sema, passes) = Sema::new(alloc, callers, size, MAX_CALLS, knows(0))?;
    Ok((sema, passes))
}

/// A call of a caller.
#[derive(Clone, Copy)]
pub(super) enum Call {
    Acquire(u64),
    Try(u64),
    Release(u64),
}

/// A caller of a semaphore, with its pass and its note.
#[derive(Drop)]
pub(super) struct Member<'a> {
    sema: &'a Sema<FrontNote>,
    size: u64,
    pass: SemaPass<FrontNote>,
    note: FrontNote,
    ghost sized: { size_of sema.now ≡ size },
    ghost is: { IsPassOf sema.now pass },
}

impl<'a> Member<'a> {
    /// The caller of the last of these passes to a semaphore of this size, with this note.
    pub(super) fn last(
        sema: &'a Sema<FrontNote>,
        size: u64,
        passes: &mut Passes,
        note: FrontNote,
    ) -> Option<Self>
        requires size { size_of sema.now ≡ size }
        requires passes { All (IsPassOf sema.now) passes.old.items }
        ensures { All (IsPassOf sema.now) passes.new.items }
    {
        let pass = passes.pop()?;
        Some(Member {
            sema,
            size,
            pass,
            note,
        })
    }

    /// Makes a call, where one is left and its weight is one that callers may come for.
    pub(super) fn make<R: Wait>(&mut self, rt: &R, call: Call) -> Made {
        if self.pass.left() == 0 {
            return Made::NoCallLeft;
        }
        let (pass, note) = (&mut self.pass, &mut self.note);
        match call {
            Call::Acquire(weight) if 0 < weight && weight <= self.size => {
                done(self.sema.acquire(rt, &HERE, pass, note, weight))
            }
            Call::Try(weight) if 0 < weight && weight <= self.size => {
                answered(self.sema.try_acquire(rt, &HERE, pass, note, weight))
            }
            Call::Release(weight) if 0 < weight && weight <= self.size => {
                returned(self.sema.release(rt, &HERE, pass, note, weight))
            }
            Call::Acquire(_) | Call::Try(_) | Call::Release(_) => Made::NoCallLeft,
        }
    }
}
