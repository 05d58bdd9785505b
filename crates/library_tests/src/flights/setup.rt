//! Groups of flights for the tests, and their callers.
ghost use Rattle.std.specs.Prelude.{◌≤◌, IfOk, All};
ghost use Rattle.single_flight.specs.Flights.{IsPassOf};

use crate::made::knows;
use crate::waits::setup::HERE;
use ruled_object::MAX_CALLS;
use single_flight::{Begun, Group, GroupPass};
use std::alloc::{AllocError, Global};
use std::sync::Wait;
use sync_model::{Answer, FrontNote};

pub(super) type Passes = Vec<GroupPass<FrontNote>>;

/// A group, and the passes of its callers.
pub(super) fn new(alloc: Global, callers: u32) -> Result<(Group<FrontNote>, Passes), AllocError>
    requires { (1 ≤ callers) × (callers ≤ 64) }
    ensures { IfOk result (λ made. All (IsPassOf made.0) made.1.items) }
{
    let (group, passes) = Group::new(alloc, callers, MAX_CALLS, knows(0))?;
    Ok((group, passes))
}

/// What a call came to: a value, and whether callers share it.
pub(super) type Flown = Option<Answer<(i64, bool)>>;

/// A caller of a group, with its pass and its note.
#[derive(Drop)]
pub(super) struct Flyer<'a> {
    group: &'a Group<FrontNote>,
    pass: GroupPass<FrontNote>,
    note: FrontNote,
    ghost is: { IsPassOf group.now pass },
}

impl<'a> Flyer<'a> {
    /// The caller of the last of these passes, with this note.
    pub(super) fn last(
        group: &'a Group<FrontNote>,
        passes: &mut Passes,
        note: FrontNote,
    ) -> Option<Self>
        requires { All (IsPassOf group.now) passes.old.items }
        ensures { All (IsPassOf group.now) passes.new.items }
    {
        let pass = passes.pop()?;
        Some(Flyer { group, pass, note })
    }

    /// Go's `Do`, where a call is left.
    pub(super) fn fly<R: Wait, F: FnOnce() -> i64>(&mut self, rt: &R, key: u32, work: F) -> Flown
        requires { F.pre work }
    {
        if self.pass.left() == 0 {
            return None;
        }
        let (pass, note) = (&mut self.pass, &mut self.note);
        match self.group.begin(rt, &HERE, pass, note, key) {
            Answer::Done(Begun::Got(value)) => Some(Answer::Done((value, true))),
            Answer::Done(Begun::Lead(flight)) => {
                let value = work();
                match self.group.land(flight, rt, &HERE, pass, note, value) {
                    Answer::Done(shared) => Some(Answer::Done((value, shared))),
                    Answer::Halted(misuse) => Some(Answer::Halted(misuse)),
                }
            }
            Answer::Halted(misuse) => Some(Answer::Halted(misuse)),
        }
    }
}
