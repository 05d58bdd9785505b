//! Wait groups with workers that wait to be started, for the tests.
ghost use Rattle.std.specs.Prelude.{◌≡◌, ◌≤◌, IfOk, All, length};
ghost use Rattle.go_waits.specs.Groups as groups;
ghost use Rattle.go_waits.specs.Startings as startings;

use super::setup::HERE;
use crate::made::{Made, answered, done, knows, returned};
use go_waits::{GroupPass, Starts, StartsPass, WaitGroup};
use ruled_object::MAX_CALLS;
use std::alloc::{AllocError, Global};
use std::sync::Wait;
use sync_model::FrontNote;
use sync_types::Misuse;

pub(super) type Group = WaitGroup<FrontNote>;

pub(super) type MemberPass = GroupPass<FrontNote>;

pub(super) type Workers = Starts<FrontNote>;

pub(super) type WorkerPass = StartsPass<FrontNote>;

/// A group with counter 0, and the passes of its callers.
pub(super) fn group(alloc: Global, callers: u32) -> Result<(Group, Vec<MemberPass>), AllocError>
    requires { (1 ≤ callers) × (callers ≤ 64) }
    ensures { IfOk result (λ made. All (groups.IsPassOf made.0) made.1.items) }
{
    let (group, passes) = WaitGroup::new(alloc, callers, MAX_CALLS, 0, knows(0))?;
    Ok((group, passes))
}

/// Workers, of whom these wait to be started, and their passes.
pub(super) fn workers(
    alloc: Global,
    callers: u32,
    dormant: &[bool],
) -> Result<(Workers, Vec<WorkerPass>), AllocError>
    requires callers { (1 ≤ callers) × (callers ≤ 64) }
    requires dormant { length dormant.now ≡ callers }
    ensures { IfOk result (λ made. All (startings.IsPassOf made.0) made.1.items) }
{
    let (starts, passes) = Starts::new(alloc, callers, MAX_CALLS, dormant, knows(0))?;
    Ok((starts, passes))
}

/// A call of a worker.
#[derive(Clone, Copy)]
pub(super) enum Call {
    End,
    WaitStart,
    HaltStarts(Misuse),
    Go(u32),
    Done,
    Wait,
}

/// A worker that is a caller of a group, with its passes and its note.
#[derive(Drop)]
pub(super) struct Worker<'a> {
    group: &'a Group,
    starts: &'a Workers,
    member: MemberPass,
    pass: WorkerPass,
    note: FrontNote,
    ghost member_is: { groups.IsPassOf group.now member },
    ghost is: { startings.IsPassOf starts.now pass },
}

impl<'a> Worker<'a> {
    /// The worker of the last of these passes, with this note.
    pub(super) fn last(
        group: &'a Group,
        starts: &'a Workers,
        members: &mut Vec<MemberPass>,
        passes: &mut Vec<WorkerPass>,
        note: FrontNote,
    ) -> Option<Self>
        requires members { All (groups.IsPassOf group.now) members.old.items }
        requires passes { All (startings.IsPassOf starts.now) passes.old.items }
        ensures members { All (groups.IsPassOf group.now) members.new.items }
        ensures passes { All (startings.IsPassOf starts.now) passes.new.items }
    {
        let member = members.pop()?;
        let pass = passes.pop()?;
        Some(Worker {
            group,
            starts,
            member,
            pass,
            note,
        })
    }

    /// Makes a call, where one is left on both passes.
    pub(super) fn make<R: Wait>(&mut self, rt: &R, call: Call) -> Made {
        if self.member.left() == 0 || self.pass.left() == 0 {
            return Made::NoCallLeft;
        }
        let Worker {
            group,
            starts,
            member,
            pass,
            note,
            ..
        } = self;
        match call {
            Call::End => done(starts.end(rt, &HERE, pass, note)),
            Call::WaitStart => answered(starts.wait_start(rt, &HERE, pass, note)),
            Call::HaltStarts(misuse) => {
                starts.halt(rt, pass, note, misuse);
                Made::Done
            }
            Call::Go(worker) => returned(group.go(rt, &HERE, member, note, starts, pass, worker)),
            Call::Done => returned(group.done(rt, &HERE, member, note)),
            Call::Wait => returned(group.wait(rt, &HERE, member, note)),
        }
    }
}
