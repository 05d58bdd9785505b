//! Go's `WaitGroup.Go`: a wait group whose workers wait to be started, and the callers that threads use it by.
ghost use Rattle.std.specs.Prelude.{◌≡◌, ◌+◌, ◌<◌, ◌≤◌, ◌-◌, true, false, pos, ◌∷◌, replicate, All, IfOk, IfSome, MatchOption, vec_len};
ghost use Rattle.starts_core.specs.StartsMachine.{begun};
ghost use Rattle.go_waits.specs.Groups.{start_of, IsBegun, IsPassOf};
ghost use Rattle.go_waits.specs.Startings as startings;
ghost use Rattle.ruled_object.specs.Passes.{number_of};

mod calls;
mod run;

use crate::group::{GroupCaller, GroupPasses, new_group};
use go_waits::{Starts, StartsPass, WaitGroup};
use ruled_object::MAX_CALLS;
use std::alloc::{AllocError, Global};
use sync_model::NoNote;
use sync_outside::Clock;

/// A wait group with its workers, one for each thread. Worker 0 is live from the beginning, as Go's main goroutine; each other one
/// waits to be started.
#[derive(Drop)]
pub struct GoGroup {
    group: WaitGroup<NoNote>,
    starts: Starts<NoNote>,
}

/// What such a group keeps of its threads. `GoGroup::callers` makes callers of them.
#[derive(Drop)]
pub struct GoPasses {
    members: GroupPasses,
    workers: Vec<StartsPass<NoNote>>,
}

impl GoGroup {
    /// A group whose counter is 0, for so many threads, 64 at most, with their passes.
    pub fn new(alloc: Global, threads: u32) -> Result<(Self, GoPasses), AllocError>
        requires { (0 < threads) × (threads ≤ 64) }
        ensures group { IfOk result (λ made. IsBegun threads (pos 0) (start_of made.0.group)) }
        ensures starts { IfOk result (λ made. startings.start_of made.0.starts ≡ begun (false ∷ replicate (threads - 1) true)) }
        ensures members { IfOk result (λ made. All (IsPassOf made.0.group) made.1.members.items) }
        ensures workers { IfOk result (λ made. All (startings.IsPassOf made.0.starts) made.1.workers.items) }
        ensures count { IfOk result (λ made. (vec_len made.1.members ≡ threads) × (vec_len made.1.workers ≡ threads)) }
    {
        let mut dormant = Vec::from_elem(alloc, true, threads as usize)?;
        dormant[0] = false;
        let (group, members) = new_group(alloc, threads, 0)?;
        let (starts, workers) = Starts::new(alloc, threads, MAX_CALLS, &dormant, NoNote::new())?;
        Ok((GoGroup { group, starts }, GoPasses { members, workers }))
    }

    /// A caller for each thread. The last one of the list is worker 0, so `pop` gives them in order of number.
    pub fn callers<'a, C: Clock>(
        &'a self,
        alloc: Global,
        clock: &'a C,
        mut passes: GoPasses,
    ) -> Result<Vec<GoCaller<'a, C>>, AllocError>
        requires members { All (IsPassOf self.now.group) passes.members.items }
        requires workers { All (startings.IsPassOf self.now.starts) passes.workers.items }
        requires count { vec_len passes.members ≡ vec_len passes.workers }
        ensures count { IfOk result (λ callers. vec_len callers ≡ vec_len passes.members) }
        ensures each { IfOk result (λ callers. All (λ caller. (caller.member.group.now ≡ self.now.group) × (caller.starts.now ≡ self.now.starts)) callers.items) }
    {
        let mut callers = Vec::with_capacity(alloc, passes.members.len())?;
        while let Some(caller) = GoCaller::last(self, clock, &mut passes) {
            callers.push(caller)?;
        }
        Ok(callers)
    }
}

/// What one worker uses such a group by.
///
/// In the words of Go's memory model: the `go` statement that starts a new goroutine is synchronized before the start of the
/// goroutine's execution. And the return of a function synchronizes before the return of any `wait` that it unblocks.
#[derive(Drop)]
pub struct GoCaller<'a, C: Clock> {
    member: GroupCaller<'a, C>,
    starts: &'a Starts<NoNote>,
    pass: StartsPass<NoNote>,
    ghost is: { startings.IsPassOf starts.now pass },
}

impl<'a, C: Clock> GoCaller<'a, C> {
    // The caller of the last of these passes.
    fn last(group: &'a GoGroup, clock: &'a C, passes: &mut GoPasses) -> Option<Self>
        requires members { All (IsPassOf group.now.group) passes.old.members.items }
        requires workers { All (startings.IsPassOf group.now.starts) passes.old.workers.items }
        requires count { vec_len passes.old.members ≡ vec_len passes.old.workers }
        ensures members { All (IsPassOf group.now.group) passes.new.members.items }
        ensures workers { All (startings.IsPassOf group.now.starts) passes.new.workers.items }
        ensures count { vec_len passes.new.members ≡ vec_len passes.new.workers }
        ensures less { MatchOption result (vec_len passes.old.members ≡ 0) (λ _. vec_len passes.new.members + 1 ≡ vec_len passes.old.members) }
        ensures at { IfSome result (λ caller. (caller.member.group.now ≡ group.now.group) × (caller.starts.now ≡ group.now.starts)) }
    {
        let pass = passes.workers.pop()?;
        let member = GroupCaller::last(&group.group, clock, &mut passes.members)?;
        Some(GoCaller {
            member,
            starts: &group.starts,
            pass,
        })
    }

    /// The number of its worker.
    pub fn number(&self) -> u32
        ensures { result ≡ number_of self.now.pass }
    {
        self.pass.number()
    }
}
