//! Go's `sync.WaitGroup`: a wait group, and the callers that threads use it by.
ghost use Rattle.std.specs.Prelude.{◌≡◌, ◌+◌, ◌<◌, ◌≤◌, ◌≤ℤ◌, pos, All, IfOk, IfSome, MatchOption, vec_len};
ghost use Rattle.go_waits.specs.Groups.{start_of, IsBegun, IsPassOf};

mod calls;

pub(crate) use calls::ready_for_group;
use go_waits::{GroupPass, WaitGroup};
use ruled_object::MAX_CALLS;
use std::alloc::{AllocError, Global};
use sync_model::NoNote;
use sync_outside::Clock;

/// What a wait group keeps of its threads, one for each. `group_callers` makes callers of them.
pub type GroupPasses = Vec<GroupPass<NoNote>>;

/// A group whose counter is `start`, 0 to 10,000, for so many threads, 64 at most.
pub fn new_group(
    alloc: Global,
    threads: u32,
    start: i32,
) -> Result<(WaitGroup<NoNote>, GroupPasses), AllocError>
    requires threads { (0 < threads) × (threads ≤ 64) }
    requires start { (pos 0 ≤ℤ start) × (start ≤ℤ pos 10000) }
    ensures group { IfOk result (λ made. IsBegun threads start (start_of made.0)) }
    ensures passes { IfOk result (λ made. All (IsPassOf made.0) made.1.items) }
    ensures count { IfOk result (λ made. vec_len made.1 ≡ threads) }
{
    let (group, passes) = WaitGroup::new(alloc, threads, MAX_CALLS, start, NoNote::new())?;
    Ok((group, passes))
}

/// A caller for each thread.
pub fn group_callers<'a, C: Clock>(
    alloc: Global,
    group: &'a WaitGroup<NoNote>,
    clock: &'a C,
    mut passes: GroupPasses,
) -> Result<Vec<GroupCaller<'a, C>>, AllocError>
    requires { All (IsPassOf group.now) passes.items }
    ensures count { IfOk result (λ callers. vec_len callers ≡ vec_len passes) }
    ensures each { IfOk result (λ callers. All (λ caller. caller.group.now ≡ group.now) callers.items) }
{
    let mut callers = Vec::with_capacity(alloc, passes.len())?;
    while let Some(caller) = GroupCaller::last(group, clock, &mut passes) {
        callers.push(caller)?;
    }
    Ok(callers)
}

/// What one thread uses a wait group by.
///
/// In the words of Go's memory model: a `done` synchronizes before the return of any `wait` that it unblocks.
#[derive(Drop)]
pub struct GroupCaller<'a, C: Clock> {
    pub(crate) group: &'a WaitGroup<NoNote>,
    pub(crate) clock: &'a C,
    pub(crate) pass: GroupPass<NoNote>,
    ghost is: { IsPassOf group.now pass },
}

impl<'a, C: Clock> GroupCaller<'a, C> {
    /// The caller of the last of these passes.
    pub fn last(
        group: &'a WaitGroup<NoNote>,
        clock: &'a C,
        passes: &mut GroupPasses,
    ) -> Option<Self>
        requires { All (IsPassOf group.now) passes.old.items }
        ensures passes { All (IsPassOf group.now) passes.new.items }
        ensures count { MatchOption result (vec_len passes.old ≡ 0) (λ _. vec_len passes.new + 1 ≡ vec_len passes.old) }
        ensures at { IfSome result (λ caller. caller.group.now ≡ group.now) }
    {
        let pass = passes.pop()?;
        Some(GroupCaller { group, clock, pass })
    }
}
