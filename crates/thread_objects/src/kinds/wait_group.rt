//! A wait group: how it begins, and the calls on it.
ghost use Rattle.std.specs.Prelude.{◌≡◌, ◌<◌, ◌≤◌, true, false, IfOk};
ghost use Rattle.wait_cores.specs.GroupMachine.{GroupState};
ghost use Rattle.protocols.specs.GroupStages.{group_allows};
ghost use Rattle.run_record.specs.WaitGroupKind.{group_start, wait_group_stage};
ghost use Rattle.thread_objects.specs.WaitGroupKind.{wait_group};

use crate::kind::DeclaredKind;
use crate::parts::{CallAnswer, Catalog, Worker, part, returned};
use call_loop::Eager;
use protocols::GroupStage;
use ruled_object::{Object, PassOf};
use script_calls::Operation;
use std::alloc::{AllocError, Global};
use std::sync::Wait;
use sync_model::{Caller, Shared};
use sync_outside::Clock;
use sync_types::WaitGroupCall;
use wait_cores::GroupCore;
use workload::ObjectKind;

// A wait group whose counter is this at the start.
fn new_group(alloc: Global, workers: u32, start: u32) -> Result<GroupCore, AllocError>
    requires workers { (0 < workers) × (workers ≤ 64) }
    requires start { start ≤ 10000 }
    ensures { IfOk result (λ core. core ≡ group_start workers start) }
{
    let mut core = GroupCore::new(alloc, workers)?;
    let _added = core.add(start as i32);
    Ok(core)
}

// The stage that a call begins with.
fn stage_of(call: WaitGroupCall) -> GroupStage
    ensures stage { result ≡ wait_group_stage call }
    ensures allowed { (start : GroupState) → group_allows start false result ≡ true }
{
    match call {
        WaitGroupCall::Add(delta) => GroupStage::Add(delta),
        WaitGroupCall::Done => GroupStage::Done,
        WaitGroupCall::Wait => GroupStage::Wait,
    }
}

impl DeclaredKind for GroupCore {
    ghost kind = { wait_group };

    fn start(alloc: Global, workers: u32, declared: ObjectKind) -> Result<GroupCore, AllocError> {
        match declared {
            ObjectKind::WaitGroup { start } => new_group(alloc, workers, start),
            _ => unreachable!(),
        }
    }

    fn call<S: Shared, C: Clock, R: Wait>(
        rt: &R,
        worker: &Worker<S::Mark, C>,
        _catalog: &Catalog<S>,
        caller: &mut Caller<S::Mark>,
        object: &Object<GroupCore, S::Mark>,
        pass: &mut PassOf<GroupCore, S::Mark>,
        declared: ObjectKind,
        operation: &Operation,
        _key: u32,
    ) -> Option<CallAnswer> {
        match (declared, operation) {
            (ObjectKind::WaitGroup { .. }, Operation::WaitGroup(call)) => {
                let answer = part(
                    rt,
                    worker,
                    object,
                    pass,
                    &mut caller.note,
                    stage_of(*call),
                    &Eager,
                );
                Some(returned(answer))
            }
            _ => unreachable!(),
        }
    }
}
