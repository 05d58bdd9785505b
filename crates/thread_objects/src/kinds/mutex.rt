//! A mutex: how it begins, and the calls on it.
ghost use Rattle.std.specs.Prelude.{◌≡◌, true, false};
ghost use Rattle.mutex_core.specs.MutexMachine.{State};
ghost use Rattle.protocols.specs.MutexStages.{mutex_allows};
ghost use Rattle.run_record.specs.MutexKind.{mutex_stage};
ghost use Rattle.thread_objects.specs.MutexKind.{mutex};

use crate::kind::DeclaredKind;
use crate::parts::{CallAnswer, Catalog, Worker, lock_reply, part};
use call_loop::Lazy;
use mutex_core::MutexCore;
use protocols::MutexStage;
use ruled_object::{Object, PassOf};
use script_calls::Operation;
use std::alloc::{AllocError, Global};
use std::sync::Wait;
use sync_model::{Caller, Shared};
use sync_outside::Clock;
use sync_types::MutexCall;
use workload::ObjectKind;

// The stage that a call begins with.
fn stage_of(call: MutexCall) -> MutexStage
    ensures stage { result ≡ mutex_stage call }
    ensures allowed { (start : State) → mutex_allows start false result ≡ true }
{
    match call {
        MutexCall::Lock => MutexStage::Lock,
        MutexCall::Unlock => MutexStage::Unlock,
        MutexCall::TryLock => MutexStage::TryLock,
    }
}

impl DeclaredKind for MutexCore {
    ghost kind = { mutex };

    fn start(alloc: Global, workers: u32, declared: ObjectKind) -> Result<MutexCore, AllocError> {
        match declared {
            ObjectKind::Mutex => MutexCore::new(alloc, workers),
            _ => unreachable!(),
        }
    }

    fn call<S: Shared, C: Clock, R: Wait>(
        rt: &R,
        worker: &Worker<S::Mark, C>,
        _catalog: &Catalog<S>,
        caller: &mut Caller<S::Mark>,
        object: &Object<MutexCore, S::Mark>,
        pass: &mut PassOf<MutexCore, S::Mark>,
        declared: ObjectKind,
        operation: &Operation,
        _key: u32,
    ) -> Option<CallAnswer> {
        match (declared, operation) {
            (ObjectKind::Mutex, Operation::Mutex(call)) => {
                let answer = part(
                    rt,
                    worker,
                    object,
                    pass,
                    &mut caller.note,
                    stage_of(*call),
                    &Lazy,
                );
                Some(lock_reply(answer))
            }
            _ => unreachable!(),
        }
    }
}
