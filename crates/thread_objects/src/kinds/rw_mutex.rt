//! A reader/writer mutex: how it begins, and the calls on it.
ghost use Rattle.std.specs.Prelude.{◌≡◌, true, false};
ghost use Rattle.rw_core.specs.RwMachine.{State};
ghost use Rattle.protocols.specs.RwMutexStages.{rw_allows};
ghost use Rattle.run_record.specs.RwMutexKind.{rw_mutex_stage};
ghost use Rattle.thread_objects.specs.RwMutexKind.{rw_mutex};

use crate::kind::DeclaredKind;
use crate::parts::{CallAnswer, Catalog, Worker, lock_reply, part};
use call_loop::Lazy;
use protocols::RwMutexStage;
use ruled_object::{Object, PassOf};
use rw_core::RwCore;
use script_calls::Operation;
use std::alloc::{AllocError, Global};
use std::sync::Wait;
use sync_model::{Caller, Shared};
use sync_outside::Clock;
use sync_types::RwMutexCall;
use workload::ObjectKind;

// The stage that a call begins with.
fn stage_of(call: RwMutexCall) -> RwMutexStage
    ensures stage { result ≡ rw_mutex_stage call }
    ensures allowed { (start : State) → rw_allows start false result ≡ true }
{
    match call {
        RwMutexCall::Lock => RwMutexStage::Lock,
        RwMutexCall::Unlock => RwMutexStage::Unlock,
        RwMutexCall::TryLock => RwMutexStage::TryLock,
        RwMutexCall::RLock => RwMutexStage::RLock,
        RwMutexCall::RUnlock => RwMutexStage::RUnlock,
        RwMutexCall::TryRLock => RwMutexStage::TryRLock,
    }
}

impl DeclaredKind for RwCore {
    ghost kind = { rw_mutex };

    fn start(alloc: Global, workers: u32, declared: ObjectKind) -> Result<RwCore, AllocError> {
        match declared {
            ObjectKind::RwMutex => RwCore::new(alloc, workers),
            _ => unreachable!(),
        }
    }

    fn call<S: Shared, C: Clock, R: Wait>(
        rt: &R,
        worker: &Worker<S::Mark, C>,
        _catalog: &Catalog<S>,
        caller: &mut Caller<S::Mark>,
        object: &Object<RwCore, S::Mark>,
        pass: &mut PassOf<RwCore, S::Mark>,
        declared: ObjectKind,
        operation: &Operation,
        _key: u32,
    ) -> Option<CallAnswer> {
        match (declared, operation) {
            (ObjectKind::RwMutex, Operation::RwMutex(call)) => {
                let answer = part(
                    rt,
                    worker,
                    object,
                    pass,
                    &mut caller.note,
                    stage_of(*call),
                    &Lazy,
                );
                Some(lock_reply(answer))
            }
            _ => unreachable!(),
        }
    }
}
