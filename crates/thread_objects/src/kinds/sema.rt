//! A weighted semaphore: how it begins, and the calls on it.
ghost use Rattle.std.specs.Prelude.{◌≡◌, true, false};
ghost use Rattle.sema_core.specs.SemaMachine.{SemaState};
ghost use Rattle.sema_core.specs.SemaStages.{sema_allows};
ghost use Rattle.run_record.specs.SemaKind.{sema_stage};
ghost use Rattle.thread_objects.specs.SemaKind.{sema};

use crate::kind::DeclaredKind;
use crate::parts::{CallAnswer, Catalog, Worker, lock_reply, part};
use call_loop::Eager;
use ruled_object::{Object, PassOf};
use script_calls::Operation;
use sema_core::{SemaCore, SemaStage};
use std::alloc::{AllocError, Global};
use std::sync::Wait;
use sync_model::{Caller, Shared};
use sync_outside::Clock;
use sync_types::SemaCall;
use workload::ObjectKind;

// The stage that a call begins with.
fn stage_of(call: SemaCall) -> SemaStage
    ensures stage { result ≡ sema_stage call }
    ensures allowed { (start : SemaState) → sema_allows start false result ≡ true }
{
    match call {
        SemaCall::Acquire(weight) => SemaStage::Acquire(weight),
        SemaCall::TryAcquire(weight) => SemaStage::Try(weight),
        SemaCall::Release(weight) => SemaStage::Release(weight),
    }
}

impl DeclaredKind for SemaCore {
    ghost kind = { sema };

    fn start(alloc: Global, workers: u32, declared: ObjectKind) -> Result<SemaCore, AllocError> {
        match declared {
            ObjectKind::Sema { size } => SemaCore::new(alloc, workers, size),
            _ => unreachable!(),
        }
    }

    fn call<S: Shared, C: Clock, R: Wait>(
        rt: &R,
        worker: &Worker<S::Mark, C>,
        _catalog: &Catalog<S>,
        caller: &mut Caller<S::Mark>,
        object: &Object<SemaCore, S::Mark>,
        pass: &mut PassOf<SemaCore, S::Mark>,
        declared: ObjectKind,
        operation: &Operation,
        _key: u32,
    ) -> Option<CallAnswer> {
        match (declared, operation) {
            (ObjectKind::Sema { .. }, Operation::Sema(call)) => {
                let answer = part(
                    rt,
                    worker,
                    object,
                    pass,
                    &mut caller.note,
                    stage_of(*call),
                    &Eager,
                );
                Some(lock_reply(answer))
            }
            _ => unreachable!(),
        }
    }
}
