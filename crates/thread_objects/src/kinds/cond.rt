//! A cond: how it begins, and the calls on it alone. Its `wait` is on its mutex too.
ghost use Rattle.thread_objects.specs.CondKind.{cond};

use crate::kind::DeclaredKind;
use crate::parts::{CallAnswer, Catalog, Worker, part, returned};
use call_loop::Eager;
use protocols::CondStage;
use ruled_object::{Object, PassOf};
use script_calls::Operation;
use std::alloc::{AllocError, Global};
use std::sync::Wait;
use sync_model::{Caller, Shared};
use sync_outside::Clock;
use sync_types::CondCall;
use wait_cores::NotifyCore;
use workload::ObjectKind;

impl DeclaredKind for NotifyCore {
    ghost kind = { cond };

    fn start(alloc: Global, workers: u32, declared: ObjectKind) -> Result<NotifyCore, AllocError> {
        match declared {
            ObjectKind::Cond { .. } => NotifyCore::new(alloc, workers),
            _ => unreachable!(),
        }
    }

    fn call<S: Shared, C: Clock, R: Wait>(
        rt: &R,
        worker: &Worker<S::Mark, C>,
        _catalog: &Catalog<S>,
        caller: &mut Caller<S::Mark>,
        object: &Object<NotifyCore, S::Mark>,
        pass: &mut PassOf<NotifyCore, S::Mark>,
        declared: ObjectKind,
        operation: &Operation,
        _key: u32,
    ) -> Option<CallAnswer> {
        let note = &mut caller.note;
        match (declared, operation) {
            (ObjectKind::Cond { .. }, Operation::Cond(call)) => match call {
                CondCall::Signal => {
                    let answer = part(rt, worker, object, pass, note, CondStage::Signal, &Eager);
                    Some(returned(answer))
                }
                CondCall::Broadcast => {
                    let answer = part(rt, worker, object, pass, note, CondStage::Broadcast, &Eager);
                    Some(returned(answer))
                }
                CondCall::Wait => unreachable!(),
            },
            _ => unreachable!(),
        }
    }
}
