//! A function made by `OnceFunc`, which fails with a code, or succeeds where it is 0: how it begins, and the calls of it.
ghost use Rattle.std.specs.Prelude.{◌≡◌};
ghost use Rattle.run_record.specs.OnceKind.{failure};
ghost use Rattle.run_record.specs.Parts.{with_outcome};
ghost use Rattle.thread_objects.specs.OnceFuncKind.{once_func, func_told};

use super::once_parts::kept;
use crate::kind::DeclaredKind;
use crate::parts::{CallAnswer, Catalog, Worker};
use ruled_object::{Object, PassOf};
use script_calls::{Operation, Reply};
use std::alloc::{AllocError, Global};
use std::sync::Wait;
use sync_model::{Answer, Caller, Shared};
use sync_outside::Clock;
use sync_types::Misuse;
use wait_cores::OnceCore;
use workload::ObjectKind;

// What a call answers, where the function came to this code: 0 stands for no failure.
fn func_reply(answer: Answer<Result<u32, Misuse>>) -> CallAnswer
    ensures { result ≡ with_outcome func_told answer }
{
    match answer {
        Answer::Done(Ok(code)) => Answer::Done(Ok(Reply::OnceFunc(failure_of(code)))),
        Answer::Done(Err(misuse)) => Answer::Done(Err(misuse)),
        Answer::Halted(misuse) => Answer::Halted(misuse),
    }
}

// The failure that a code stands for.
fn failure_of(code: u32) -> Option<u32>
    ensures { result ≡ failure code }
{
    if code == 0 { None } else { Some(code) }
}

impl DeclaredKind for OnceCore<u32> {
    ghost kind = { once_func };

    fn start(
        alloc: Global,
        workers: u32,
        declared: ObjectKind,
    ) -> Result<OnceCore<u32>, AllocError> {
        match declared {
            ObjectKind::OnceFunc { .. } => OnceCore::new(alloc, workers),
            _ => unreachable!(),
        }
    }

    fn call<S: Shared, C: Clock, R: Wait>(
        rt: &R,
        worker: &Worker<S::Mark, C>,
        _catalog: &Catalog<S>,
        caller: &mut Caller<S::Mark>,
        object: &Object<OnceCore<u32>, S::Mark>,
        pass: &mut PassOf<OnceCore<u32>, S::Mark>,
        declared: ObjectKind,
        operation: &Operation,
        _key: u32,
    ) -> Option<CallAnswer> {
        match (declared, operation) {
            (ObjectKind::OnceFunc { code }, Operation::OnceFunc) => {
                let answer = kept(rt, worker, object, pass, &mut caller.note, code);
                Some(func_reply(answer))
            }
            _ => unreachable!(),
        }
    }
}
