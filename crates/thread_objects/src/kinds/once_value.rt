//! A function made by `OnceValue`, which gives a value: how it begins, and the calls of it.
ghost use Rattle.std.specs.Prelude.{◌≡◌};
ghost use Rattle.run_record.specs.Parts.{with_outcome};
ghost use Rattle.thread_objects.specs.OnceValueKind.{once_value, value_told};

use super::once_parts::kept;
use crate::kind::DeclaredKind;
use crate::parts::{CallAnswer, Catalog, Worker};
use ruled_object::{Object, PassOf};
use script_calls::{Operation, Reply};
use std::alloc::{AllocError, Global};
use std::sync::Wait;
use sync_model::{Answer, Caller, Shared};
use sync_outside::Clock;
use sync_types::Misuse;
use wait_cores::OnceCore;
use workload::ObjectKind;

// What a call answers, where the function came to this value.
fn value_reply(answer: Answer<Result<u64, Misuse>>) -> CallAnswer
    ensures { result ≡ with_outcome value_told answer }
{
    match answer {
        Answer::Done(Ok(value)) => Answer::Done(Ok(Reply::OnceValue(value))),
        Answer::Done(Err(misuse)) => Answer::Done(Err(misuse)),
        Answer::Halted(misuse) => Answer::Halted(misuse),
    }
}

impl DeclaredKind for OnceCore<u64> {
    ghost kind = { once_value };

    fn start(
        alloc: Global,
        workers: u32,
        declared: ObjectKind,
    ) -> Result<OnceCore<u64>, AllocError> {
        match declared {
            ObjectKind::OnceValue { .. } => OnceCore::new(alloc, workers),
            _ => unreachable!(),
        }
    }

    fn call<S: Shared, C: Clock, R: Wait>(
        rt: &R,
        worker: &Worker<S::Mark, C>,
        _catalog: &Catalog<S>,
        caller: &mut Caller<S::Mark>,
        object: &Object<OnceCore<u64>, S::Mark>,
        pass: &mut PassOf<OnceCore<u64>, S::Mark>,
        declared: ObjectKind,
        operation: &Operation,
        _key: u32,
    ) -> Option<CallAnswer> {
        match (declared, operation) {
            (ObjectKind::OnceValue { value }, Operation::OnceValue) => {
                let answer = kept(rt, worker, object, pass, &mut caller.note, value);
                Some(value_reply(answer))
            }
            _ => unreachable!(),
        }
    }
}
