//! A once: how it begins, and `do`, whose function adds to an int64.
ghost use Rattle.std.specs.Prelude.{◌≡◌, ℕ, false, IfSome, IfNone};
ghost use Rattle.sync_types.specs.declared.atomic_object.AtomicKind.TheVariants.{Int64};
ghost use Rattle.sync_model.specs.Shared.{IsCallerAt, items_of};
ghost use Rattle.workload.specs.declared.object.ObjectKind.TheVariants.{Atomic};
ghost use Rattle.protocols.specs.OnceStages.{once_stands, OnceBegins};
ghost use Rattle.run_record.specs.declared.entered.ObjectEvent.TheVariants as event;
ghost use Rattle.run_record.specs.declared.entered.ObjectReply.TheVariants as reply;
ghost use Rattle.run_record.specs.Objects.{atomic_number};
ghost use Rattle.run_record.specs.OnceKind.{do_call};
ghost use Rattle.run_record.specs.Parts.{with_outcome};
ghost use Rattle.thread_objects.specs.Calling.{HasCalled};
ghost use Rattle.thread_objects.specs.Catalog.{HasAtomics, IsAt};
ghost use Rattle.thread_objects.specs.GivenUp.{GaveUp};
ghost use Rattle.thread_objects.specs.Working.{Works, desk_at};
ghost use Rattle.thread_objects.specs.OnceKind.{once, ran};
ghost use Rattle.thread_objects.specs.Own.{own_as};
ghost use Rattle.thread_objects.specs.Seats.{IsSeat};

use super::once_parts::{begin, end, ended};
use crate::kind::DeclaredKind;
use crate::parts::laws::{moves, what_a_call_leaves, what_calls_spend};
use crate::parts::{CallAnswer, Catalog, Worker, add_at};
use protocols::OnceOutcome;
use ruled_object::{Object, PassOf};
use script_calls::{Operation, Reply};
use std::alloc::{AllocError, Global};
use std::sync::Wait;
use sync_model::{Answer, Caller, Shared};
use sync_outside::Clock;
use sync_types::{DoReply, Misuse};
use wait_cores::OnceCore;
use workload::ObjectKind;

// What a call answers that ran the function.
fn ran(answer: Answer<Result<i64, Misuse>>) -> CallAnswer
    ensures { result ≡ with_outcome ran answer }
{
    match answer {
        Answer::Done(Ok(sum)) => Answer::Done(Ok(Reply::Once(DoReply::Ran(sum)))),
        Answer::Done(Err(misuse)) => Answer::Done(Err(misuse)),
        Answer::Halted(misuse) => Answer::Halted(misuse),
    }
}

// The first call runs the function, which adds to the int64 at a place, and later ones find it run. Where the add is answered by no int64
// the once is ended all the same, so that nobody waits for it.
fn do_on<S: Shared, C: Clock, R: Wait>(
    rt: &R,
    worker: &Worker<S::Mark, C>,
    catalog: &Catalog<S>,
    caller: &mut Caller<S::Mark>,
    once: &Object<OnceCore<i64>, S::Mark>,
    pass: &mut PassOf<OnceCore<i64>, S::Mark>,
    place: usize,
    delta: i64,
) -> Option<CallAnswer>
    requires atomics { HasAtomics catalog.now.workload.now (S.kinds catalog.now.shared.now) catalog.now.numbers.now }
    requires place { IsAt catalog.now.workload.now place (Atomic Int64) }
    requires seat { IsSeat OnceBegins (false, false) once_stands S.Mark.at worker.now.at.home.now worker.now.workers worker.now.number once.now pass.old }
    requires caller { IsCallerAt S.Mark.at S.Mark.own (S.home_of catalog.now.shared.now) caller.old }
    requires note { S.Mark.at worker.now.at.home.now caller.old.note }
    ensures seat { IsSeat OnceBegins (false, false) once_stands S.Mark.at worker.now.at.home.now worker.now.workers worker.now.number once.now pass.new }
    ensures called { HasCalled S.Mark.at S.Mark.own catalog.now.workload.now 0 caller.old.note caller.new.note }
    ensures given_up { IfNone result (GaveUp catalog.now.workload.now (items_of (S.Mark.own caller.new.note))) }
    ensures works { IfSome result (λ answer. (number : ℕ)
        → Works (do_call number (atomic_number catalog.now.workload.now.objects place) delta) (desk_at S.Mark.own S.Mark.front number (own_as event.Once reply.Once pass.old) caller.old.note) answer (desk_at S.Mark.own S.Mark.front number (own_as event.Once reply.Once pass.new) caller.new.note)) }
{
    moves();
    what_calls_spend::<S::Mark>();
    what_a_call_leaves::<S::Mark>();
    match begin(rt, worker, once, pass, &mut caller.note) {
        Answer::Halted(misuse) => Some(Answer::Halted(misuse)),
        Answer::Done(Err(misuse)) => Some(Answer::Done(Err(misuse))),
        Answer::Done(Ok(OnceOutcome::Already(_kept))) => {
            Some(Answer::Done(Ok(Reply::Once(DoReply::Done))))
        }
        Answer::Done(Ok(OnceOutcome::Run)) => match add_at(rt, catalog, caller, place, delta) {
            Some(sum) => {
                let answer = end(rt, worker, once, pass, &mut caller.note, sum);
                Some(ran(ended(answer, sum)))
            }
            None => {
                end(rt, worker, once, pass, &mut caller.note, 0);
                None
            }
        },
        Answer::Done(Ok(OnceOutcome::Ended)) => unreachable!(),
    }
}

impl DeclaredKind for OnceCore<i64> {
    ghost kind = { once };

    fn start(
        alloc: Global,
        workers: u32,
        declared: ObjectKind,
    ) -> Result<OnceCore<i64>, AllocError> {
        match declared {
            ObjectKind::Once { .. } => OnceCore::new(alloc, workers),
            _ => unreachable!(),
        }
    }

    fn call<S: Shared, C: Clock, R: Wait>(
        rt: &R,
        worker: &Worker<S::Mark, C>,
        catalog: &Catalog<S>,
        caller: &mut Caller<S::Mark>,
        object: &Object<OnceCore<i64>, S::Mark>,
        pass: &mut PassOf<OnceCore<i64>, S::Mark>,
        declared: ObjectKind,
        operation: &Operation,
        _key: u32,
    ) -> Option<CallAnswer> {
        match (declared, operation) {
            (ObjectKind::Once { atomic, delta }, Operation::Once) => do_on(
                rt, worker, catalog, caller, object, pass, atomic, delta,
            ),
            _ => unreachable!(),
        }
    }
}
