//! What an atomic holds, as a test.
ghost use Rattle.std.specs.Prelude.{◌≡◌, ℕ, List};
ghost use Rattle.sync_types.specs.declared.atomic_object.AtomicKind.{AtomicKind};
ghost use Rattle.sync_model.specs.Shared.{IsCallerAt};
ghost use Rattle.workload.specs.declared.object.ObjectKind.TheVariants.{Atomic};
ghost use Rattle.run_record.specs.Objects.{atomic_number};
ghost use Rattle.run_record.specs.Parts.{with_outcome};
ghost use Rattle.run_record.specs.Record.{ObjectEntry};
ghost use Rattle.run_record.specs.Tests.{compared, holds, tests};
ghost use Rattle.thread_objects.specs.Calling.{HasCalled};
ghost use Rattle.thread_objects.specs.Catalog.{HasAtomics, IsAt};
ghost use Rattle.thread_objects.specs.Working.{Works, desk_with};

use script_calls::Reply;
use std::sync::Wait;
use sync_model::{Answer, Caller, Shared};
use sync_types::{AtomicCall, AtomicReply, Misuse, Number};
use thread_objects::{CallAnswer, Catalog, atomic_at};

// Whether a load found the number.
fn holds(value: Number, reply: &Reply<u32>) -> bool
    ensures { result ≡ holds value reply.now }
{
    match reply {
        Reply::Atomic(AtomicReply::Held(number)) => *number == value,
        _ => false,
    }
}

// Whether a load that was answered so found the number.
fn met(value: Number, answer: CallAnswer) -> Answer<Result<bool, Misuse>>
    ensures { result ≡ with_outcome (holds value) answer }
{
    match answer {
        Answer::Done(Ok(reply)) => Answer::Done(Ok(holds(value, &reply))),
        Answer::Done(Err(misuse)) => Answer::Done(Err(misuse)),
        Answer::Halted(misuse) => Answer::Halted(misuse),
    }
}

/// Loads the atomic at a place among the workload's objects, and answers whether it holds the number. It may wait for other
/// callers.
pub(crate) fn test_at<S: Shared, R: Wait>(
    rt: &R,
    catalog: &Catalog<S>,
    caller: &mut Caller<S::Mark>,
    place: usize,
    value: Number,
) -> Answer<Result<bool, Misuse>>
    requires atomics { HasAtomics catalog.now.workload.now (S.kinds catalog.now.shared.now) catalog.now.numbers.now }
    requires place { (type : AtomicKind) × IsAt catalog.now.workload.now place (Atomic type) }
    requires caller { IsCallerAt S.Mark.at S.Mark.own (S.home_of catalog.now.shared.now) caller.old }
    ensures called { HasCalled S.Mark.at S.Mark.own catalog.now.workload.now 0 caller.old.note caller.new.note }
    ensures works { (owns : ℕ → List ObjectEntry)
        → Works (tests (atomic_number catalog.now.workload.now.objects place) value) (desk_with S.Mark.own S.Mark.front owns caller.old.note) result (desk_with S.Mark.own S.Mark.front owns caller.new.note) }
{
    met(
        value,
        atomic_at(rt, catalog, caller, place, AtomicCall::Load),
    )
}

/// What a call answers whose last test was answered so.
pub(crate) fn compared(tested: Answer<Result<bool, Misuse>>) -> CallAnswer
    ensures { result ≡ with_outcome compared tested }
{
    match tested {
        Answer::Done(Ok(met)) => Answer::Done(Ok(Reply::Atomic(AtomicReply::Compared(met)))),
        Answer::Done(Err(misuse)) => Answer::Done(Err(misuse)),
        Answer::Halted(misuse) => Answer::Halted(misuse),
    }
}
