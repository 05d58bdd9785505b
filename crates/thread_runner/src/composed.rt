//! Calls that are made of other calls: `ifeq` tests an atomic, `waitfor` waits on a cond until a test of an atomic is met, and `go`
//! starts a worker under a wait group.
ghost use Rattle.std.specs.Prelude.{◌≡◌, ℕ, List};
ghost use Rattle.sync_types.specs.declared.atomic_object.AtomicKind.{AtomicKind};
ghost use Rattle.script_calls.specs.declared.call.Operation.TheVariants.{Composed};
ghost use Rattle.sync_model.specs.Shared.{IsCallerAt};
ghost use Rattle.workload.specs.declared.object.ObjectKind.TheVariants.{Atomic};
ghost use Rattle.run_record.specs.Calls.{call_on};
ghost use Rattle.run_record.specs.Objects.{atomic_number};
ghost use Rattle.run_record.specs.Record.{ObjectEntry};
ghost use Rattle.run_record.specs.Tests.{if_equal_call};
ghost use Rattle.thread_objects.specs.Calling.{HasCalled};
ghost use Rattle.thread_objects.specs.Catalog.{HasAtomics, IsAt};
ghost use Rattle.thread_objects.specs.Desks.{AreSeats};
ghost use Rattle.thread_objects.specs.Passes.{owns_of};
ghost use Rattle.thread_objects.specs.Working.{Works, desk_with};
ghost use Rattle.thread_runner.specs.Sites.{HasCallAt, IsWorkerAt};

mod starting;
mod testing;
mod waiting;

use crate::composed::starting::go_at;
use crate::composed::testing::{compared, test_at};
use crate::composed::waiting::wait_for_at;
use crate::site::Site;
use script_calls::ComposedCall;
use std::sync::Wait;
use sync_model::{Caller, Shared};
use sync_outside::Clock;
use sync_types::Number;
use thread_objects::laws::objects_are_of_their_kinds;
use thread_objects::{AnyPass, CallAnswer, Catalog, Worker};
use workload::ObjectKind;

// Loads the atomic at a place among the workload's objects, and answers whether it holds the number.
fn if_equal_at<S: Shared, R: Wait>(
    rt: &R,
    catalog: &Catalog<S>,
    caller: &mut Caller<S::Mark>,
    place: usize,
    value: Number,
) -> CallAnswer
    requires atomics { HasAtomics catalog.now.workload.now (S.kinds catalog.now.shared.now) catalog.now.numbers.now }
    requires place { (type : AtomicKind) × IsAt catalog.now.workload.now place (Atomic type) }
    requires caller { IsCallerAt S.Mark.at S.Mark.own (S.home_of catalog.now.shared.now) caller.old }
    ensures called { HasCalled S.Mark.at S.Mark.own catalog.now.workload.now 0 caller.old.note caller.new.note }
    ensures works { (owns : ℕ → List ObjectEntry)
        → Works (if_equal_call (atomic_number catalog.now.workload.now.objects place) value) (desk_with S.Mark.own S.Mark.front owns caller.old.note) result (desk_with S.Mark.own S.Mark.front owns caller.new.note) }
{
    compared(test_at(rt, catalog, caller, place, value))
}

/// Makes a call that is made of others, on the object at a place among the workload's objects, which is of this kind and has the
/// call. It may wait for other callers.
pub(crate) fn composed_at<S: Shared, C: Clock, R: Wait>(
    rt: &R,
    site: &Site<S>,
    worker: &Worker<S::Mark, C>,
    caller: &mut Caller<S::Mark>,
    passes: &mut [AnyPass<S::Mark>],
    place: usize,
    kind: ObjectKind,
    call: ComposedCall,
) -> CallAnswer
    requires site { IsWorkerAt S.Mark.at worker.now.at.home.now (S.home_of site.now.catalog.shared.now) site.now.catalog.workload.now (S.maps site.now.catalog.shared.now) (S.kinds site.now.catalog.shared.now) (S.takes site.now.catalog.shared.now) site.now.objects.now site.now.catalog.numbers.now worker.now.workers }
    requires call { HasCallAt site.now.catalog.workload.now place kind (Composed call) }
    requires caller { IsCallerAt S.Mark.at S.Mark.own worker.now.at.home.now caller.old }
    requires seats { AreSeats S.Mark.at worker.now.at.home.now worker.now.workers worker.now.number site.now.objects.now passes.old }
    ensures seats { AreSeats S.Mark.at worker.now.at.home.now worker.now.workers worker.now.number site.now.objects.now passes.new }
    ensures called { HasCalled S.Mark.at S.Mark.own site.now.catalog.workload.now 0 caller.old.note caller.new.note }
    ensures works { (before : ℕ)
        → Works (call_on site.now.catalog.workload.now worker.now.number before place kind (Composed call)) (desk_with S.Mark.own S.Mark.front (owns_of passes.old) caller.old.note) result (desk_with S.Mark.own S.Mark.front (owns_of passes.new) caller.new.note) }
{
    objects_are_of_their_kinds::<S::Mark>();
    match call {
        ComposedCall::IfEqual { value, .. } => if_equal_at(rt, &site.catalog, caller, place, value),
        ComposedCall::WaitFor {
            atomic,
            value,
            tries,
        } => match kind {
            ObjectKind::Cond { mutex } => wait_for_at(
                rt,
                worker,
                &site.catalog,
                caller,
                site.objects,
                passes,
                place,
                mutex,
                atomic,
                value,
                tries,
            ),
            _ => unreachable!(),
        },
        ComposedCall::Go { worker: started } => {
            let _count = site.objects.len();
            go_at(rt, site, worker, caller, passes, place, started)
        }
    }
}
