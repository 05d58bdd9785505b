//! Calls on one object of whatever kind.
ghost use Rattle.std.specs.Prelude.{◌≡◌, ℕ, true, IfSome, IfNone};
ghost use Rattle.sync_model.specs.Shared.{IsCallerAt, items_of};
ghost use Rattle.workload.specs.Keys.{keys_in, operation_number};
ghost use Rattle.workload.specs.Plan.{refers};
ghost use Rattle.run_record.specs.Calls.{call_on};
ghost use Rattle.run_record.specs.Record.{object_number};
ghost use Rattle.thread_objects.specs.Calling.{HasCalled};
ghost use Rattle.thread_objects.specs.Catalog.{HasAtomics};
ghost use Rattle.thread_objects.specs.GivenUp.{GaveUp};
ghost use Rattle.thread_objects.specs.Working.{Works, desk_at};
ghost use Rattle.thread_objects.specs.Alone.{IsCallAlone};
ghost use Rattle.thread_objects.specs.ByKind.{own_of};
ghost use Rattle.thread_objects.specs.Kinds.{IsOfKind};
ghost use Rattle.thread_objects.specs.Passes.{IsSeatAt};

use crate::by_kind::{declared_arms, with_kinds};
use crate::kind::DeclaredKind;
use crate::object::AnyObject;
use crate::parts::{CallAnswer, Catalog, Worker};
use crate::pass::AnyPass;
use script_calls::Operation;
use std::sync::Wait;
use sync_model::{Caller, Shared};
use sync_outside::Clock;
use workload::ObjectKind;

/// Makes a call on an object that is declared so, and on no other one but maps and atomics; `key` is the number of its key. It may
/// wait for other workers. `None`, where it gives the call up, since it has seen what can't be.
pub fn call_any<S: Shared, C: Clock, R: Wait>(
    rt: &R,
    worker: &Worker<S::Mark, C>,
    catalog: &Catalog<S>,
    caller: &mut Caller<S::Mark>,
    object: &AnyObject<S::Mark>,
    pass: &mut AnyPass<S::Mark>,
    declared: ObjectKind,
    operation: &Operation,
    key: u32,
) -> Option<CallAnswer>
    requires alone { IsCallAlone declared operation.now }
    requires key { key ≡ operation_number (keys_in catalog.now.workload.now.scripts) operation.now }
    requires kind { IsOfKind declared object.now }
    requires reference { refers catalog.now.workload.now.objects declared ≡ true }
    requires atomics { HasAtomics catalog.now.workload.now (S.kinds catalog.now.shared.now) catalog.now.numbers.now }
    requires seat { IsSeatAt S.Mark.at worker.now.at.home.now worker.now.workers worker.now.number object.now pass.old }
    requires caller { IsCallerAt S.Mark.at S.Mark.own (S.home_of catalog.now.shared.now) caller.old }
    requires note { S.Mark.at worker.now.at.home.now caller.old.note }
    ensures seat { IsSeatAt S.Mark.at worker.now.at.home.now worker.now.workers worker.now.number object.now pass.new }
    ensures called { HasCalled S.Mark.at S.Mark.own catalog.now.workload.now 0 caller.old.note caller.new.note }
    ensures given_up { IfNone result (GaveUp catalog.now.workload.now (items_of (S.Mark.own caller.new.note))) }
    ensures works { IfSome result (λ answer. (before place : ℕ)
        → Works (call_on catalog.now.workload.now worker.now.number before place declared operation.now) (desk_at S.Mark.own S.Mark.front (object_number place) (own_of pass.old) caller.old.note) answer (desk_at S.Mark.own S.Mark.front (object_number place) (own_of pass.new) caller.new.note)) }
{
    with_kinds!(
        declared_arms,
        object,
        pass,
        |object, pass| DeclaredKind::call(
            rt, worker, catalog, caller, object, pass, declared, operation, key
        )
    )
}
