//! Calls on maps and atomics, in the words of the record.
ghost use Rattle.std.specs.Prelude.{◌≡◌, ℕ, ◌<◌, ◌≤◌, true, List};
ghost use Rattle.std.specs.Option.{ForSome};
ghost use Rattle.sync_types.specs.declared.atomic_object.AtomicKind.{AtomicKind};
ghost use Rattle.sync_types.specs.SequentialAtomic.{is_atomic_call};
ghost use Rattle.sync_model.specs.Note.{SameHome};
ghost use Rattle.sync_model.specs.declared.item.SharedCall.TheVariants as calls;
ghost use Rattle.sync_model.specs.Shared.{IsMapCall, cost_of, IsCallerAt, items_of};
ghost use Rattle.workload.specs.declared.object.ObjectKind.TheVariants.{Atomic};
ghost use Rattle.workload.specs.Plan.{Plan};
ghost use Rattle.run_record.specs.AtomicKind.{atomic_call};
ghost use Rattle.run_record.specs.Limits.{IsCallOf};
ghost use Rattle.run_record.specs.Objects.{atomic_number};
ghost use Rattle.run_record.specs.Record.{ObjectEntry};
ghost use Rattle.thread_objects.specs.Calling.{HasCalled};
ghost use Rattle.thread_objects.specs.Catalog.{HasAtomics, IsAt};
ghost use Rattle.thread_objects.specs.GivenUp.{MakesOnly};
ghost use Rattle.thread_objects.specs.PlacedCalls.{placed_map};
ghost use Rattle.thread_objects.specs.Spending.{Spends};
ghost use Rattle.thread_objects.specs.Working.{Works, desk_with};

use crate::parts::answer::CallAnswer;
use crate::parts::catalog::Catalog;
use script_calls::Reply;
use std::sync::Wait;
use sync_model::{Answer, Caller, Shared};
use sync_types::{AtomicCall, MapCall};

/// Makes a call on the atomic at a place among the workload's objects, which is of a type that has the call. It may wait for other
/// callers.
pub fn atomic_at<S: Shared, R: Wait>(
    rt: &R,
    catalog: &Catalog<S>,
    caller: &mut Caller<S::Mark>,
    place: usize,
    call: AtomicCall,
) -> CallAnswer
    requires atomics { HasAtomics catalog.now.workload.now (S.kinds catalog.now.shared.now) catalog.now.numbers.now }
    requires place { (type : AtomicKind) × IsAt catalog.now.workload.now place (Atomic type) × (is_atomic_call type call ≡ true) }
    requires caller { IsCallerAt S.Mark.at S.Mark.own (S.home_of catalog.now.shared.now) caller.old }
    ensures called { HasCalled S.Mark.at S.Mark.own catalog.now.workload.now 0 caller.old.note caller.new.note }
    ensures works { (owns : ℕ → List ObjectEntry)
        → Works (atomic_call (atomic_number catalog.now.workload.now.objects place) call) (desk_with S.Mark.own S.Mark.front owns caller.old.note) result (desk_with S.Mark.own S.Mark.front owns caller.new.note) }
{
    let atomic = catalog.numbers[place];
    let reply = catalog.shared.atomic_call(rt, caller, atomic, call);
    Answer::Done(Ok(Reply::Atomic(reply)))
}

/// Makes a call on a map, whose keys are numbers. It may wait for other callers.
pub fn call_map<S: Shared, R: Wait>(
    rt: &R,
    shared: &S,
    caller: &mut Caller<S::Mark>,
    map: u32,
    call: MapCall<u32>,
) -> CallAnswer
    requires caller { IsCallerAt S.Mark.at S.Mark.own (S.home_of shared.now) caller.old }
    requires map { map < S.maps shared.now }
    requires call { IsMapCall (S.takes shared.now) call }
    requires spare { ForSome (S.Mark.own caller.old.note) (λ holding. cost_of call ≤ holding.spare) }
    ensures home { SameHome S.Mark.at caller.old.note caller.new.note }
    ensures spends { Spends S.Mark.own (cost_of call) caller.old.note caller.new.note }
    ensures calls { (plan : Plan) → IsCallOf plan (calls.Map map call) → MakesOnly (IsCallOf plan) (items_of (S.Mark.own caller.old.note)) (items_of (S.Mark.own caller.new.note)) }
    ensures works { (owns : ℕ → List ObjectEntry) → Works (placed_map map call) (desk_with S.Mark.own S.Mark.front owns caller.old.note) result (desk_with S.Mark.own S.Mark.front owns caller.new.note) }
{
    Answer::Done(Ok(Reply::Map(shared.map_call(rt, caller, map, call))))
}
