//! Adding to an atomic of the type int64.
ghost use Rattle.std.specs.Prelude.{◌≡◌, ℕ, ℤ, List, Ok, IfSome, IfNone};
ghost use Rattle.sync_model.specs.declared.answer.Answer.TheVariants.{Done};
ghost use Rattle.sync_model.specs.Note.{SameHome};
ghost use Rattle.sync_model.specs.Shared.{IsAtomicCall, IsCallerAt, items_of};
ghost use Rattle.sync_types.specs.declared.atomic_object.AtomicCall.TheVariants.{Add};
ghost use Rattle.sync_types.specs.declared.atomic_object.AtomicKind.TheVariants as types;
ghost use Rattle.sync_types.specs.declared.atomic_object.AtomicReply.TheVariants.{Held};
ghost use Rattle.sync_types.specs.declared.atomic_object.Number.TheVariants.{Int64};
ghost use Rattle.workload.specs.declared.object.ObjectKind.TheVariants.{Atomic};
ghost use Rattle.workload.specs.Plan.{Plan};
ghost use Rattle.run_record.specs.AtomicKind.{adds};
ghost use Rattle.run_record.specs.Limits.{IsCallOf, atomic_types};
ghost use Rattle.run_record.specs.Objects.{atomic_number};
ghost use Rattle.run_record.specs.Record.{ObjectEntry};
ghost use Rattle.thread_objects.specs.Calling.{HasCalled};
ghost use Rattle.thread_objects.specs.Catalog.{HasAtomics, IsAt};
ghost use Rattle.thread_objects.specs.GivenUp.{MakesOnly, AnsweredAmiss};
ghost use Rattle.thread_objects.specs.Spending.{Spends};
ghost use Rattle.thread_objects.specs.Working.{Works, desk_with};

use crate::parts::catalog::Catalog;
use std::sync::Wait;
use sync_model::{Caller, Shared};
use sync_types::{AtomicCall, AtomicReply, Number};

// The int64 that a reply holds. `None`, where it holds another number, or none.
fn int64_in(reply: AtomicReply) -> Option<i64>
    ensures sum { IfSome result (λ sum. reply ≡ Held (Int64 sum)) }
    ensures other { IfNone result ((sum : ℤ) → reply ≡ Held (Int64 sum) → ⊥) }
{
    match reply {
        AtomicReply::Held(Number::Int64(sum)) => Some(sum),
        AtomicReply::Held(Number::Int32(_number)) => None,
        AtomicReply::Held(Number::Uint32(_number)) => None,
        AtomicReply::Held(Number::Uint64(_number)) => None,
        AtomicReply::Held(Number::Bool(_truth)) => None,
        AtomicReply::Done => None,
        AtomicReply::Compared(_swapped) => None,
    }
}

// Adds to an int64, and answers the sum. `None`, where it is answered by another number.
fn add_int64<S: Shared, R: Wait>(
    rt: &R,
    shared: &S,
    caller: &mut Caller<S::Mark>,
    atomic: u32,
    delta: i64,
) -> Option<i64>
    requires caller { IsCallerAt S.Mark.at S.Mark.own (S.home_of shared.now) caller.old }
    requires call { IsAtomicCall (S.kinds shared.now) atomic (Add (Int64 delta)) }
    ensures home { SameHome S.Mark.at caller.old.note caller.new.note }
    ensures spends { Spends S.Mark.own 0 caller.old.note caller.new.note }
    ensures calls { (plan : Plan) → atomic_types plan ≡ S.kinds shared.now → MakesOnly (IsCallOf plan) (items_of (S.Mark.own caller.old.note)) (items_of (S.Mark.own caller.new.note)) }
    ensures amiss { IfNone result (AnsweredAmiss (items_of (S.Mark.own caller.new.note))) }
    ensures works { IfSome result (λ sum. (owns : ℕ → List ObjectEntry)
        → Works (adds atomic delta) (desk_with S.Mark.own S.Mark.front owns caller.old.note) (Done (Ok sum)) (desk_with S.Mark.own S.Mark.front owns caller.new.note)) }
{
    let operand = Number::Int64(delta);
    int64_in(shared.atomic_call(rt, caller, atomic, AtomicCall::Add { operand }))
}

/// Adds to the int64 at a place among the workload's objects, and answers the sum. It may wait for other callers. `None`, where
/// it is answered by another number. It never is where every call on an atomic is of the atomic's type; a single call doesn't
/// know that of the others.
pub fn add_at<S: Shared, R: Wait>(
    rt: &R,
    catalog: &Catalog<S>,
    caller: &mut Caller<S::Mark>,
    place: usize,
    delta: i64,
) -> Option<i64>
    requires atomics { HasAtomics catalog.now.workload.now (S.kinds catalog.now.shared.now) catalog.now.numbers.now }
    requires place { IsAt catalog.now.workload.now place (Atomic types.Int64) }
    requires caller { IsCallerAt S.Mark.at S.Mark.own (S.home_of catalog.now.shared.now) caller.old }
    ensures called { HasCalled S.Mark.at S.Mark.own catalog.now.workload.now 0 caller.old.note caller.new.note }
    ensures amiss { IfNone result (AnsweredAmiss (items_of (S.Mark.own caller.new.note))) }
    ensures works { IfSome result (λ sum. (owns : ℕ → List ObjectEntry)
        → Works (adds (atomic_number catalog.now.workload.now.objects place) delta) (desk_with S.Mark.own S.Mark.front owns caller.old.note) (Done (Ok sum)) (desk_with S.Mark.own S.Mark.front owns caller.new.note)) }
{
    let int64 = catalog.numbers[place];
    add_int64(rt, catalog.shared, caller, int64, delta)
}
