//! Scripts that hang on what an atomic holds. Each law is the contract of a function that does nothing.
ghost use Rattle.std.specs.Prelude.{◌≡◌, ◌↔◌, ℕ, ◌+◌, Bool, true, cond, [], ◌∷◌, Some, slice_get, get_or};
ghost use Rattle.script_calls.specs.Runs.{places_from};
ghost use Rattle.sync_model.specs.SharedHistory.{contents_at, number_at};
ghost use Rattle.workload.specs.Plan.{Plan};
ghost use Rattle.run_record.specs.Explains.{Explains};
ghost use Rattle.run_record.specs.Lines.{SpeltCall, Line, replies_of};
ghost use Rattle.run_record.specs.Objects.{contents_of, atomic_number};
ghost use Rattle.run_record.specs.Record.{Record};

use run_record::Made;
use run_record::laws::runs::a_call_that_was_passed_over_leaves_no_item;
use script_calls::laws::only_an_ifeq_answered_false_passes_calls_over;
use script_calls::{ComposedCall, Operation, Outcome, Reply};
use sync_model::{Item, SharedCall};
use sync_types::{AtomicCall, AtomicKind, AtomicReply, Number};
use workload::{ObjectKind, ObjectLine};

/// An `ifeq` that was completed is one load of its own atomic, and nothing else. It answers true exactly where the atomic of one
/// thread holds the value at that place of the history. Where it answers true, the next completed call is the script's next one, and
/// else the one behind those that it passes over.
pub fn an_ifeq_hangs_on_what_its_atomic_holds()
    ensures { (plan : Plan) (r : Record) (outcome : Outcome) (explains : Explains plan outcome r) (worker i passes : ℕ) (line : Line) (spelt : SpeltCall) (object : ObjectLine) (type : AtomicKind) (value : Number)
        → slice_get explains.lines worker ≡ Some line → slice_get line.spelt i ≡ Some spelt
        → slice_get plan.objects spelt.call.object ≡ Some object → object.kind ≡ ObjectKind.Atomic type → spelt.call.operation ≡ Operation.Composed (ComposedCall.IfEqual value passes)
        → (x : Item) × (met : Bool) × (spelt.items ≡ Made.Shared x ∷ []) × (x.call ≡ SharedCall.Atomic (atomic_number plan.objects spelt.call.object) AtomicCall.Load)
        × (spelt.reply ≡ Reply.Atomic (AtomicReply.Compared met))
        × ((met ≡ true) ↔ (number_at (contents_at (contents_of plan) r.history x.place) (atomic_number plan.objects spelt.call.object) ≡ value))
        × ((place after : ℕ) → slice_get (places_from 0 (get_or plan.scripts worker []) (replies_of line)) i ≡ Some place
        → slice_get (places_from 0 (get_or plan.scripts worker []) (replies_of line)) (i + 1) ≡ Some after → after ≡ place + 1 + cond met 0 passes) }
{
    only_an_ifeq_answered_false_passes_calls_over::<u32>();
    a_call_that_was_passed_over_leaves_no_item();
}
