//! What the items of a call are.
ghost use Rattle.std.specs.Prelude.{◌≡◌, ◌≢◌, ℕ, ℤ, ◌+◌, ◌≤◌, Bool, false, List, [], ◌∷◌, ◌++◌, length, Some, Ok, Err, slice_get};
ghost use Rattle.protocols.specs.Spelling.{CallAnswer};
ghost use Rattle.sync_types.specs.declared.misuse.Misuse.{Misuse};
ghost use Rattle.workload.specs.Plan.{Plan};
ghost use Rattle.run_record.specs.Calls.{SpellsCall};
ghost use Rattle.run_record.specs.Objects.{atomic_number};
ghost use Rattle.run_record.specs.Record.{object_number, shared_in};
ghost use Rattle.run_record.specs.Rounds.{IsWaitFor, HasWaited, HasStopped, EndsUnlocking, tickets_of};
ghost use Rattle.run_record.specs.Tests.{holds};

use crate::made::Made;
use mutex_core::MutexCore;
use protocols::laws::calls_give_what_they_may;
use script_calls::{Call, ComposedCall, Operation, Reply};
use sync_model::{Answer, Item, SharedCall, SharedReply};
use sync_types::{AtomicCall, AtomicKind, AtomicReply, DoReply, Number};
use wait_cores::NotifyCore;
use workload::{ObjectKind, ObjectLine};

/// A `do` that ran its once's function added once, between the events that begin and end it, and answers the sum.
pub fn a_do_that_ran_added_between()
    ensures { (plan : Plan) (worker before atomic : ℕ) (delta sum : ℤ) (object : ObjectLine) (call : Call) (items : List Made)
        → slice_get plan.objects call.object ≡ Some object → object.kind ≡ ObjectKind.Once atomic delta → call.operation ≡ Operation.Once
        → SpellsCall plan worker before call items (Answer.Done (Ok (Reply.Once (DoReply.Ran sum))))
        → (begun : List Made) × (ended : List Made) × (x : Item) × (items ≡ begun ++ Made.Shared x ∷ ended) × (begun ≢ []) × (ended ≢ [])
        × (x.call ≡ SharedCall.Atomic (atomic_number plan.objects atomic) (AtomicCall.Add (Number.Int64 delta))) × (x.reply ≡ SharedReply.Atomic (AtomicReply.Held (Number.Int64 sum))) }
{}

/// An `ifeq` is one load of its atomic, and nothing else. It answers whether that load found the value.
pub fn an_ifeq_is_one_load()
    ensures { (plan : Plan) (worker before passes : ℕ) (value : Number) (type : AtomicKind) (object : ObjectLine) (call : Call) (items : List Made) (answer : CallAnswer (Reply ℕ))
        → slice_get plan.objects call.object ≡ Some object → object.kind ≡ ObjectKind.Atomic type → call.operation ≡ Operation.Composed (ComposedCall.IfEqual value passes)
        → SpellsCall plan worker before call items answer
        → (x : Item) × (reply : AtomicReply) × (items ≡ Made.Shared x ∷ []) × (x.call ≡ SharedCall.Atomic (atomic_number plan.objects call.object) AtomicCall.Load)
        × (x.reply ≡ SharedReply.Atomic reply) × (answer ≡ Answer.Done (Ok (Reply.Atomic (AtomicReply.Compared (holds value (Reply.Atomic reply)))))) }
{}

/// A `waitfor` that returned is rounds of a load of its atomic and a `wait` on its cond, and a load behind them. The load of each round
/// found another number, and its `wait` returned. There are no more rounds than the call may make waits. It answers whether the last
/// load found the value, and where that one didn't, it has made all its waits. Any such items are a `waitfor`. By what stands in the
/// list: it took one ticket of its cond for each wait, and made one load more.
/// One that is a misuse, or that met a halt, ends within the `wait` of a round. The misuse is that of the unlock of the cond's mutex.
pub fn a_waitfor_waits_until_a_load_finds_the_value()
    ensures returned { (plan : Plan) (worker before mutex atomic tries : ℕ) (value : Number) (call : Call) (items : List Made) (reply : Reply ℕ)
        → IsWaitFor plan call mutex atomic value tries → SpellsCall plan worker before call items (Answer.Done (Ok reply))
        → (met : Bool) × (reply ≡ Reply.Atomic (AtomicReply.Compared met)) × HasWaited (object_number call.object) (object_number mutex) (atomic_number plan.objects atomic) value tries met items }
    ensures spells { (plan : Plan) (worker before mutex atomic tries : ℕ) (value : Number) (call : Call) (items : List Made) (met : Bool)
        → IsWaitFor plan call mutex atomic value tries → HasWaited (object_number call.object) (object_number mutex) (atomic_number plan.objects atomic) value tries met items
        → SpellsCall plan worker before call items (Answer.Done (Ok (Reply.Atomic (AtomicReply.Compared met)))) }
    ensures counted { (plan : Plan) (worker before mutex atomic tries : ℕ) (value : Number) (call : Call) (items : List Made) (met : Bool)
        → IsWaitFor plan call mutex atomic value tries → SpellsCall plan worker before call items (Answer.Done (Ok (Reply.Atomic (AtomicReply.Compared met))))
        → (length (shared_in items) ≡ tickets_of (object_number call.object) items + 1) × (tickets_of (object_number call.object) items ≤ tries)
        × (met ≡ false → tickets_of (object_number call.object) items ≡ tries) }
    ensures misused { (plan : Plan) (worker before mutex atomic tries : ℕ) (value : Number) (call : Call) (items : List Made) (misuse : Misuse)
        → IsWaitFor plan call mutex atomic value tries → SpellsCall plan worker before call items (Answer.Done (Err misuse))
        → HasStopped (object_number call.object) (object_number mutex) (atomic_number plan.objects atomic) value tries (Answer.Done (Err misuse)) items
        × EndsUnlocking (object_number mutex) misuse items }
    ensures halted { (plan : Plan) (worker before mutex atomic tries : ℕ) (value : Number) (call : Call) (items : List Made) (misuse : Misuse)
        → IsWaitFor plan call mutex atomic value tries → SpellsCall plan worker before call items (Answer.Halted misuse)
        → HasStopped (object_number call.object) (object_number mutex) (atomic_number plan.objects atomic) value tries (Answer.Halted misuse) items }
{
    calls_give_what_they_may::<NotifyCore>();
    calls_give_what_they_may::<MutexCore>();
}
