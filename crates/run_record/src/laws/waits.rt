//! What stands before the return of a wait, by the journals of conds, wait groups and semaphores.
ghost use Rattle.std.specs.Prelude.{◌≡◌, ℕ, ◌<◌, true, negsuc, List, ◌∷◌, ◌++◌, Some, Ok, slice_get};
ghost use Rattle.sync_model.specs.Front.{AtLeast};
ghost use Rattle.sema_core.specs.SemaEdges.{sema_acquires};
ghost use Rattle.sema_core.specs.SemaLaws as sema;
ghost use Rattle.wait_cores.specs.GroupLaws as group;
ghost use Rattle.wait_cores.specs.NotifyLaws as notify;
ghost use Rattle.workload.specs.Plan.{Plan};
ghost use Rattle.run_record.specs.Calls.{SpellsCall};
ghost use Rattle.run_record.specs.Explains.{IsRecordOf, Explains};
ghost use Rattle.run_record.specs.Lines.{Line, SpeltCall};
ghost use Rattle.run_record.specs.Logs.{Shows};
ghost use Rattle.run_record.specs.Record.{Record, ObjectEntry, object_number, journal_of, list_of};
ghost use Rattle.run_record.specs.Waits.{IsOnCond, IsOnGroup, WasNotified, IsNotifiedWait, ReturnsAtZero};
ghost use Rattle.run_record.specs.Weights.{IsOnSema, ServesAll};

use crate::entered::{ObjectEvent, ObjectReply};
use crate::laws::edges::a_list_keeps_the_order_of_its_journals;
use crate::made::Made;
use script_calls::{Call, Operation, Outcome, Reply};
use sema_core::{SemaCore, SemaEvent, SemaReply};
use sync_model::Answer;
use sync_model::laws::journals::journal_is_log;
use sync_model::laws::logs::logs_go_on;
use sync_types::CondCall;
use wait_cores::{GroupCore, GroupEvent, GroupReply, NotifyCore, NotifyEvent};
use workload::{ObjectKind, ObjectLine};

/// Whoever leaves a cond was notified: between its ticket and its leaving, by which its `wait` goes on, somebody signals or
/// broadcasts, and it knows from then on what that one knew. More exactly, so many signals stand between, or a broadcast, as
/// the ticket needs, since signals notify in the order of the tickets.
pub fn whoever_leaves_a_cond_was_notified()
    ensures notified { (plan : Plan) (r : Record) (place mutex taken left : ℕ) (object : ObjectLine) (ticket leaving : ObjectEntry)
        → IsRecordOf plan r → slice_get plan.objects place ≡ Some object → object.kind ≡ ObjectKind.Cond mutex
        → taken < left → slice_get (journal_of r (object_number place)) taken ≡ Some ticket → slice_get (journal_of r (object_number place)) left ≡ Some leaving
        → IsOnCond NotifyEvent.Ticket ticket → IsOnCond NotifyEvent.Leave leaving → ticket.caller ≡ leaving.caller
        → WasNotified (journal_of r (object_number place)) taken left leaving }
    ensures in_turn { (plan : Plan) (r : Record) (place mutex : ℕ) (object : ObjectLine)
        → IsRecordOf plan r → slice_get plan.objects place ≡ Some object → object.kind ≡ ObjectKind.Cond mutex
        → (log : notify.Log) × Shows ObjectEvent.Cond ObjectReply.Cond (journal_of r (object_number place)) log
        × ((earlier between later : notify.Log) (caller : ℕ) → log ≡ earlier ++ notify.ticket_by caller ∷ (between ++ notify.leave_by caller ∷ later)
        → notify.NotifiesAfter (notify.pending_of (notify.state_after plan.workers earlier)) between) }
{
    journal_is_log::<NotifyCore>();
    wait_cores::laws::notify::synchronizes();
    wait_cores::laws::notify::leaves_when_notified();
}

/// A `wait` on a cond that returned was notified. Its items begin with the ticket that its worker took, and have the leaving behind
/// it; between the two, in the cond's journal, somebody signals or broadcasts, and the worker knows from then on what that one knew.
/// So it is of the items of each completed `wait` of a run, and of those in any worker's list that spell one.
pub fn a_wait_that_returned_was_notified()
    ensures completed { (plan : Plan) (outcome : Outcome) (r : Record) (explains : Explains plan outcome r) (worker i mutex : ℕ) (line : Line) (wait : SpeltCall) (object : ObjectLine)
        → slice_get explains.lines worker ≡ Some line → slice_get line.spelt i ≡ Some wait
        → slice_get plan.objects wait.call.object ≡ Some object → object.kind ≡ ObjectKind.Cond mutex → wait.call.operation ≡ Operation.Cond CondCall.Wait
        → IsNotifiedWait r (object_number wait.call.object) wait.items }
    ensures in_a_list { (plan : Plan) (r : Record) (worker before mutex : ℕ) (object : ObjectLine) (call : Call) (given : Reply ℕ) (items earlier later : List Made)
        → IsRecordOf plan r → slice_get plan.objects call.object ≡ Some object → object.kind ≡ ObjectKind.Cond mutex → call.operation ≡ Operation.Cond CondCall.Wait
        → list_of r worker ≡ earlier ++ (items ++ later) → SpellsCall plan worker before call items (Answer.Done (Ok given))
        → IsNotifiedWait r (object_number call.object) items }
{
    a_list_keeps_the_order_of_its_journals();
    whoever_leaves_a_cond_was_notified();
}

/// A wait on a wait group returns only behind additions that brought the counter to 0, and its caller knows from then on what
/// the caller of each earlier `done`, and of each earlier `add` below 0, knew.
pub fn a_group_waits_for_zero()
    ensures zero { (plan : Plan) (r : Record) (place declared : ℕ) (object : ObjectLine)
        → IsRecordOf plan r → slice_get plan.objects place ≡ Some object → object.kind ≡ ObjectKind.WaitGroup declared
        → (log : group.Log) × Shows ObjectEvent.WaitGroup ObjectReply.WaitGroup (journal_of r (object_number place)) log × ReturnsAtZero plan.workers declared log }
    ensures returned { (plan : Plan) (r : Record) (place m n below : ℕ) (added returned : ObjectEntry)
        → IsRecordOf plan r → m < n → slice_get (journal_of r (object_number place)) m ≡ Some added → slice_get (journal_of r (object_number place)) n ≡ Some returned
        → IsOnGroup (GroupEvent.Add (negsuc below)) GroupReply.Done added → IsOnGroup GroupEvent.Wait GroupReply.Done returned
        → AtLeast returned.front added.front }
    ensures left { (plan : Plan) (r : Record) (place m n below : ℕ) (added leaving : ObjectEntry)
        → IsRecordOf plan r → m < n → slice_get (journal_of r (object_number place)) m ≡ Some added → slice_get (journal_of r (object_number place)) n ≡ Some leaving
        → IsOnGroup (GroupEvent.Add (negsuc below)) GroupReply.Done added → IsOnGroup GroupEvent.Leave GroupReply.Done leaving
        → AtLeast leaving.front added.front }
{
    journal_is_log::<GroupCore>();
    logs_go_on::<GroupCore>();
    wait_cores::laws::group::waits_for_zero();
    wait_cores::laws::group::counts_additions();
}

/// A semaphore never holds more than its size, and serves those who wait in the order in which they came: nobody passes one who
/// waits in front, and where somebody waits, the weight of the first in line doesn't fit beside what is held. Whoever has its weight,
/// at once or once it is granted, knows from then on what the caller of each earlier release knew.
pub fn a_semaphore_serves_in_order()
    ensures serves { (plan : Plan) (r : Record) (place size : ℕ) (object : ObjectLine)
        → IsRecordOf plan r → slice_get plan.objects place ≡ Some object → object.kind ≡ ObjectKind.Sema size
        → (log : sema.Log) × Shows ObjectEvent.Sema ObjectReply.Sema (journal_of r (object_number place)) log × ServesAll plan.workers size log }
    ensures knows { (plan : Plan) (r : Record) (place m n weight : ℕ) (event : SemaEvent) (released had : ObjectEntry)
        → IsRecordOf plan r → m < n → slice_get (journal_of r (object_number place)) m ≡ Some released → slice_get (journal_of r (object_number place)) n ≡ Some had
        → IsOnSema (SemaEvent.Release weight) SemaReply.Done released → IsOnSema event SemaReply.Done had → sema_acquires event SemaReply.Done ≡ true
        → AtLeast had.front released.front }
{
    journal_is_log::<SemaCore>();
    logs_go_on::<SemaCore>();
    sema_core::laws::holds_no_more_than_its_size();
    sema_core::laws::counts_weights();
    sema_core::laws::serves_in_order();
    sema_core::laws::leaves_no_weight_idle();
}
