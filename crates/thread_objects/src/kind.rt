//! What the code of a kind is.
ghost use Rattle.std.specs.Prelude.{◌≡◌, ℕ, ◌<◌, ◌≤◌, true, Some, IfOk, IfSome, IfNone};
ghost use Rattle.workload.specs.Draft.{is_kind};
ghost use Rattle.workload.specs.Keys.{keys_in, operation_number};
ghost use Rattle.workload.specs.Plan.{refers, word_of};
ghost use Rattle.sync_model.specs.Shared.{IsCallerAt, items_of};
ghost use Rattle.run_record.specs.Calls.{call_on};
ghost use Rattle.run_record.specs.Record.{object_number};
ghost use Rattle.thread_objects.specs.Calling.{HasCalled};
ghost use Rattle.thread_objects.specs.Catalog.{HasAtomics};
ghost use Rattle.thread_objects.specs.GivenUp.{GaveUp};
ghost use Rattle.thread_objects.specs.Working.{Works, desk_at};
ghost use Rattle.thread_objects.specs.Alone.{IsCallAlone};
ghost use Rattle.thread_objects.specs.EachKind.{Kind, own_in};
ghost use Rattle.thread_objects.specs.Passes.{SeatOf};

use crate::parts::{CallAnswer, Catalog, Worker};
use protocols::Protocol;
use ruled_object::{Object, PassOf};
use script_calls::Operation;
use std::alloc::{AllocError, Global};
use std::sync::Wait;
use sync_model::{Caller, Shared, Worded};
use sync_outside::Clock;
use workload::ObjectKind;

/// A kind of object that a workload declares and that is one object of a run: how it begins, and a worker's calls on it. What
/// `specs/` says of it is `kind`. A map and an atomic are none, since all of them are shared as one, and neither is a pool, of
/// which each part is an object.
pub(crate) trait DeclaredKind: Protocol + Worded {
    // What is the kind's own.
    ghost kind: { Kind Self.State Self.Event Self.Reply Self.Stand };

    /// The state in which an object begins that is declared so. No other call takes memory.
    fn start(alloc: Global, workers: u32, declared: ObjectKind) -> Result<Self::State, AllocError>
        requires workers { (0 < workers) × (workers ≤ 64) }
        requires ranged { is_kind declared ≡ true }
        requires word { kind.word ≡ Some (word_of declared) }
        ensures starts { IfOk result (λ start. kind.starts workers declared ≡ Some start) }
        ensures begins { IfOk result (λ start. Self.begins workers start) };

    /// Makes a call on an object that is declared so, which has it; `key` is the number of its key. It may be on maps and atomics too,
    /// and may wait. `None`, where it gives the call up, since it has seen what can't be.
    fn call<S: Shared, C: Clock, R: Wait>(
        rt: &R,
        worker: &Worker<S::Mark, C>,
        catalog: &Catalog<S>,
        caller: &mut Caller<S::Mark>,
        object: &Object<Self, S::Mark>,
        pass: &mut PassOf<Self, S::Mark>,
        declared: ObjectKind,
        operation: &Operation,
        key: u32,
    ) -> Option<CallAnswer>
        requires alone { IsCallAlone declared operation.now }
        requires key { key ≡ operation_number (keys_in catalog.now.workload.now.scripts) operation.now }
        requires word { kind.word ≡ Some (word_of declared) }
        requires reference { refers catalog.now.workload.now.objects declared ≡ true }
        requires atomics { HasAtomics catalog.now.workload.now (S.kinds catalog.now.shared.now) catalog.now.numbers.now }
        requires seat { SeatOf S.Mark.at worker.now.at.home.now worker.now.workers worker.now.number kind object.now pass.old }
        requires caller { IsCallerAt S.Mark.at S.Mark.own (S.home_of catalog.now.shared.now) caller.old }
        requires note { S.Mark.at worker.now.at.home.now caller.old.note }
        ensures seat { SeatOf S.Mark.at worker.now.at.home.now worker.now.workers worker.now.number kind object.now pass.new }
        ensures called { HasCalled S.Mark.at S.Mark.own catalog.now.workload.now 0 caller.old.note caller.new.note }
        ensures given_up { IfNone result (GaveUp catalog.now.workload.now (items_of (S.Mark.own caller.new.note))) }
        ensures works { IfSome result (λ answer. (before place : ℕ)
            → Works (call_on catalog.now.workload.now worker.now.number before place declared operation.now) (desk_at S.Mark.own S.Mark.front (object_number place) (own_in kind pass.old) caller.old.note) answer (desk_at S.Mark.own S.Mark.front (object_number place) (own_in kind pass.new) caller.new.note)) };
}
