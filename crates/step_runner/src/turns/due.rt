//! The stage that a worker's call is at, by where the worker stands at the object: none, where it waits and
//! isn't told to go on. With it, what an outcome makes of the call.
ghost use Rattle.std.specs.Prelude.{◌≡◌, ◌*◌, ◌<◌, ◌≤◌};
ghost use Rattle.pool_core.specs.Looks.{look};
ghost use Rattle.run_record.specs.OnceKind.{failure};
ghost use Rattle.run_record.specs.PoolKind.{stage_of};
ghost use Rattle.step_runner.specs.Due.{mutex_due, rw_due, locked, returned, cond_due, cond_answer, once_due, ran_or, flight_due, flown};
ghost use Rattle.step_runner.specs.Stages.{answer_by};

use crate::turns::answer::Answer;
use flight_core::{FlightOutcome, FlightPlace, FlightStage};
use mutex_core::Place as MutexPlace;
use protocols::{CondStage, MutexStage, OnceOutcome, OnceStage, PoolStage, RwMutexStage};
use rw_core::Place as RwPlace;
use script_calls::Reply;
use sync_types::{CondCall, DoReply, LockReply, MutexCall, RwMutexCall};
use wait_cores::{NotifyPlace, OncePlace};

/// Of a call of a mutex: its first stage where the worker is out, and the going on where it was woken or
/// handed the mutex.
pub(crate) fn mutex_due(call: MutexCall, place: MutexPlace) -> Option<MutexStage>
    ensures { result ≡ mutex_due call place }
{
    match place {
        MutexPlace::Out => Some(match call {
            MutexCall::Lock => MutexStage::Lock,
            MutexCall::Unlock => MutexStage::Unlock,
            MutexCall::TryLock => MutexStage::TryLock,
        }),
        MutexPlace::Waiting => None,
        MutexPlace::Woken | MutexPlace::Handed => Some(MutexStage::Resume),
    }
}

/// Of a call of a reader/writer mutex. A writer that was granted the lock, and a reader that was admitted,
/// leave.
pub(crate) fn rw_due(call: RwMutexCall, place: RwPlace) -> Option<RwMutexStage>
    ensures { result ≡ rw_due call place }
{
    match place {
        RwPlace::Queued | RwPlace::Waiting => None,
        RwPlace::Woken | RwPlace::Handed => Some(RwMutexStage::Inner),
        RwPlace::Granted => Some(RwMutexStage::Behind),
        RwPlace::Admitted => Some(RwMutexStage::LeaveReading),
        RwPlace::Out => Some(match call {
            RwMutexCall::Lock => RwMutexStage::Lock,
            RwMutexCall::Unlock => RwMutexStage::Unlock,
            RwMutexCall::TryLock => RwMutexStage::TryLock,
            RwMutexCall::RLock => RwMutexStage::RLock,
            RwMutexCall::RUnlock => RwMutexStage::RUnlock,
            RwMutexCall::TryRLock => RwMutexStage::TryRLock,
        }),
    }
}

/// The reply of a mutex, of a reader/writer mutex and of a semaphore.
pub(crate) fn locked(made: Result<LockReply, Answer>) -> Answer
    ensures { result ≡ answer_by locked made }
{
    match made {
        Ok(outcome) => Answer::Completed(Reply::Lock(outcome)),
        Err(answer) => answer,
    }
}

/// A call returned that has no reply.
pub(crate) fn returned(made: Result<(), Answer>) -> Answer
    ensures { result ≡ answer_by returned made }
{
    match made {
        Ok(()) => Answer::Completed(Reply::Returned),
        Err(answer) => answer,
    }
}

/// Of a call of a cond, by where the worker stands at the mutex and at the cond: the stage at the cond, if
/// there is one, and the one behind it at the mutex. A wait takes a ticket and unlocks the mutex; once it is
/// notified it leaves the cond and locks the mutex again, and there it goes on as a lock does.
pub(crate) fn cond_due(
    call: CondCall,
    at_mutex: MutexPlace,
    at_cond: NotifyPlace,
) -> (Option<CondStage>, Option<MutexStage>)
    ensures { result ≡ cond_due call at_mutex at_cond }
{
    match call {
        CondCall::Wait => match at_mutex {
            MutexPlace::Out => match at_cond {
                NotifyPlace::Out => (Some(CondStage::Ticket), Some(MutexStage::Unlock)),
                NotifyPlace::Waiting => (None, None),
                NotifyPlace::Notified => (Some(CondStage::Leave), Some(MutexStage::Lock)),
            },
            MutexPlace::Waiting => (None, None),
            MutexPlace::Woken | MutexPlace::Handed => (None, Some(MutexStage::Resume)),
        },
        CondCall::Signal => (Some(CondStage::Signal), None),
        CondCall::Broadcast => (Some(CondStage::Broadcast), None),
    }
}

/// A wait that gave the mutex up isn't completed, and one that has it again returns. The other calls return
/// at once.
pub(crate) fn cond_answer(
    call: CondCall,
    stage: Option<MutexStage>,
    made: Result<LockReply, Answer>,
) -> Answer
    ensures { result ≡ cond_answer call stage made }
{
    match call {
        CondCall::Wait => match made {
            Ok(_) => match stage {
                Some(MutexStage::Unlock) => Answer::Unfinished,
                _ => Answer::Completed(Reply::Returned),
            },
            Err(answer) => answer,
        },
        CondCall::Signal | CondCall::Broadcast => Answer::Completed(Reply::Returned),
    }
}

/// Of a call of a once: one that is out ends the function if it runs it, with what it comes to, and else
/// comes to have it run. One that was released leaves.
pub(crate) fn once_due<T: Copy>(value: T, runs: bool, place: OncePlace) -> Option<OnceStage<T>>
    ensures { result ≡ once_due value runs place }
{
    match place {
        OncePlace::Out => {
            if runs {
                Some(OnceStage::End(value))
            } else {
                Some(OnceStage::Begin)
            }
        }
        OncePlace::Waiting => None,
        OncePlace::Released => Some(OnceStage::Leave),
    }
}

/// What a `Do` answers, whose function came to this sum in the turn that ended it.
pub(crate) fn did(sum: i64, made: Result<OnceOutcome<i64>, Answer>) -> Answer
    ensures { result ≡ answer_by (ran_or (Reply.Once (DoReply.Ran sum)) (λ kept. Reply.Once DoReply.Done)) made }
{
    match made {
        Ok(OnceOutcome::Run) => Answer::Unfinished,
        Ok(OnceOutcome::Already(_)) => Answer::Completed(Reply::Once(DoReply::Done)),
        Ok(OnceOutcome::Ended) => Answer::Completed(Reply::Once(DoReply::Ran(sum))),
        Err(answer) => answer,
    }
}

/// The reply with this code: 0 stands for no failure.
fn failed(code: u32) -> Answer
    ensures { result ≡ Answer.Completed (Reply.OnceFunc (failure code)) }
{
    if code == 0 {
        Answer::Completed(Reply::OnceFunc(None))
    } else {
        Answer::Completed(Reply::OnceFunc(Some(code)))
    }
}

/// What a call of a `OnceFunc` answers, whose function came to this code.
pub(crate) fn func_returned(code: u32, made: Result<OnceOutcome<u32>, Answer>) -> Answer
    ensures { result ≡ answer_by (ran_or (Reply.OnceFunc (failure code)) (λ kept. Reply.OnceFunc (failure kept))) made }
{
    match made {
        Ok(OnceOutcome::Run) => Answer::Unfinished,
        Ok(OnceOutcome::Already(kept)) => failed(kept),
        Ok(OnceOutcome::Ended) => failed(code),
        Err(answer) => answer,
    }
}

/// What a call of a `OnceValue` answers, whose function came to this value.
pub(crate) fn value_returned(value: u64, made: Result<OnceOutcome<u64>, Answer>) -> Answer
    ensures { result ≡ answer_by (ran_or (Reply.OnceValue value) (λ kept. Reply.OnceValue kept)) made }
{
    match made {
        Ok(OnceOutcome::Run) => Answer::Unfinished,
        Ok(OnceOutcome::Already(kept)) => Answer::Completed(Reply::OnceValue(kept)),
        Ok(OnceOutcome::Ended) => Answer::Completed(Reply::OnceValue(value)),
        Err(answer) => answer,
    }
}

/// Of a call of flights, whose key has this number: one that is out comes for the key, and one that leads a flight lands with what the
/// function comes to. One whose flight has landed leaves.
pub(crate) fn flight_due(key: u32, value: i64, place: FlightPlace) -> Option<FlightStage>
    ensures { result ≡ flight_due key value place }
{
    match place {
        FlightPlace::Out => Some(FlightStage::Join(key)),
        FlightPlace::Leads(_) => Some(FlightStage::Land(value)),
        FlightPlace::Waits(_) => None,
        FlightPlace::Landed(_) => Some(FlightStage::Leave),
    }
}

/// What a call of flights answers, whose function comes to this value in the turn that lands.
pub(crate) fn flown(value: i64, made: Result<FlightOutcome, Answer>) -> Answer
    ensures { result ≡ answer_by (flown value) made }
{
    match made {
        Ok(FlightOutcome::Lead) => Answer::Unfinished,
        Ok(FlightOutcome::Got(got)) => Answer::Completed(Reply::Flown(got, true)),
        Ok(FlightOutcome::Landed(shared)) => Answer::Completed(Reply::Flown(value, shared)),
        Err(answer) => answer,
    }
}

/// Of a pool's get by a worker of so many: the look of this number.
pub(crate) fn look_due(workers: u32, worker: u32, number: u32) -> PoolStage
    requires few { workers ≤ 64 }
    requires worker { worker < workers }
    requires number { number < 2 * workers }
    ensures { result ≡ stage_of (look workers worker number) }
{
    if number == 0 {
        return PoolStage::LookOwn;
    }
    let part = (worker + number) % workers;
    if number < workers {
        PoolStage::LookOther(part)
    } else {
        PoolStage::LookVictim(part)
    }
}
