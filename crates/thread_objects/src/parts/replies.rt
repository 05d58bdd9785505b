//! What a call of a workload answers, by the outcome of its part: of the kinds that answer alike.
ghost use Rattle.std.specs.Prelude.{◌≡◌};
ghost use Rattle.run_record.specs.Parts.{with_outcome};
ghost use Rattle.thread_objects.specs.Replies.{of_lock, returned, gone_on};

use crate::parts::answer::CallAnswer;
use script_calls::Reply;
use sync_model::Answer;
use sync_types::{LockReply, Misuse};

/// Of a lock.
pub fn lock_reply(answer: Answer<Result<LockReply, Misuse>>) -> CallAnswer
    ensures { result ≡ with_outcome of_lock answer }
{
    match answer {
        Answer::Done(Ok(outcome)) => Answer::Done(Ok(Reply::Lock(outcome))),
        Answer::Done(Err(misuse)) => Answer::Done(Err(misuse)),
        Answer::Halted(misuse) => Answer::Halted(misuse),
    }
}

/// Of a call that only returns.
pub fn returned(answer: Answer<Result<(), Misuse>>) -> CallAnswer
    ensures { result ≡ with_outcome returned answer }
{
    match answer {
        Answer::Done(Ok(())) => Answer::Done(Ok(Reply::Returned)),
        Answer::Done(Err(misuse)) => Answer::Done(Err(misuse)),
        Answer::Halted(misuse) => Answer::Halted(misuse),
    }
}

/// Of a part behind which another comes: its outcome. Where it was a misuse or met a halt, the call ends with that answer.
pub fn gone_on<T>(answer: Answer<Result<T, Misuse>>) -> Result<T, CallAnswer>
    ensures { result ≡ gone_on answer }
{
    match answer {
        Answer::Done(Ok(outcome)) => Ok(outcome),
        Answer::Done(Err(misuse)) => Err(Answer::Done(Err(misuse))),
        Answer::Halted(misuse) => Err(Answer::Halted(misuse)),
    }
}
