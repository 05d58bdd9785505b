//! What a lock's calls answer, by what its protocol gives.
ghost use Rattle.std.specs.Prelude.{◌≡◌};
ghost use Rattle.go_locks.specs.MutexAnswers.{lock_answer, try_answer, unlock_answer};

use sync_model::Answer;
use sync_types::{LockReply, Misuse};

// Of a lock.
pub(crate) fn locked(answer: Answer<Result<LockReply, Misuse>>) -> Answer<()>
    ensures { result ≡ lock_answer answer }
{
    match answer {
        Answer::Done(_) => Answer::Done(()),
        Answer::Halted(misuse) => Answer::Halted(misuse),
    }
}

// Of a try.
pub(crate) fn tried(answer: Answer<Result<LockReply, Misuse>>) -> Answer<bool>
    ensures { result ≡ try_answer answer }
{
    match answer {
        Answer::Done(Ok(LockReply::Tried(acquired))) => Answer::Done(acquired),
        Answer::Done(_) => Answer::Done(false),
        Answer::Halted(misuse) => Answer::Halted(misuse),
    }
}

// Of an unlock.
pub(crate) fn unlocked(answer: Answer<Result<LockReply, Misuse>>) -> Answer<Result<(), Misuse>>
    ensures { result ≡ unlock_answer answer }
{
    match answer {
        Answer::Done(Ok(_)) => Answer::Done(Ok(())),
        Answer::Done(Err(misuse)) => Answer::Done(Err(misuse)),
        Answer::Halted(misuse) => Answer::Halted(misuse),
    }
}
