//! What the calls answer, by what their protocol gives.
ghost use Rattle.std.specs.Prelude.{◌≡◌};
ghost use Rattle.protocols.specs.declared.once.OnceStage.TheVariants.{Begin};
ghost use Rattle.protocols.specs.OnceStages.{once_gives};
ghost use Rattle.call_loop.specs.Calls.{IsGiven, told};
ghost use Rattle.go_waits.specs.Answers.{done_answer, started_of, IsBegunBy};

use crate::once_begun::{OnceBegun, Running};
use protocols::OnceOutcome;
use starts_core::StartsOutcome;
use sync_model::Answer;
use sync_types::Misuse;

// Of a call that gives nothing but that it is done.
pub(crate) fn done<O: Drop>(answer: Answer<Result<O, Misuse>>) -> Answer<()>
    ensures { result ≡ done_answer answer }
{
    match answer {
        Answer::Done(_) => Answer::Done(()),
        Answer::Halted(misuse) => Answer::Halted(misuse),
    }
}

// Of this caller's beginning.
pub(crate) fn begun<T: Copy>(
    answer: Answer<Result<OnceOutcome<T>, Misuse>>,
    caller: u32,
) -> Answer<OnceBegun<T>>
    requires { IsGiven (once_gives Begin) answer }
    ensures { IsBegunBy answer caller result }
{
    match answer {
        Answer::Done(Ok(OnceOutcome::Run)) => Answer::Done(OnceBegun::Run(Running { caller })),
        Answer::Done(Ok(OnceOutcome::Already(kept))) => Answer::Done(OnceBegun::Already(kept)),
        Answer::Done(_) => unreachable!(),
        Answer::Halted(misuse) => Answer::Halted(misuse),
    }
}

// Of a worker that waited to be started: whether it was.
pub(crate) fn started(answer: Answer<Result<StartsOutcome, Misuse>>) -> Answer<bool>
    ensures { result ≡ told started_of answer }
{
    match answer {
        Answer::Done(Ok(StartsOutcome::Started(started))) => Answer::Done(started),
        Answer::Done(_) => Answer::Done(false),
        Answer::Halted(misuse) => Answer::Halted(misuse),
    }
}
