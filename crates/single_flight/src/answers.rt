//! What the calls answer, by what their protocol gives.
ghost use Rattle.std.specs.Prelude.{◌≡◌};
ghost use Rattle.flight_core.specs.declared.calls.FlightStage.TheVariants.{Join};
ghost use Rattle.flight_core.specs.FlightStages.{flight_gives};
ghost use Rattle.call_loop.specs.Calls.{IsGiven};
ghost use Rattle.single_flight.specs.Answers.{land_answer, IsBegunBy};

use crate::begun::{Begun, Flight};
use flight_core::FlightOutcome;
use sync_model::Answer;
use sync_types::Misuse;

// Of this caller's coming for a key.
pub(crate) fn begun(answer: Answer<Result<FlightOutcome, Misuse>>, caller: u32) -> Answer<Begun>
    requires { IsGiven (flight_gives (Join 0)) answer }
    ensures { IsBegunBy answer caller result }
{
    match answer {
        Answer::Done(Ok(FlightOutcome::Lead)) => Answer::Done(Begun::Lead(Flight { caller })),
        Answer::Done(Ok(FlightOutcome::Got(value))) => Answer::Done(Begun::Got(value)),
        Answer::Done(_) => unreachable!(),
        Answer::Halted(misuse) => Answer::Halted(misuse),
    }
}

// Of a landing.
pub(crate) fn landed(answer: Answer<Result<FlightOutcome, Misuse>>) -> Answer<bool>
    ensures { result ≡ land_answer answer }
{
    match answer {
        Answer::Done(Ok(FlightOutcome::Landed(shared))) => Answer::Done(shared),
        Answer::Done(_) => Answer::Done(false),
        Answer::Halted(misuse) => Answer::Halted(misuse),
    }
}
