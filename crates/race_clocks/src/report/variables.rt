//! The variables of a workload in the report of its run.
ghost use Rattle.std.specs.Prelude.{◌≡◌, ◌++◌, ℕ, map, IfOk, OnOk};
ghost use Rattle.script_calls.specs.Outcome.{shows_to};
ghost use Rattle.race_clocks.specs.Variables.{variable_end, with_variables};

use script_calls::{Outcome, Report};
use std::alloc::AllocError;
use step_runner::VariableEnd;
use sync_types::{End, Number, Seq};

/// What a variable holds at the end, as an end of the report.
fn variable_end(variable: VariableEnd) -> End
    ensures { result ≡ variable_end variable }
{
    End::Number {
        object: variable.object,
        number: Number::Uint64(variable.value),
    }
}

/// Adds what the variables hold behind the other ends.
fn push_variables(ends: &mut Seq<End>, variables: &[VariableEnd]) -> Result<(), AllocError>
    ensures { OnOk result (ends.new ≡ ends.old ++ map variable_end variables.now) }
{
    for variable in variables {
        ends.push(variable_end(*variable))?;
    }
    Ok(())
}

/// What a run came to, with the variables behind its other ends, where every script has ended.
pub fn with_variables(outcome: Outcome, variables: &[VariableEnd]) -> Result<Outcome, AllocError>
    ensures with { IfOk result (λ more. more ≡ with_variables variables.now outcome) }
    ensures pairs { (most : ℕ) → IfOk result (λ more. shows_to most more ≡ shows_to most outcome) }
{
    match outcome {
        Outcome::Done(Report { replies, mut ends }) => {
            push_variables(&mut ends, variables)?;
            Ok(Outcome::Done(Report { replies, ends }))
        }
        Outcome::Misused(..) | Outcome::Deadlocked(_) => Ok(outcome),
    }
}
