//! How the workers' lists end.
ghost use Rattle.std.specs.Prelude.{◌≡◌, ◌↔◌, [], map, All, IsTrue};
ghost use Rattle.run_record.specs.Explains.{HasEnded, IsAtEnd};
ghost use Rattle.list_checks.specs.SpellLines.{line_end};
ghost use Rattle.record_text.specs.Told.{Told};
ghost use Rattle.record_clauses.specs.Account.{Claim};
ghost use Rattle.record_clauses.specs.Verdicts as claims;
ghost use Rattle.run_check.specs.Found.{IsFoundOf};

use crate::spelling::Spelling;
use list_checks::spell::line::{Ending, SpeltLine};
use record_clauses::Clause;
use run_cuts::laws::a_spelling_is_blind;
use sync_types::Misuse;

/// Whether behind the clauses up to `edge` the clause `end` holds too, where this was found of the workers' lists: in a run that is done
/// each worker has come to the end of its script, or was never started.
pub fn has_ends(misused: Option<Misuse>, lines: &[SpeltLine]) -> bool
    ensures { (told : Told) (found : Spelling) (claim : Claim) → IsFoundOf told found claim → told.misused ≡ misused → found.lines ≡ lines.now
        → claims.UpTo claim Clause.Edge → (IsTrue result ↔ claims.UpTo claim Clause.End) }
{
    a_spelling_is_blind();
    match misused {
        None => are_at_end(lines),
        Some(_) => true,
    }
}

/// Whether each worker is at the end of its script, or was never started.
pub fn are_at_end(lines: &[SpeltLine]) -> bool
    ensures { IsTrue result ↔ All (λ line. IsAtEnd (line_end line.ending)) lines.now }
{
    for line in lines {
        if !is_at_end(line.ending) {
            return false;
        }
    }
    true
}

fn is_at_end(ending: Ending) -> bool
    ensures { IsTrue result ↔ IsAtEnd (line_end ending) }
{
    match ending {
        Ending::Whole | Ending::Never => true,
        Ending::Misused(_) | Ending::Halted(_) | Ending::Unfinished => false,
        Ending::Stopped(_) | Ending::Waits => false,
    }
}

/// Whether each worker has come to an end.
pub fn have_ended(lines: &[SpeltLine]) -> bool
    ensures { IsTrue result ↔ All (λ line. HasEnded (line_end line.ending)) lines.now }
{
    for line in lines {
        if !has_ended(line.ending) {
            return false;
        }
    }
    true
}

fn has_ended(ending: Ending) -> bool
    ensures { IsTrue result ↔ HasEnded (line_end ending) }
{
    match ending {
        Ending::Whole | Ending::Misused(_) | Ending::Halted(_) => true,
        Ending::Never | Ending::Stopped(_) => true,
        Ending::Unfinished | Ending::Waits => false,
    }
}
