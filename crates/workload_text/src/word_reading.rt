//! The words of a line that stand for one thing.
ghost use Rattle.std.specs.Prelude.{◌≡◌, ◌<◌, ◌∷◌, [], ◌≤◌, true, map, MatchResult, Some, None};
ghost use Rattle.std.specs.Fmt.{decimal, signed_decimal};
ghost use Rattle.sync_types.specs.Name.{is_name};
ghost use Rattle.sync_types.specs.SequentialAtomic.{is_of};
ghost use Rattle.workload.specs.NumberWords.{is_number_to, is_amount_word, is_passes, is_passes_word, is_tries, is_tries_word, is_weight, is_weight_word, is_number_word, number_of, number_word};
ghost use Rattle.workload.specs.Plan.{is_amount};
ghost use Rattle.workload.specs.Checks.{first_failing, operand_check, worker_checks, start_checks};
ghost use Rattle.workload.specs.Draft.{may_start};
ghost use Rattle.workload_text.specs.LineResult.{IsFault, IsOperands};
ghost use Rattle.workload.specs.declared.limits.TheConstants.{MAX_SIZE, MAX_WORKERS};
ghost use Rattle.sync_types.specs.declared.value.TheConstants.{MAX_VALUE};

use crate::number::{amount, atomic_number, is_number, number};
use script_calls::{ComposedCall, Operation};
use std::alloc::Global;
use sync_types::name::is_name;
use sync_types::{AtomicKind, MAX_VALUE, Name, Number};
use workload::draft::Draft;
use workload::fault::LineFault;
use workload::keyword::Operand;
use workload::laws::checks_go_in_order;
use workload::limits::{MAX_PASSES, MAX_TRIES};
use workload::reason::Reason;

/// Refuses a word that is no name.
pub fn check_name(word: &[u8]) -> Result<(), LineFault>
    ensures { MatchResult result (λ _. is_name word.now ≡ true) (IsFault ((is_name word.now, Reason.BadName) ∷ [])) }
{
    if !is_name(word) {
        return Err(LineFault::Refused(Reason::BadName));
    }
    Ok(())
}

/// The name that a word is.
pub fn read_name(alloc: Global, word: &[u8]) -> Result<Name, LineFault>
    ensures { MatchResult result (λ name. (is_name word.now ≡ true) × (name ≡ word.now)) (IsFault ((is_name word.now, Reason.BadName) ∷ [])) }
{
    if !is_name(word) {
        return Err(LineFault::Refused(Reason::BadName));
    }
    Ok(Name::from_bytes(alloc, word)?)
}

/// A value of a map, a pool or a plain variable.
pub fn read_value(word: &[u8]) -> Result<u64, LineFault>
    ensures { MatchResult result (λ value. (decimal value ≡ word.now) × (value ≤ MAX_VALUE) × (is_number_to MAX_VALUE word.now ≡ true)) (IsFault (operand_check Operand.Value word.now ∷ [])) }
{
    match number(word, MAX_VALUE) {
        None => Err(LineFault::Refused(Reason::BadNumber)),
        Some(value) => Ok(value),
    }
}

/// A number of an atomic of this type.
pub fn read_number(kind: AtomicKind, word: &[u8]) -> Result<Number, LineFault>
    ensures { MatchResult result (λ n. (number_word n ≡ word.now) × (is_of kind n ≡ true) × (is_number_word kind word.now ≡ true)) (IsFault (operand_check (Operand.Number kind) word.now ∷ [])) }
{
    match atomic_number(kind, word) {
        None => Err(LineFault::Refused(Reason::BadNumber)),
        Some(number) => Ok(number),
    }
}

/// An amount.
pub fn read_amount(word: &[u8]) -> Result<i32, LineFault>
    ensures { MatchResult result (λ amount. (signed_decimal amount ≡ word.now) × (is_amount amount ≡ true) × (is_amount_word word.now ≡ true)) (IsFault ((is_amount_word word.now, Reason.BadNumber) ∷ [])) }
{
    match amount(word) {
        None => Err(LineFault::Refused(Reason::BadNumber)),
        Some(amount) => Ok(amount),
    }
}

/// How many calls are passed over.
pub fn read_passes(word: &[u8]) -> Result<u32, LineFault>
    ensures { MatchResult result (λ passes. (decimal passes ≡ word.now) × (is_passes passes ≡ true) × (is_passes_word word.now ≡ true)) (IsFault (operand_check Operand.Passes word.now ∷ [])) }
{
    match number(word, MAX_PASSES) {
        Some(passes) if passes > 0 => Ok(passes as u32),
        _ => Err(LineFault::Refused(Reason::BadNumber)),
    }
}

/// How many waits may be made.
pub fn read_tries(word: &[u8]) -> Result<u32, LineFault>
    ensures { MatchResult result (λ tries. (decimal tries ≡ word.now) × (is_tries tries ≡ true) × (is_tries_word word.now ≡ true)) (IsFault (operand_check Operand.Tries word.now ∷ [])) }
{
    match number(word, MAX_TRIES) {
        Some(tries) if tries > 0 => Ok(tries as u32),
        _ => Err(LineFault::Refused(Reason::BadNumber)),
    }
}

/// A weight of 1 to `most`, or a size.
pub fn read_weight(most: u64, word: &[u8]) -> Result<u64, LineFault>
    requires { most ≤ MAX_SIZE }
    ensures { MatchResult result (λ weight. (decimal weight ≡ word.now) × (is_weight most weight ≡ true) × (is_weight MAX_SIZE weight ≡ true) × (is_weight_word most word.now ≡ true)) (IsFault (operand_check (Operand.Weight most) word.now ∷ [])) }
{
    match number(word, most) {
        Some(weight) if weight > 0 => Ok(weight),
        _ => Err(LineFault::Refused(Reason::BadNumber)),
    }
}

/// A number of an object's line, which is at most `most`.
pub fn read_number_to(most: u64, word: &[u8]) -> Result<u64, LineFault>
    ensures { MatchResult result (λ n. (decimal n ≡ word.now) × (n ≤ most) × (is_number_to most word.now ≡ true)) (IsFault ((is_number_to most word.now, Reason.BadNumber) ∷ [])) }
{
    match number(word, most) {
        None => Err(LineFault::Refused(Reason::BadNumber)),
        Some(number) => Ok(number),
    }
}

/// The number of a worker of whom there are so many.
pub fn read_worker(workers: u32, word: &[u8]) -> Result<u32, LineFault>
    ensures { MatchResult result (λ worker. (decimal worker ≡ word.now) × (worker < workers) × (first_failing (worker_checks workers word.now) ≡ None) × (number_of word.now ≡ worker)) (IsFault (worker_checks workers word.now)) }
{
    if !is_number(word) {
        return Err(LineFault::Refused(Reason::BadNumber));
    }
    match number(word, u64::from(u32::MAX)) {
        Some(worker) if worker < u64::from(workers) => Ok(worker as u32),
        _ => Err(LineFault::Refused(Reason::NoSuchWorker)),
    }
}

/// The number of a worker that waits to be started, and that no call starts yet.
pub fn read_start(draft: &Draft, word: &[u8]) -> Result<u32, LineFault>
    ensures { MatchResult result (λ worker. (decimal worker ≡ word.now) × (worker < MAX_WORKERS) × (may_start draft.now (Operation.Composed (ComposedCall.Go worker)) ≡ true)) (IsFault (start_checks draft.now word.now)) }
{
    checks_go_in_order();
    let worker = read_worker(draft.workers(), word)?;
    if !draft.is_dormant(worker) {
        return Err(LineFault::Refused(Reason::NotDormant));
    }
    if draft.is_started(worker) {
        return Err(LineFault::Refused(Reason::NameTaken));
    }
    Ok(worker)
}

/// No operands.
pub fn read_none(words: &[&[u8]]) -> Result<(), LineFault>
    ensures { IsOperands (λ _. map (λ word. word.now) words.now ≡ []) [] (map (λ word. word.now) words.now) result }
{
    let [] = words else {
        return Err(LineFault::Refused(Reason::WrongNumberOfWords));
    };
    Ok(())
}
