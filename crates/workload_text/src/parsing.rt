//! A whole text.
ghost use Rattle.std.specs.Prelude.{◌≡◌, ◌+◌, ◌-◌, ◌≤◌, ◌∷◌, true, max, map, length, MatchResult, IfOk, IfErr, None, Some};
ghost use Rattle.workload.specs.Lines.{lines_of, words_of, is_significant};
ghost use Rattle.workload.specs.Checks.{checks_of, word_checks};
ghost use Rattle.workload_text.specs.LineResult.{IsFault, IsSound, IsUnsound};
ghost use Rattle.workload.specs.Reads.{Continues, IsRead, ReadsOn, Reads, ReadsIn, IsFirstFault, fault_at, IsFaultOf, IsFaultIn};
ghost use Rattle.workload.specs.declared.limits.TheConstants.{MAX_INPUT};

use crate::reading::{read_line, read_workers};
use crate::text::{is_clean, is_short, is_significant, split_line, split_words};
use std::alloc::Global;
use workload::draft::Draft;
use workload::fault::{LineFault, ParseFault};
use workload::keyword::Dialect;
use workload::limits::MAX_INPUT;
use workload::reason::Reason;
use workload::workload::Workload;

/// The draft behind a significant line: its first word and the others.
fn take_words(
    alloc: Global,
    dialect: Dialect,
    before: Option<Draft>,
    word: &[u8],
    arguments: &[&[u8]],
) -> Result<Option<Draft>, LineFault>
    ensures { MatchResult result (Continues dialect before (word.now ∷ map (λ word. word.now) arguments.now)) (IsFault (word_checks dialect before (word.now ∷ map (λ word. word.now) arguments.now))) }
{
    match before {
        None => {
            let workers = read_workers(word, arguments)?;
            Ok(Some(Draft::start(alloc, workers)?))
        }
        Some(draft) => {
            let line = read_line(alloc, dialect, &draft, word, arguments)?;
            Ok(Some(draft.with_line(alloc, line)?))
        }
    }
}

/// Whether a line is significant, where it has no fault of its own, whatever stands before it.
fn check_line(line: &[u8]) -> Result<bool, LineFault>
    ensures { MatchResult result (IsSound line.now) (IsUnsound line.now) }
{
    if !is_short(line) {
        return Err(LineFault::Refused(Reason::LineTooLong));
    }
    if !is_clean(line) {
        return Err(LineFault::Refused(Reason::BadByte));
    }
    Ok(is_significant(line))
}

/// The draft behind a significant line. Its words are cut into the list.
fn take_line<'a>(
    alloc: Global,
    dialect: Dialect,
    words: &mut Vec<&'a [u8]>,
    before: Option<Draft>,
    line: &'a [u8],
) -> Result<Option<Draft>, LineFault>
    requires { IsSound line.now true }
    ensures { MatchResult result (IsRead dialect before line.now) (IsFault (checks_of dialect before line.now)) }
{
    split_words(words, line)?;
    let Some((word, arguments)) = words.split_first() else {
        return Ok(before);
    };
    take_words(alloc, dialect, before, word, arguments)
}

/// The fault of the text that a fault of its line is.
fn at_line(line: u32, fault: LineFault) -> ParseFault
    ensures { result ≡ fault_at line fault }
{
    match fault {
        LineFault::Refused(reason) => ParseFault::Refused { line, reason },
        LineFault::Memory => ParseFault::Memory,
    }
}

/// The draft of all lines of a text, of which there is none where no line is significant.
fn read_lines(alloc: Global, dialect: Dialect, bytes: &[u8]) -> Result<Draft, ParseFault>
    requires { length bytes.now ≤ MAX_INPUT }
    ensures { MatchResult result (λ draft. ReadsOn dialect (lines_of bytes.now) None draft.plan) (IsFirstFault dialect (lines_of bytes.now)) }
{
    let mut words = Vec::new(alloc);
    let mut draft = None;
    let mut next: u32 = 1;
    let mut rest = bytes;
    while !rest.is_empty() {
        let (line, behind) = split_line(rest);
        match check_line(line) {
            Err(unsound) => return Err(at_line(next, unsound)),
            Ok(false) => {}
            Ok(true) => match take_line(alloc, dialect, &mut words, draft, line) {
                Ok(after) => draft = after,
                Err(fault) => return Err(at_line(next, fault)),
            },
        }
        next += 1;
        rest = behind;
    }
    match draft {
        Some(draft) => Ok(draft),
        None => Err(ParseFault::Refused {
            line: (next - 1).max(1),
            reason: Reason::NoWorkersLine,
        }),
    }
}

/// Reads a text of a dialect.
fn parse_in(alloc: Global, dialect: Dialect, bytes: &[u8]) -> Result<Workload, ParseFault>
    ensures read { IfOk result (ReadsIn dialect bytes.now) }
    ensures refused { IfErr result (IsFaultIn dialect bytes.now) }
{
    if bytes.len() > MAX_INPUT {
        return Err(ParseFault::Refused {
            line: 0,
            reason: Reason::InputTooLong,
        });
    }
    Ok(read_lines(alloc, dialect, bytes)?.finish(alloc)?)
}

/// Reads a workload text of which a record tells: one without plain variables, weighted semaphores and flights.
///
/// The text is split at line feeds; a blank line and one whose first word begins with `#` say nothing.
/// An `Err` is the first fault: the least line, and in it the first check that fails.
pub fn parse(alloc: Global, bytes: &[u8]) -> Result<Workload, ParseFault>
    ensures read { IfOk result (Reads bytes.now) }
    ensures refused { IfErr result (IsFaultOf bytes.now) }
{
    parse_in(alloc, Dialect::Plain, bytes)
}

/// Reads a workload text that may also have weighted semaphores and flights: the text of a run.
pub fn parse_run(alloc: Global, bytes: &[u8]) -> Result<Workload, ParseFault>
    ensures read { IfOk result (ReadsIn Dialect.Runs bytes.now) }
    ensures refused { IfErr result (IsFaultIn Dialect.Runs bytes.now) }
{
    parse_in(alloc, Dialect::Runs, bytes)
}

/// Reads a workload text that may also have plain variables, which are read and written without a lock: the text of a run
/// whose races are asked for.
pub fn parse_race(alloc: Global, bytes: &[u8]) -> Result<Workload, ParseFault>
    ensures read { IfOk result (ReadsIn Dialect.Races bytes.now) }
    ensures refused { IfErr result (IsFaultIn Dialect.Races bytes.now) }
{
    parse_in(alloc, Dialect::Races, bytes)
}
