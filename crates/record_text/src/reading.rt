//! A whole text.
ghost use Rattle.std.specs.Prelude.{◌≡◌, ◌+◌, ◌≤◌, ◌<◌, ◌^◌, length, MatchResult, IfOk, IfErr};
ghost use Rattle.workload.specs.Lines.{lines_of};
ghost use Rattle.record_text.specs.Reads.{told_by, IsReadBehind};
ghost use Rattle.record_text.specs.RecordLines.{IsBadFrom};
ghost use Rattle.record_text.specs.Refused.{IsCheckFault};
ghost use Rattle.record_text.specs.Told.{IsTold};

use crate::directory::Directory;
use crate::fault::{CheckFault, CheckReason};
use crate::item_line::ItemLine;
use crate::limits::MAX_RECORD;
use crate::line_reading::{RecordLine, read_record_line};
use crate::text::{count_lines, find_record, first_long, split_line};
use std::alloc::Global;
use sync_types::{Misuse, Seq};
use workload::{Reason, Workload};
use workload_text::parse;

/// What the text of a record says.
#[derive(Drop)]
pub struct RecordText<'a> {
    /// The workload.
    pub workload: Workload,
    /// The items, in the order of their lines.
    pub items: Seq<ItemLine>,
    /// The misuse that the run came to, unless it is done.
    pub misused: Option<Misuse>,
    /// The report: all that stands behind the line of the outcome.
    pub report: &'a [u8],
}

/// What stands behind the line `record`.
#[derive(Drop)]
pub struct Behind<'a> {
    items: Seq<ItemLine>,
    misused: Option<Misuse>,
    report: &'a [u8],
}

/// The fault of a line that is none of the forms, or passes a limit.
fn bad_line(line: u32) -> CheckFault
    ensures { result ≡ CheckFault.Refused line CheckReason.BadRecordLine }
{
    CheckFault::Refused {
        line,
        reason: CheckReason::BadRecordLine,
    }
}

/// Reads what stands behind the line `record`, of which the first line has this number.
#[tactic(auto, using(crate::proofs::BehindLemmas::none_read, crate::proofs::BehindLemmas::item_read, crate::proofs::BehindLemmas::bad_here, crate::proofs::BehindLemmas::long_behind, crate::proofs::BehindLemmas::none_left, crate::proofs::BehindLemmas::said))]
fn read_behind<'a>(
    alloc: Global,
    workload: &Workload,
    text: &'a [u8],
    first: u32,
) -> Result<Behind<'a>, CheckFault>
    requires some { 2 ≤ first }
    requires few { first + length text.now < 2 ^ 32 }
    ensures { MatchResult result (IsReadBehind workload.now (lines_of text.now)) (IsBadFrom workload.now (lines_of text.now) first) }
{
    let directory = Directory::of(alloc, workload)?;
    let mut items: Seq<ItemLine> = Seq::new(alloc);
    let mut next = first;
    let mut rest = text;
    while !rest.is_empty() {
        let (line, behind) = split_line(rest);
        match read_record_line(alloc, line, workload, &directory, items.len())? {
            None => return Err(bad_line(next)),
            Some(RecordLine::Item(item)) => items.push(item)?,
            Some(RecordLine::Outcome(misused)) => {
                return match first_long(behind, next + 1) {
                    Some(long) => Err(bad_line(long)),
                    None => Ok(Behind {
                        items,
                        misused,
                        report: behind,
                    }),
                };
            }
        }
        rest = behind;
        next += 1;
    }
    Err(bad_line(next - 1))
}

/// Reads the text of a record.
///
/// What stands before the first line `record` is read as `parse` reads it. An `Err` is the first fault.
#[tactic(auto, using(crate::proofs::TextLemmas::past_the_limit, crate::proofs::TextLemmas::unended_fault, crate::proofs::TextLemmas::unended, crate::proofs::TextLemmas::before_fault, crate::proofs::TextLemmas::behind_fault, crate::proofs::TextLemmas::told))]
pub fn read_record(alloc: Global, bytes: &[u8]) -> Result<RecordText<'_>, CheckFault>
    ensures read { IfOk result (λ text. IsTold bytes.entry.now (told_by text)) }
    ensures refused { IfErr result (IsCheckFault bytes.entry.now) }
{
    if bytes.len() > MAX_RECORD {
        return Err(CheckFault::Refused {
            line: 0,
            reason: CheckReason::Workload(Reason::InputTooLong),
        });
    }
    let Some((before, behind, first)) = find_record(bytes) else {
        parse(alloc, bytes)?;
        return Err(bad_line(count_lines(bytes)));
    };
    let workload = parse(alloc, before)?;
    let Behind {
        items,
        misused,
        report,
    } = read_behind(alloc, &workload, behind, first)?;
    Ok(RecordText {
        workload,
        items,
        misused,
        report,
    })
}
