//! A line behind the line `record`.
ghost use Rattle.std.specs.Prelude.{◌≡◌, ℕ, true, List, ◌++◌, IfOk, MatchOption};
ghost use Rattle.record_text.specs.Journals.{named_in};
ghost use Rattle.record_text.specs.Reading.{IsRead};
ghost use Rattle.record_text.specs.RecordLines.{IsRecordLine, IsNoRecordLine};
ghost use Rattle.record_text.specs.Told.{is_short_line, outcome_line};

use crate::directory::Directory;
use crate::item_line::ItemLine;
use crate::item_reading::read_item;
use crate::limits::{MAX_ITEMS, MAX_RECORD_LINE};
use crate::word::read_misuse;
use std::alloc::{AllocError, Global};
use sync_types::Misuse;
use workload::Workload;

/// A line before those of the report.
#[derive(Drop)]
pub enum RecordLine {
    /// An item's.
    Item(ItemLine),
    /// The outcome's: the misuse that the run came to, unless it is done.
    Outcome(Option<Misuse>),
}

/// What stands behind a beginning of a line.
fn behind<'a>(line: &'a [u8], beginning: &[u8]) -> Option<&'a [u8]>
    ensures { MatchOption result ((word : List ℕ) → line.now ≡ beginning.now ++ word → ⊥) (λ word. line.now ≡ beginning.now ++ word.now) }
{
    line.strip_prefix(beginning)
}

/// The outcome that a line says.
#[tactic(auto, using(crate::proofs::LineLemmas::no_beginning, crate::proofs::LineLemmas::no_misuse))]
pub fn read_outcome(line: &[u8]) -> Option<Option<Misuse>>
    ensures { IsRead (λ misused. true) outcome_line line.now result }
{
    if line == b"outcome done".as_slice() {
        return Some(None);
    }
    let word = behind(line, b"outcome misused ")?;
    Some(Some(read_misuse(word)?))
}

/// Whether a line has at most 400 bytes.
pub fn is_short_line(line: &[u8]) -> bool
    ensures { result ≡ is_short_line line.now }
{
    line.len() <= MAX_RECORD_LINE
}

/// What a line says, behind so many item lines.
#[tactic(auto, using(crate::proofs::LineLemmas::too_many, crate::proofs::LineLemmas::too_long, crate::proofs::LineLemmas::no_item, crate::proofs::LineLemmas::an_item))]
pub fn read_record_line(
    alloc: Global,
    line: &[u8],
    workload: &Workload,
    directory: &Directory,
    taken: usize,
) -> Result<Option<RecordLine>, AllocError>
    requires { directory.now ≡ named_in workload.now }
    ensures { IfOk result (λ read. MatchOption read (IsNoRecordLine workload.now line.now taken) (IsRecordLine workload.now line.now taken)) }
{
    if let Some(misused) = read_outcome(line) {
        return Ok(Some(RecordLine::Outcome(misused)));
    }
    if taken >= MAX_ITEMS {
        return Ok(None);
    }
    if !is_short_line(line) {
        return Ok(None);
    }
    match read_item(alloc, line, workload, directory)? {
        None => Ok(None),
        Some(item) => Ok(Some(RecordLine::Item(item))),
    }
}
