//! The text of a record, piece by piece. Each function tells whether its piece fits: a text that would get too long is given up at once.
ghost use Rattle.std.specs.Prelude.{◌≡◌, ◌+◌, ◌≤◌, ◌++◌, ◌∷◌, [], true, length, map, vec_capacity, IfOk, None};
ghost use Rattle.std.specs.List.{list_all};
ghost use Rattle.workload.specs.declared.limits.TheConstants.{MAX_WORKERS};
ghost use Rattle.workload_text.specs.Adding.{HasRoom};
ghost use Rattle.record_text.specs.ItemLines.{item_text};
ghost use Rattle.record_text.specs.Journals.{named_in};
ghost use Rattle.record_text.specs.Told.{is_short_line, joined, outcome_line, record_line};
ghost use Rattle.record_text.specs.WrittenLines.{record_lines};
ghost use Rattle.scheduled_record.specs.Pushed.{Gains, have_few_numbers};

use record_text::limits::MAX_RECORD;
use record_text::{
    Directory, ItemLine, RECORD_LINE_ROOM, is_short_line, set_item_line, set_outcome_line,
    set_record_line,
};
use std::alloc::{AllocError, Global};
use workload::Workload;
use workload_text::push;

/// Adds a piece.
pub(crate) fn push_piece(text: &mut Vec<u8>, piece: &[u8]) -> Result<bool, AllocError>
    requires { length text.old.items ≤ MAX_RECORD }
    ensures { IfOk result (Gains text.old.items text.new.items piece.now true) }
{
    if piece.len() > MAX_RECORD - text.len() {
        return Ok(false);
    }
    text.extend_from_slice(piece)?;
    Ok(true)
}

/// Adds a line, which gets its line feed, unless it has more than 400 bytes.
fn push_line(text: &mut Vec<u8>, line: &mut Vec<u8>) -> Result<bool, AllocError>
    requires text { length text.old.items ≤ MAX_RECORD }
    requires end { HasRoom line.old 1 }
    ensures gains { IfOk result (Gains text.old.items text.new.items (line.old.items ++ 10 ∷ []) (is_short_line line.old.items)) }
    ensures room { vec_capacity line.old ≤ vec_capacity line.new }
{
    if !is_short_line(line) {
        return Ok(false);
    }
    push(line, b"\n");
    push_piece(text, line)
}

/// Adds the line of an item.
fn push_item(
    text: &mut Vec<u8>,
    workload: &Workload,
    directory: &Directory,
    item: &ItemLine,
    line: &mut Vec<u8>,
) -> Result<bool, AllocError>
    requires text { length text.old.items ≤ MAX_RECORD }
    requires directory { directory.now ≡ named_in workload.now }
    requires few { length item.now.front ≤ MAX_WORKERS }
    requires room { RECORD_LINE_ROOM ≤ vec_capacity line.old }
    ensures gains { IfOk result (Gains text.old.items text.new.items (item_text workload.now item.now ++ 10 ∷ []) (is_short_line (item_text workload.now item.now))) }
    ensures room { vec_capacity line.old ≤ vec_capacity line.new }
{
    set_item_line(line, workload, directory, item);
    push_line(text, line)
}

/// Adds the lines of items.
fn push_items(
    text: &mut Vec<u8>,
    workload: &Workload,
    directory: &Directory,
    items: &[ItemLine],
    line: &mut Vec<u8>,
) -> Result<bool, AllocError>
    requires text { length text.old.items ≤ MAX_RECORD }
    requires directory { directory.now ≡ named_in workload.now }
    requires few { have_few_numbers items.now ≡ true }
    requires room { RECORD_LINE_ROOM ≤ vec_capacity line.old }
    ensures gains { IfOk result (Gains text.old.items text.new.items (joined (map (item_text workload.now) items.now)) (list_all is_short_line (map (item_text workload.now) items.now))) }
    ensures room { vec_capacity line.old ≤ vec_capacity line.new }
{
    for item in items {
        if !push_item(text, workload, directory, item, line)? {
            return Ok(false);
        }
    }
    Ok(true)
}

/// Adds the line between the workload and the items.
fn push_record_line(text: &mut Vec<u8>, line: &mut Vec<u8>) -> Result<bool, AllocError>
    requires text { length text.old.items ≤ MAX_RECORD }
    requires room { RECORD_LINE_ROOM ≤ vec_capacity line.old }
    ensures gains { IfOk result (Gains text.old.items text.new.items (record_line ++ 10 ∷ []) true) }
    ensures room { vec_capacity line.old ≤ vec_capacity line.new }
{
    set_record_line(line);
    push_line(text, line)
}

/// Adds the line `outcome done`.
fn push_outcome_line(text: &mut Vec<u8>, line: &mut Vec<u8>) -> Result<bool, AllocError>
    requires text { length text.old.items ≤ MAX_RECORD }
    requires room { RECORD_LINE_ROOM ≤ vec_capacity line.old }
    ensures gains { IfOk result (Gains text.old.items text.new.items (outcome_line None ++ 10 ∷ []) true) }
    ensures room { vec_capacity line.old ≤ vec_capacity line.new }
{
    set_outcome_line(line, None);
    push_line(text, line)
}

/// Adds the lines of all items.
fn push_all_items(
    alloc: Global,
    text: &mut Vec<u8>,
    workload: &Workload,
    items: &[ItemLine],
    line: &mut Vec<u8>,
) -> Result<bool, AllocError>
    requires text { length text.old.items ≤ MAX_RECORD }
    requires few { have_few_numbers items.now ≡ true }
    requires room { RECORD_LINE_ROOM ≤ vec_capacity line.old }
    ensures gains { IfOk result (Gains text.old.items text.new.items (joined (map (item_text workload.now) items.now)) (list_all is_short_line (map (item_text workload.now) items.now))) }
    ensures room { vec_capacity line.old ≤ vec_capacity line.new }
{
    let directory = Directory::of(alloc, workload)?;
    push_items(text, workload, &directory, items, line)
}

/// Adds the lines between the workload and the report, of a run that is done.
pub(crate) fn push_record_lines(
    alloc: Global,
    text: &mut Vec<u8>,
    workload: &Workload,
    items: &[ItemLine],
    line: &mut Vec<u8>,
) -> Result<bool, AllocError>
    requires text { length text.old.items ≤ MAX_RECORD }
    requires few { have_few_numbers items.now ≡ true }
    requires room { RECORD_LINE_ROOM ≤ vec_capacity line.old }
    ensures gains { IfOk result (Gains text.old.items text.new.items (joined (record_lines workload.now items.now None)) (list_all is_short_line (map (item_text workload.now) items.now))) }
    ensures room { vec_capacity line.old ≤ vec_capacity line.new }
{
    if !push_record_line(text, line)? {
        return Ok(false);
    }
    if !push_all_items(alloc, text, workload, items, line)? {
        return Ok(false);
    }
    push_outcome_line(text, line)
}
