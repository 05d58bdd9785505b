//! Laws of the text of a record.
ghost use Rattle.std.specs.Prelude.{◌≡◌, ℕ, ◌+◌, ◌<◌, ◌≤◌, true, false, ◌∷◌, List, Option, Some, codes, length, map, slice_get, get_or, []};
ghost use Rattle.std.specs.List.{list_all};
ghost use Rattle.sync_types.specs.declared.misuse.Misuse.{Misuse};
ghost use Rattle.workload.specs.Dialect.{has_unrecorded};
ghost use Rattle.workload.specs.Lines.{lines_of};
ghost use Rattle.workload.specs.Plan.{Plan};
ghost use Rattle.workload.specs.Readable.{IsReadable};
ghost use Rattle.workload.specs.Reads.{Reads};
ghost use Rattle.run_record.specs.Explains.{Explains};
ghost use Rattle.run_record.specs.Objects.{first_part, starts_number};
ghost use Rattle.run_record.specs.Record.{Record, list_of, object_number, stop};
ghost use Rattle.record_text.specs.ItemLines.{is_index, is_item, is_named, item_text, item_words, object_word, IsItemLine};
ghost use Rattle.record_text.specs.Journals.{named_in, named_object, named_part};
ghost use Rattle.record_text.specs.LawfulItems.{has_numbers, IsNumbered};
ghost use Rattle.record_text.specs.Numbers.{is_front};
ghost use Rattle.record_text.specs.Refused.{IsRecordRefused};
ghost use Rattle.record_text.specs.Told.{Told, AreItemLines, IsTold, is_short_line, outcome_line};
ghost use Rattle.record_text.specs.Written.{front_in, item_line};
ghost use Rattle.record_text.specs.WrittenLines.{has_small_counts, record_text};

use crate::directory::Named;
use crate::event::JournalKind;
use crate::fault::CheckReason;
use crate::item_line::ItemLine;
use crate::limits::{MAX_ITEMS, MAX_RECORD, MAX_RECORD_LINE};
use run_record::Made;
use run_record::laws::numbers::parts_have_numbers_of_their_own;
use script_calls::Outcome;
use sync_model::laws::shared::each_entry_is_a_call;
use sync_types::laws::maps::{calls_leave_other_keys, only_a_clear_has_no_key};
use workload::laws::{
    canonical_reads, keys_are_numbered_by_first_appearance, one_reading, one_refusal,
    read_or_refused,
};
use workload::{ObjectKind, ObjectLine};

/// The limits by their numbers, of which the definitions speak by name.
pub fn limits()
    ensures { (MAX_RECORD ≡ 16777216) × (MAX_ITEMS ≡ 40000) × (MAX_RECORD_LINE ≡ 400) }
{}

/// A text tells one thing only.
pub fn a_text_tells_one_thing()
    ensures { (bytes : List ℕ) (told other : Told) → IsTold bytes told → IsTold bytes other → told ≡ other }
{
    one_reading();
    keys_are_numbered_by_first_appearance();
}

/// What tells something isn't refused, and what is refused has one line and one reason.
pub fn a_text_is_refused_once()
    ensures apart { (bytes : List ℕ) (told : Told) (line : ℕ) (reason : CheckReason) → IsTold bytes told → IsRecordRefused bytes line reason → ⊥ }
    ensures once { (bytes : List ℕ) (line other : ℕ) (reason why : CheckReason) → IsRecordRefused bytes line reason → IsRecordRefused bytes other why → (line ≡ other) × (reason ≡ why) }
{
    one_reading();
    one_refusal();
    read_or_refused();
}

/// A line says one item only: no two items of a workload that was read have the same words. And no line of an item is one of the
/// outcome.
pub fn a_line_says_one_item()
    ensures words { (bytes : List ℕ) (plan : Plan) (item other : ItemLine) → Reads bytes plan → is_item plan item ≡ true → is_item plan other ≡ true → item_words plan item ≡ item_words plan other → item ≡ other }
    ensures line { (bytes : List ℕ) (plan : Plan) (line : List ℕ) (item other : ItemLine) → Reads bytes plan → IsItemLine plan line item → IsItemLine plan line other → item ≡ other }
    ensures outcome { (plan : Plan) (line : List ℕ) (item : ItemLine) (misused : Option Misuse) → IsItemLine plan line item → outcome_line misused ≡ line → ⊥ }
{
    keys_are_numbered_by_first_appearance();
}

/// Each object of a record stands in the directory at its number: Stop, each declared object by its name, each part of a pool as
/// `NAME!P`, and behind them Starts.
pub fn objects_go_by_their_numbers()
    ensures stop { (plan : Plan) → slice_get (named_in plan) stop ≡ Some (record { word = codes "!stop"; kind = JournalKind.Stop }) }
    ensures declared { (plan : Plan) (place : ℕ) (object : ObjectLine) → slice_get plan.objects place ≡ Some object → slice_get (named_in plan) (object_number place) ≡ Some (named_object object) }
    ensures parts { (plan : Plan) (place part : ℕ) (object : ObjectLine) → slice_get plan.objects place ≡ Some object → object.kind ≡ ObjectKind.Pool → part < plan.workers
        → slice_get (named_in plan) (first_part plan place + part) ≡ Some (named_part object part) }
    ensures starts { (plan : Plan) → slice_get (named_in plan) (starts_number plan) ≡ Some (record { word = codes "!starts"; kind = JournalKind.Starts }) }
    ensures count { (plan : Plan) → length (named_in plan) ≡ starts_number plan + 1 }
{}

/// Each object goes by a word of its own, in a workload that has a text: its word names it, and no other object has that word.
pub fn each_object_goes_by_its_own_word()
    ensures named { (plan : Plan) (object : ℕ) → IsReadable plan → object < length (named_in plan) → is_named plan object ≡ true }
    ensures apart { (plan : Plan) (object other : ℕ) → IsReadable plan → object < length (named_in plan) → other < length (named_in plan) → object_word plan object ≡ object_word plan other → object ≡ other }
{}

/// An item in range has one line: its words, with one space between two. So whoever writes these bytes writes what is read back as the
/// item, where the line has at most 400 bytes, and the lines of some items are read back as these items.
pub fn an_item_is_read_back_from_its_line()
    ensures line { (plan : Plan) (item : ItemLine) → IsReadable plan → is_item plan item ≡ true → length (item_text plan item) ≤ MAX_RECORD_LINE → IsItemLine plan (item_text plan item) item }
    ensures only { (plan : Plan) (line : List ℕ) (item : ItemLine) → IsItemLine plan line item → line ≡ item_text plan item }
    ensures lines { (plan : Plan) (items : List ItemLine) → IsReadable plan → list_all (is_item plan) items ≡ true → list_all is_short_line (map (item_text plan) items) ≡ true
        → AreItemLines plan (map (item_text plan) items) items }
{}

/// The line of an item in range has at most 400 bytes, where what it counts is below 10,000,000: its place in the history or in a
/// journal, and the numbers of its front. So only who counts further has to look at the lines' lengths.
pub fn a_line_of_small_counts_is_short()
    ensures { (plan : Plan) (item : ItemLine) → IsReadable plan → is_item plan item ≡ true → has_small_counts item ≡ true → length (item_text plan item) ≤ MAX_RECORD_LINE }
{}

/// What is written is read back: the text of a record tells the workload, the items, the misuse and the lines of the report that it was
/// written from. The items are in range, no more than 40,000, and their lines and those of the report have at most 400 bytes each;
/// the text has at most 16,777,216; and the workload has no plain variable, no weighted semaphore and no flights, for plain texts have none.
pub fn a_written_text_tells_what_was_written()
    ensures { (plan : Plan) (items : List ItemLine) (misused : Option Misuse) (report : List ℕ) → IsReadable plan → has_unrecorded plan ≡ false
        → list_all (is_item plan) items ≡ true → list_all is_short_line (map (item_text plan) items) ≡ true → length items ≤ MAX_ITEMS
        → list_all is_short_line (lines_of report) ≡ true → length (record_text plan items misused report) ≤ MAX_RECORD
        → IsTold (record_text plan items misused report) (record { plan = plan; items = items; misused = misused; report = lines_of report }) }
{
    canonical_reads();
}

/// Each item of a record that explains a run has a line. It is in range, where its numbers have 64 bits, its front has a number for each
/// worker, and the call that it belongs to is one of its worker's script, or none. So what is lawful can be written down
/// (`an_item_is_read_back_from_its_line`).
pub fn each_item_of_a_record_has_a_line()
    ensures { (plan : Plan) (outcome : Outcome) (r : Record) (worker place number : ℕ) (index : Option ℕ) (item : Made)
        → IsReadable plan → Explains plan outcome r → slice_get (list_of r worker) place ≡ Some item → IsNumbered r number item
        → is_index (length (get_or plan.scripts worker [])) index ≡ true → is_front plan.workers (front_in item) ≡ true
        → (line : ItemLine) × (item_line worker index number item ≡ Some line) × (has_numbers line.said ≡ true → is_item plan line ≡ true) }
{
    calls_leave_other_keys::<u32>();
    each_entry_is_a_call();
    keys_are_numbered_by_first_appearance();
    mutex_core::laws::validity();
    only_a_clear_has_no_key::<u32>();
    parts_have_numbers_of_their_own();
}
