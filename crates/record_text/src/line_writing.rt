//! The lines of a record that are no items', as they are written.
ghost use Rattle.std.specs.Prelude.{◌≡◌, ◌≤◌, vec_capacity};
ghost use Rattle.workload_text.specs.Adding.{HasRoom};
ghost use Rattle.record_text.specs.Told.{outcome_line, record_line};

use crate::limits::RECORD_LINE_ROOM;
use crate::word::misuse_word;
use sync_types::Misuse;
use workload_text::push;

/// Makes the line between the workload and the items, without its line feed, for which room is left.
pub fn set_record_line(line: &mut Vec<u8>)
    requires { RECORD_LINE_ROOM ≤ vec_capacity line.old }
    ensures line { line.new.items ≡ record_line }
    ensures end { HasRoom line.new 1 }
    ensures room { vec_capacity line.old ≤ vec_capacity line.new }
{
    line.clear();
    push(line, b"record");
}

/// Makes the line of the outcome, without its line feed, for which room is left: the misuse that the run came to, unless it is done.
pub fn set_outcome_line(line: &mut Vec<u8>, misused: Option<Misuse>)
    requires { RECORD_LINE_ROOM ≤ vec_capacity line.old }
    ensures line { line.new.items ≡ outcome_line misused }
    ensures end { HasRoom line.new 1 }
    ensures room { vec_capacity line.old ≤ vec_capacity line.new }
{
    line.clear();
    match misused {
        None => push(line, b"outcome done"),
        Some(misuse) => {
            push(line, b"outcome misused ");
            push(line, misuse_word(misuse));
        }
    }
}
