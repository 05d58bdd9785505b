//! The line of a value that an object holds at the end.
ghost use Rattle.std.specs.Prelude.{◌≡◌, ◌≤◌, vec_capacity};
ghost use Rattle.workload_text.specs.ReportLines.{end_line};

use crate::line::{LINE_ROOM, push, push_atomic_word, push_word};
use sync_types::{End, Number};
use workload::Workload;
use workload::keys::key_name;
use workload::object::name_at;

/// Makes the line of a value that an object holds at the end.
pub fn set_end_line(line: &mut Vec<u8>, workload: &Workload, end: &End)
    requires { LINE_ROOM ≤ vec_capacity line.old }
    ensures line { line.new.items ≡ end_line workload.now end.now }
    ensures room { vec_capacity line.old ≤ vec_capacity line.new }
{
    let objects = workload.objects();
    line.clear();
    push(line, b"end");
    match end {
        End::Number { object, number } => {
            push_word(line, name_at(objects, *object));
            push_atomic_word(line, *number);
        }
        End::Pair { object, key, value } => {
            push_word(line, name_at(objects, *object));
            push_word(line, key_name(workload.keys().names(), *key));
            push_atomic_word(line, Number::Uint64(*value));
        }
    }
    push(line, b"\n");
}
