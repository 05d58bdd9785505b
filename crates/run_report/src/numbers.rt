//! Lines of a word and a number each.
ghost use Rattle.std.specs.Prelude.{◌≡◌, ◌≤◌, ◌∷◌, [], true, length, OnOk, OnErr, vec_capacity};
ghost use Rattle.std.specs.Fmt.{decimal};
ghost use Rattle.sync_outside.specs.Bytes.{Appends, AppendsFront};
ghost use Rattle.sync_outside.specs.Faults.{Rose};
ghost use Rattle.workload.specs.Canonical.{text_line};
ghost use Rattle.run_report.specs.NumberLines.{are_short, number_lines};
ghost use Rattle.run_report.specs.Writes.{Wrote, WroteUpTo};

use itoa::Buffer;
use sync_outside::{Failed, Sink};
use workload_text::{push, push_word};

/// The room of the buffer of a line, in bytes: a word of at most 8, a space, a number of at most 40, and a line feed.
pub const NUMBER_ROOM: usize = 64;

/// Makes the line of a word and a number.
fn set_number_line(line: &mut Vec<u8>, word: &[u8], number: u128)
    requires word { length word.now ≤ 8 }
    requires room { NUMBER_ROOM ≤ vec_capacity line.old }
    ensures line { line.new.items ≡ text_line (word.now ∷ decimal number ∷ []) }
    ensures room { NUMBER_ROOM ≤ vec_capacity line.new }
{
    let mut digits = Buffer::new();
    line.clear();
    push(line, word);
    push_word(line, digits.format(number).as_bytes());
    push(line, b"\n");
}

/// Writes lines of a word and a number, each by one write. It takes no memory: a line is made in the buffer `line`.
pub fn write_number_lines<O: Sink>(
    entries: &[(&[u8], u128)],
    line: &mut Vec<u8>,
    out: &mut O,
) -> Result<(), Failed>
    requires words { are_short entries.now ≡ true }
    requires room { NUMBER_ROOM ≤ vec_capacity line.old }
    ensures ok { OnOk result (Appends (O.contents out.old) (O.contents out.new) (number_lines entries.now)) }
    ensures err { OnErr result (AppendsFront (O.contents out.old) (O.contents out.new) (number_lines entries.now)) }
    ensures writes { OnOk result (Wrote (O.writes out.old) (O.writes out.new) (length entries.now)) }
    ensures cut { OnErr result (WroteUpTo (O.writes out.old) (O.writes out.new) (length entries.now)) }
    ensures failed { OnErr result (Rose (O.faults out.old) (O.faults out.new)) }
    ensures faults { O.faults out.old ≤ O.faults out.new }
{
    for (word, number) in entries {
        set_number_line(line, *word, *number);
        out.write(line)?;
    }
    Ok(())
}
