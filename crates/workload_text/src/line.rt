//! A line of the report, in room that was taken before.
ghost use Rattle.std.specs.Prelude.{◌+◌, ◌∷◌, length};
ghost use Rattle.std.specs.Fmt.{decimal, signed_decimal};
ghost use Rattle.workload.specs.NumberWords.{number_word};
ghost use Rattle.workload_text.specs.Adding.{Adds, HasRoom};
ghost use Rattle.workload_text.specs.ReportLines.{truth_text};

use itoa::Buffer;
use sync_types::Number;

/// The room that the buffer of a line has, in bytes.
pub const LINE_ROOM: usize = 262_144;

/// Adds text.
pub fn push(line: &mut Vec<u8>, text: &[u8])
    requires { HasRoom line.old (length text.now) }
    ensures { Adds line.old line.new text.now (length text.now) }
{
    line.extend_from_slice(text).unwrap();
}

/// Adds a number in decimal.
pub fn push_number(line: &mut Vec<u8>, number: u64)
    requires { HasRoom line.old 20 }
    ensures { Adds line.old line.new (decimal number) 20 }
{
    let mut digits = Buffer::new();
    push(line, digits.format(number).as_bytes());
}

/// Adds a number that may be below 0 in decimal.
pub fn push_signed(line: &mut Vec<u8>, number: i64)
    requires { HasRoom line.old 20 }
    ensures { Adds line.old line.new (signed_decimal number) 20 }
{
    let mut digits = Buffer::new();
    push(line, digits.format(number).as_bytes());
}

/// Adds `true` or `false`.
pub fn push_truth(line: &mut Vec<u8>, truth: bool)
    requires { HasRoom line.old 5 }
    ensures { Adds line.old line.new (truth_text truth) 5 }
{
    if truth {
        push(line, b"true");
    } else {
        push(line, b"false");
    }
}

/// Adds a number of an atomic.
pub fn push_atomic_number(line: &mut Vec<u8>, number: Number)
    requires { HasRoom line.old 20 }
    ensures { Adds line.old line.new (number_word number) 20 }
{
    match number {
        Number::Int32(n) => push_signed(line, i64::from(n)),
        Number::Int64(n) => push_signed(line, n),
        Number::Uint32(n) => push_number(line, u64::from(n)),
        Number::Uint64(n) => push_number(line, n),
        Number::Bool(truth) => push_truth(line, truth),
    }
}

/// Adds a word behind a space.
pub fn push_word(line: &mut Vec<u8>, word: &[u8])
    requires { HasRoom line.old (length word.now + 1) }
    ensures { Adds line.old line.new (32 ∷ word.now) (length word.now + 1) }
{
    push(line, b" ");
    push(line, word);
}

/// Adds a number of an atomic's type behind a space.
pub fn push_atomic_word(line: &mut Vec<u8>, number: Number)
    requires { HasRoom line.old 21 }
    ensures { Adds line.old line.new (32 ∷ number_word number) 21 }
{
    push(line, b" ");
    push_atomic_number(line, number);
}
