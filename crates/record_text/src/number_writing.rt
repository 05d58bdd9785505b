//! The numbers of a record's lines, as they are written.
ghost use Rattle.std.specs.Prelude.{◌≡◌, ◌*◌, ◌∷◌, length};
ghost use Rattle.std.specs.Fmt.{decimal, signed_decimal};
ghost use Rattle.workload_text.specs.Adding.{Adds, HasRoom};
ghost use Rattle.record_text.specs.Numbers.{front_word, whole_word};
ghost use Rattle.record_text.specs.WrittenLines.{behind_commas};

use crate::item_line::Whole;
use itoa::Buffer;
use workload_text::push;

/// Adds a number.
pub fn push_number(line: &mut Vec<u8>, number: u64)
    requires { HasRoom line.old 20 }
    ensures { Adds line.old line.new (decimal number) 20 }
{
    let mut digits = Buffer::new();
    push(line, digits.format(number).as_bytes());
}

/// Adds a number that may be below 0.
pub fn push_whole(line: &mut Vec<u8>, number: Whole)
    requires { HasRoom line.old 21 }
    ensures { Adds line.old line.new (whole_word number) 21 }
{
    match number {
        Whole::Natural(n) => push_number(line, n),
        Whole::Below(n) => {
            push(line, b"-");
            push_number(line, n);
        }
    }
}

/// Adds a number with a sign.
pub fn push_signed(line: &mut Vec<u8>, number: i64)
    requires { HasRoom line.old 20 }
    ensures { Adds line.old line.new (signed_decimal number) 20 }
{
    let mut digits = Buffer::new();
    push(line, digits.format(number).as_bytes());
}

/// Adds a number behind a space.
pub fn push_number_word(line: &mut Vec<u8>, number: u64)
    requires { HasRoom line.old 21 }
    ensures { Adds line.old line.new (32 ∷ decimal number) 21 }
{
    push(line, b" ");
    push_number(line, number);
}

/// Adds numbers, each behind a comma.
fn push_more_counts(line: &mut Vec<u8>, counts: &[u64])
    requires { HasRoom line.old (21 * length counts.now) }
    ensures { Adds line.old line.new (behind_commas counts.now) (21 * length counts.now) }
{
    for count in counts {
        push(line, b",");
        push_number(line, *count);
    }
}

/// Adds a front: its numbers, joined by commas.
pub fn push_front(line: &mut Vec<u8>, front: &[u64])
    requires { HasRoom line.old (21 * length front.now) }
    ensures { Adds line.old line.new (front_word front.now) (21 * length front.now) }
{
    if let Some((first, rest)) = front.split_first() {
        push_number(line, *first);
        push_more_counts(line, rest);
    }
}
