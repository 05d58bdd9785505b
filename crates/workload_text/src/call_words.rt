//! The words of a call in a line of the report, as a workload's text spells them.
ghost use Rattle.std.specs.Prelude.{◌∷◌, map, slice_get};
ghost use Rattle.std.specs.Option.{option_to_list};
ghost use Rattle.workload.specs.KeywordWords.{verb_word};
ghost use Rattle.workload.specs.NumberWords.{number_word};
ghost use Rattle.workload.specs.CallWords.{verb_of, operands_of};
ghost use Rattle.workload.specs.Canonical.{behind_spaces, name_of, second_name};
ghost use Rattle.workload_text.specs.Numbers.{numbers_in};
ghost use Rattle.workload_text.specs.Adding.{Adds, HasRoom};
ghost use Rattle.workload_text.specs.ReportLines.{call_words};

use crate::call::{second, verb};
use crate::line::{push_atomic_word, push_word};
use crate::operands::{Numbers, operands_of};
use script_calls::{Call, Operation};
use workload::ObjectLine;
use workload::object::name_at;

/// The most bytes that the words of a call have in a line: a word of up to 10 bytes, the names of the call's object, of a
/// second one and of a key, and two numbers, each behind a space.
pub const WORDS_ROOM: usize = 152;

/// Adds the word of an operation behind a space.
#[tactic(auto, using(crate::proofs::CallWords::verb_short))]
fn push_verb(line: &mut Vec<u8>, operation: &Operation)
    requires { HasRoom line.old 11 }
    ensures { Adds line.old line.new (32 ∷ verb_word (verb_of operation.now)) 11 }
{
    push_word(line, verb(operation).text());
}

/// Adds numbers of atomics' types, each behind a space.
fn push_numbers(line: &mut Vec<u8>, numbers: Numbers)
    requires { HasRoom line.old 42 }
    ensures { Adds line.old line.new (behind_spaces (map number_word (numbers_in numbers))) 42 }
{
    match numbers {
        Numbers::Empty => {}
        Numbers::One(number) => push_atomic_word(line, number),
        Numbers::Two(old, new) => {
            push_atomic_word(line, old);
            push_atomic_word(line, new);
        }
    }
}

/// Adds the operands of an operation, each behind a space.
fn push_operands(line: &mut Vec<u8>, operation: &Operation)
    requires { HasRoom line.old 75 }
    ensures { Adds line.old line.new (behind_spaces (operands_of operation.now)) 75 }
{
    let (key, numbers) = operands_of(operation);
    if let Some(key) = key {
        push_word(line, key.as_bytes());
    }
    push_numbers(line, numbers);
}

/// Adds the names of a call's objects, each behind a space.
fn push_names(line: &mut Vec<u8>, objects: &[ObjectLine], call: &Call)
    requires { HasRoom line.old 66 }
    ensures { Adds line.old line.new (behind_spaces (name_of (slice_get objects.now call.now.object) ∷ option_to_list (second_name objects.now call.now.operation))) 66 }
{
    push_word(line, name_at(objects, call.object));
    if let Some(place) = second(&call.operation) {
        push_word(line, name_at(objects, place));
    }
}

/// Adds the words of a call, each behind a space.
pub fn push_call(line: &mut Vec<u8>, objects: &[ObjectLine], call: &Call)
    requires { HasRoom line.old WORDS_ROOM }
    ensures { Adds line.old line.new (behind_spaces (call_words objects.now call.now)) WORDS_ROOM }
{
    push_verb(line, &call.operation);
    push_names(line, objects, call);
    push_operands(line, &call.operation);
}
