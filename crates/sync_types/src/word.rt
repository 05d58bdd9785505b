//! Numbers in words of 64 bits. A number of 32 bits stands in the high half of its word, and the low half is 0, so one
//! addition on the whole word wraps where the number does, and one comparison of words compares numbers.
ghost use Rattle.std.specs.Prelude.{◌≡◌, true};
ghost use Rattle.sync_types.specs.SequentialAtomic.{has_bits, is_of, kind_of, atomic_after};
ghost use Rattle.sync_types.specs.WordLayout.{word_of, is_word, number_in};

use crate::atomic_object::{AtomicCall, AtomicKind, Number};

/// The word of a number.
pub fn to_word(number: Number) -> u64
    ensures word { result ≡ word_of number }
    ensures is_word { is_word (kind_of number) result ≡ true }
{
    match number {
        Number::Int32(value) => (value.cast_unsigned() as u64) << 32,
        Number::Int64(value) => value.cast_unsigned(),
        Number::Uint32(value) => (value as u64) << 32,
        Number::Uint64(value) => value,
        Number::Bool(value) => value as u64,
    }
}

/// The number of this type whose word it is.
pub fn of_word(kind: AtomicKind, word: u64) -> Number
    requires { is_word kind word ≡ true }
    ensures number { result ≡ number_in kind word }
    ensures is_of { is_of kind result ≡ true }
{
    match kind {
        AtomicKind::Int32 => Number::Int32(((word >> 32) as u32).cast_signed()),
        AtomicKind::Int64 => Number::Int64(word.cast_signed()),
        AtomicKind::Uint32 => Number::Uint32((word >> 32) as u32),
        AtomicKind::Uint64 => Number::Uint64(word),
        AtomicKind::Bool => Number::Bool(word != 0),
    }
}

/// The word after an add to a word's number, which wraps at the ends of the type's range.
pub fn sum_word(kind: AtomicKind, word: u64, operand: Number) -> u64
    requires has_bits { has_bits kind ≡ true }
    requires word { is_word kind word ≡ true }
    requires operand { kind_of operand ≡ kind }
    ensures next { result ≡ word_of (atomic_after (AtomicCall.Add operand) (number_in kind word)) }
    ensures is_word { is_word kind result ≡ true }
{
    word.wrapping_add(to_word(operand))
}

/// The word after an and with a word's number: of the bits that both have, in two's complement.
pub fn and_word(kind: AtomicKind, word: u64, operand: Number) -> u64
    requires has_bits { has_bits kind ≡ true }
    requires word { is_word kind word ≡ true }
    requires operand { kind_of operand ≡ kind }
    ensures next { result ≡ word_of (atomic_after (AtomicCall.And operand) (number_in kind word)) }
    ensures is_word { is_word kind result ≡ true }
{
    word & to_word(operand)
}

/// The word after an or with a word's number: of the bits that one of them has, in two's complement.
pub fn or_word(kind: AtomicKind, word: u64, operand: Number) -> u64
    requires has_bits { has_bits kind ≡ true }
    requires word { is_word kind word ≡ true }
    requires operand { kind_of operand ≡ kind }
    ensures next { result ≡ word_of (atomic_after (AtomicCall.Or operand) (number_in kind word)) }
    ensures is_word { is_word kind result ≡ true }
{
    word | to_word(operand)
}
