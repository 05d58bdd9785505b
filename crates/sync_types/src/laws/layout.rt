//! How numbers and their words go together. The layout is one to one.
ghost use Rattle.std.specs.Prelude.{◌≡◌, ℕ, ◌<◌, ◌^◌, true};
ghost use Rattle.sync_types.specs.SequentialAtomic.{is_of, zero_of};
ghost use Rattle.sync_types.specs.WordLayout.{word_of, is_word, number_in};

use crate::atomic_object::{AtomicKind, Number};

/// Each number of a type has a word of that type, of 64 bits.
pub fn each_number_has_a_word()
    ensures is_word { (kind : AtomicKind) (number : Number) → is_of kind number ≡ true → is_word kind (word_of number) ≡ true }
    ensures fits { (kind : AtomicKind) (number : Number) → is_of kind number ≡ true → word_of number < 2 ^ 64 }
{}

/// What an atomic holds at the start has the word 0, whatever its type.
pub fn each_type_starts_with_the_word_0()
    ensures { (kind : AtomicKind) → word_of (zero_of kind) ≡ 0 }
{}

/// A word determines its number, and each word of a type is that of a number of the type.
pub fn a_word_determines_its_number()
    ensures number { (kind : AtomicKind) (number : Number) → is_of kind number ≡ true → number_in kind (word_of number) ≡ number }
    ensures word { (kind : AtomicKind) (word : ℕ) → is_word kind word ≡ true → word_of (number_in kind word) ≡ word }
    ensures is_of { (kind : AtomicKind) (word : ℕ) → is_word kind word ≡ true → is_of kind (number_in kind word) ≡ true }
{}

/// Two numbers of one type with one word are equal.
pub fn numbers_with_one_word_are_equal()
    ensures { (kind : AtomicKind) (number other : Number) → is_of kind number ≡ true → is_of kind other ≡ true
        → word_of number ≡ word_of other → number ≡ other }
{}
