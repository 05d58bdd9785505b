//! Laws of words and numbers.
ghost use Rattle.std.specs.Prelude.{◌≡◌, ℕ, ◌+◌, ◌%◌, ◌^◌, ◌==◌, bit_and, bit_or, true};
ghost use Rattle.sync_types.specs.declared.atomic_object.AtomicKind.{AtomicKind};
ghost use Rattle.sync_types.specs.declared.atomic_object.Number.{Number};
ghost use Rattle.sync_types.specs.SequentialAtomic.{has_bits, is_of, is_same, sum, bits_of_both, bits_of_either};
ghost use Rattle.sync_types.specs.WordLayout.{word_of, is_word, number_in};

/// Each step on a word is the operation on the word's number: a word that was written is read as its number, one addition
/// of words adds the numbers and wraps as they do, bits of words are those of the numbers, and two words are equal exactly
/// where their numbers are.
pub fn steps_on_words()
    ensures read { (kind : AtomicKind) (number : Number) → is_of kind number ≡ true → (is_word kind (word_of number) ≡ true) × (number_in kind (word_of number) ≡ number) }
    ensures added { (kind : AtomicKind) (word : ℕ) (operand : Number) → has_bits kind ≡ true → is_word kind word ≡ true → is_of kind operand ≡ true
        → (is_word kind ((word + word_of operand) % 2 ^ 64) ≡ true) × (number_in kind ((word + word_of operand) % 2 ^ 64) ≡ sum (number_in kind word) operand) }
    ensures both { (kind : AtomicKind) (word : ℕ) (operand : Number) → has_bits kind ≡ true → is_word kind word ≡ true → is_of kind operand ≡ true
        → (is_word kind (bit_and word (word_of operand)) ≡ true) × (number_in kind (bit_and word (word_of operand)) ≡ bits_of_both (number_in kind word) operand) }
    ensures either { (kind : AtomicKind) (word : ℕ) (operand : Number) → has_bits kind ≡ true → is_word kind word ≡ true → is_of kind operand ≡ true
        → (is_word kind (bit_or word (word_of operand)) ≡ true) × (number_in kind (bit_or word (word_of operand)) ≡ bits_of_either (number_in kind word) operand) }
    ensures compared { (kind : AtomicKind) (word : ℕ) (number : Number) → is_word kind word ≡ true → is_of kind number ≡ true → (word == word_of number) ≡ is_same (number_in kind word) number }
{}
