//! The number that a seed is.
ghost use Rattle.std.specs.Prelude.{◌≡◌};
ghost use Rattle.command_line.specs.Seed.{seed_of};

use workload_text::number::number;

/// The seed that a word is: 0, or a digit 1 to 9 followed by digits, at most 18,446,744,073,709,551,615.
pub fn seed_of(word: &str) -> Option<u64>
    ensures { result ≡ seed_of word.now }
{
    number(word.as_bytes(), u64::MAX)
}
