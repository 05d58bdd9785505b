//! The atomic steps on the word of an atomic.

/// One atomic step on a word of 64 bits. It tells the word as it was before.
#[derive(Clone, Copy)]
pub enum WordStep {
    /// Reads the word.
    Load,
    /// Writes the word.
    Swap { new: u64 },
    /// Adds to the word, modulo 2^64.
    Add { operand: u64 },
    /// Keeps the bits that the operand has too.
    And { operand: u64 },
    /// Adds the bits that the operand has.
    Or { operand: u64 },
    /// Writes the word, where it was `old`.
    CompareExchange { old: u64, new: u64 },
}
