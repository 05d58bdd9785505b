//! The words of misuses, and the name in front of the operand of a word.
ghost use Rattle.std.specs.Prelude.{◌≡◌, ◌≤◌, true, length};
ghost use Rattle.record_text.specs.AnswerWords.{truth_word};
ghost use Rattle.record_text.specs.EventWords.{misuse_word};
ghost use Rattle.record_text.specs.Names.{is_mark, up_to_mark, behind_mark};
ghost use Rattle.record_text.specs.Reading.{IsRead};

use sync_types::Misuse;

/// The word of a misuse.
pub fn misuse_word(misuse: Misuse) -> &'static [u8]
    ensures word { result.now ≡ misuse_word misuse }
    ensures short { length result.now ≤ 2 }
{
    match misuse {
        Misuse::UnlockOfUnlockedMutex => b"M1",
        Misuse::RUnlockOfUnlockedRwMutex => b"M2",
        Misuse::UnlockOfUnlockedRwMutex => b"M3",
        Misuse::NegativeWaitGroupCounter => b"M4",
        Misuse::WaitGroupReused => b"M5",
        Misuse::SemaphoreOverReleased => b"M6",
    }
}

/// The misuse that a word names.
pub fn read_misuse(word: &[u8]) -> Option<Misuse>
    ensures { IsRead (λ misuse. true) misuse_word word.now result }
{
    if word == misuse_word(Misuse::UnlockOfUnlockedMutex) {
        return Some(Misuse::UnlockOfUnlockedMutex);
    }
    if word == misuse_word(Misuse::RUnlockOfUnlockedRwMutex) {
        return Some(Misuse::RUnlockOfUnlockedRwMutex);
    }
    if word == misuse_word(Misuse::UnlockOfUnlockedRwMutex) {
        return Some(Misuse::UnlockOfUnlockedRwMutex);
    }
    if word == misuse_word(Misuse::NegativeWaitGroupCounter) {
        return Some(Misuse::NegativeWaitGroupCounter);
    }
    if word == misuse_word(Misuse::WaitGroupReused) {
        return Some(Misuse::WaitGroupReused);
    }
    if word == misuse_word(Misuse::SemaphoreOverReleased) {
        return Some(Misuse::SemaphoreOverReleased);
    }
    None
}

/// The word of a truth value.
pub fn truth_word(truth: bool) -> &'static [u8]
    ensures word { result.now ≡ truth_word truth }
    ensures short { length result.now ≤ 5 }
{
    if truth { b"true" } else { b"false" }
}

/// Whether a byte ends the name of an event or an answer.
fn is_mark(byte: u8) -> bool
    ensures { result ≡ is_mark byte }
{
    byte == b'@' || byte == b'='
}

/// The word up to its first `@` or `=`, and what stands behind it.
pub fn split_name(word: &[u8]) -> (&[u8], &[u8])
    ensures name { result.0.now ≡ up_to_mark word.now }
    ensures operand { result.1.now ≡ behind_mark word.now }
{
    for (index, byte) in word.iter().enumerate() {
        if is_mark(*byte) {
            return (&word[..index + 1], &word[index + 1..]);
        }
    }
    (word, &[])
}
