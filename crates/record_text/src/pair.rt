//! What a step of a cursor shows.
ghost use Rattle.std.specs.Prelude.{◌≡◌, ◌<◌, ℕ, true, ◌&&◌, length, nat_lt, MatchOption};
ghost use Rattle.record_text.specs.Cuts.{is_equals, IsLastSplit};
ghost use Rattle.record_text.specs.ItemLines.{is_shown, shown_word};
ghost use Rattle.record_text.specs.Numbers.{has_64_bits};
ghost use Rattle.record_text.specs.Reading.{IsRead};
ghost use Rattle.workload.specs.Keys.{keys_in};
ghost use Rattle.workload_text.specs.ReportLines.{pair_text};

use crate::number::read_number;
use memchr::memrchr;
use workload::Workload;
use workload::laws::keys_are_numbered_by_first_appearance;

/// What stands before the last `=` of a word, and behind it.
fn split_pair(word: &[u8]) -> Option<(&[u8], &[u8])>
    ensures { MatchOption result ((place : ℕ) → place < length word.now → is_equals word.now place ≡ true → ⊥) (λ split. IsLastSplit word.now split.0.now split.1.now) }
{
    match memrchr(b'=', word) {
        None => None,
        Some(end) => Some((&word[..end], &word[end + 1..])),
    }
}

/// The number of the key, and the value, of the pair that a word is.
fn read_pair(word: &[u8], workload: &Workload) -> Option<(u32, u64)>
    ensures { IsRead (λ pair. nat_lt pair.0 (length (keys_in workload.now.scripts)) && has_64_bits pair.1) (pair_text (keys_in workload.now.scripts)) word.now result }
{
    keys_are_numbered_by_first_appearance();
    let (name, rest) = split_pair(word)?;
    let key = workload.keys().number(name)?;
    let value = read_number(rest)?;
    Some((key, value))
}

/// What a word shows: a pair, or nothing for `-`.
pub fn read_shown(word: &[u8], workload: &Workload) -> Option<Option<(u32, u64)>>
    ensures { IsRead (is_shown (keys_in workload.now.scripts)) (shown_word (keys_in workload.now.scripts)) word.now result }
{
    if word == b"-".as_slice() {
        return Some(None);
    }
    Some(Some(read_pair(word, workload)?))
}
