//! The words of an item's line, one after the other.
ghost use Rattle.std.specs.Prelude.{◌≡◌, ◌∷◌, [], ◌<◌, true, codes, length, MatchOption, None, Some};
ghost use Rattle.record_text.specs.AnswerWords.{truth_word};
ghost use Rattle.record_text.specs.ItemLines.{index_word, is_index, is_reply, reply_words};
ghost use Rattle.record_text.specs.Numbers.{has_64_bits};
ghost use Rattle.record_text.specs.Reading.{IsRead};
ghost use Rattle.record_text.specs.Cuts.{parts_in};

use crate::cut::cut_word;
use crate::item_line::PlacedReply;
use crate::number::{read_below, read_number, read_whole};
use crate::word::truth_word;

/// The place in a script of so many calls that a word is, or none for `-`.
pub fn read_index(word: &[u8], calls: usize) -> Option<Option<usize>>
    ensures { IsRead (is_index calls) index_word word.now result }
{
    if word == b"-".as_slice() {
        return Some(None);
    }
    Some(Some(read_below(word, calls as u64)? as usize))
}

/// The truth value that a word is.
pub fn read_truth(word: &[u8]) -> Option<bool>
    ensures { IsRead (λ truth. true) truth_word word.now result }
{
    if word == truth_word(true) {
        return Some(true);
    }
    if word == truth_word(false) {
        return Some(false);
    }
    None
}

/// The reply of one word.
fn read_one(word: &[u8]) -> Option<PlacedReply>
    ensures { IsRead is_reply reply_words (word.now ∷ []) result }
{
    match word {
        b"ok" => Some(PlacedReply::Done),
        b"true" => Some(PlacedReply::Truth(true)),
        b"false" => Some(PlacedReply::Truth(false)),
        _ => Some(PlacedReply::Number(read_whole(word)?)),
    }
}

/// The reply of the word `-` and one more.
#[tactic(auto, using(crate::proofs::ReplyLemmas::no_absent))]
fn read_absent(second: &[u8]) -> Option<PlacedReply>
    ensures { IsRead is_reply reply_words (codes "-" ∷ second.now ∷ []) result }
{
    match second {
        b"false" => Some(PlacedReply::Absent),
        _ => None,
    }
}

/// The reply of a value and whether it was there.
#[tactic(auto, using(crate::proofs::ReplyLemmas::no_value, crate::proofs::ReplyLemmas::no_truth))]
fn read_valued(first: &[u8], second: &[u8]) -> Option<PlacedReply>
    requires { codes "-" ≡ first.now → ⊥ }
    ensures { IsRead is_reply reply_words (first.now ∷ second.now ∷ []) result }
{
    let Some(value) = read_number(first) else {
        return None;
    };
    let Some(was_there) = read_truth(second) else {
        return None;
    };
    Some(PlacedReply::Valued { value, was_there })
}

/// The reply of two words.
fn read_two(first: &[u8], second: &[u8]) -> Option<PlacedReply>
    ensures { IsRead is_reply reply_words (first.now ∷ second.now ∷ []) result }
{
    if first == b"-".as_slice() {
        return read_absent(second);
    }
    read_valued(first, second)
}

/// The reply that what is left of a line is.
#[tactic(auto, using(crate::proofs::ReplyLemmas::no_three))]
pub fn read_reply(rest: Option<&[u8]>) -> Option<PlacedReply>
    ensures { IsRead is_reply reply_words (parts_in 32 rest.entry) result }
{
    let (first, rest) = cut_word(rest)?;
    match cut_word(rest) {
        None => read_one(first),
        Some((second, None)) => read_two(first, second),
        Some((_, Some(_))) => None,
    }
}
