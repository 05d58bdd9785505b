//! The numbers of a record's lines.
ghost use Rattle.std.specs.Prelude.{◌^◌, ◌≡◌, ◌-◌, ◌<◌, ◌≤◌, ◌∷◌, ◌&&◌, negsuc, nat_lt, nat_le};
ghost use Rattle.std.specs.Fmt.{decimal, signed_decimal};
ghost use Rattle.record_text.specs.Numbers.{has_32_bits, has_64_bits, is_int64, is_whole, whole_word};
ghost use Rattle.record_text.specs.Reading.{IsRead};

use crate::item_line::Whole;
use workload_text::number::number;

/// The greatest number that may stand behind a `-`.
const MAX_BELOW: u64 = 9_223_372_036_854_775_808;

/// A key's number is below this.
const KEY_LIMIT: u64 = 4_294_967_296;

/// The number that a word is.
pub fn read_number(word: &[u8]) -> Option<u64>
    ensures { IsRead has_64_bits decimal word.now result }
{
    number(word, u64::MAX)
}

/// The number below a limit that a word is.
pub fn read_below(word: &[u8], limit: u64) -> Option<u64>
    ensures { IsRead (λ n. nat_lt n limit) decimal word.now result }
{
    let number = read_number(word)?;
    if number < limit { Some(number) } else { None }
}

/// The number that may stand behind a `-`, and that a word is.
fn read_magnitude(word: &[u8]) -> Option<u64>
    ensures { IsRead (λ n. nat_lt 0 n && nat_le n (2 ^ 63)) decimal word.now result }
{
    let number = read_number(word)?;
    if number == 0 {
        return None;
    }
    if number > MAX_BELOW {
        return None;
    }
    Some(number)
}

/// The number below 0 that a word behind a `-` stands for.
fn read_negative(digits: &[u8]) -> Option<Whole>
    ensures { IsRead is_whole whole_word (45 ∷ digits.now) result }
{
    Some(Whole::Below(read_magnitude(digits)?))
}

/// The number, from -2^63 on, that a word is.
pub fn read_whole(word: &[u8]) -> Option<Whole>
    ensures { IsRead is_whole whole_word word.now result }
{
    match word.split_first() {
        None => None,
        Some((b'-', digits)) => read_negative(digits),
        Some(_) => Some(Whole::Natural(read_number(word)?)),
    }
}

/// The number that is so much below 0.
fn below(n: u64) -> i64
    requires some { 0 < n }
    requires few { n ≤ 2 ^ 63 }
    ensures { result ≡ negsuc (n - 1) }
{
    -1 - (n - 1) as i64
}

/// The number below 0 that a word behind a `-` stands for.
fn read_below_zero(digits: &[u8]) -> Option<i64>
    ensures { IsRead is_int64 signed_decimal (45 ∷ digits.now) result }
{
    Some(below(read_magnitude(digits)?))
}

/// The number of 64 bits with a sign that a word is.
pub fn read_int64(word: &[u8]) -> Option<i64>
    ensures { IsRead is_int64 signed_decimal word.now result }
{
    match word.split_first() {
        None => None,
        Some((b'-', digits)) => read_below_zero(digits),
        Some(_) => Some(read_below(word, MAX_BELOW)? as i64),
    }
}

/// The worker, of so many, whose number a word is.
pub fn read_worker(word: &[u8], workers: u32) -> Option<u32>
    ensures { IsRead (λ n. nat_lt n workers) decimal word.now result }
{
    Some(read_below(word, u64::from(workers))? as u32)
}

/// The number of a key that a word is.
pub fn read_key(word: &[u8]) -> Option<u32>
    ensures { IsRead has_32_bits decimal word.now result }
{
    Some(read_below(word, KEY_LIMIT)? as u32)
}
