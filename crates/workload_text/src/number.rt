//! Numbers of a text.
ghost use Rattle.std.specs.Prelude.{◌≡◌, ◌<◌, ◌^◌, ◌+◌, ◌-◌, ◌*◌, Bool, true, false, ◌≤◌, ◌∷◌, ◌&&◌, ◌||◌, nat_lt, codes, MatchOption, OnSome, IfSome, IfNone};
ghost use Rattle.std.specs.Fmt.{decimal, signed_decimal};
ghost use Rattle.std.specs.Str.{all_ascii_digits, bytes_eq};
ghost use Rattle.sync_types.specs.declared.atomic_object.Number.TheVariants as Number;
ghost use Rattle.sync_types.specs.SequentialAtomic.{is_signed, is_of};
ghost use Rattle.workload.specs.NumberWords.{is_number, is_number_to, is_signed_word, is_amount_word, is_number_word, number_word, number_of};
ghost use Rattle.workload.specs.Plan.{is_amount};

use sync_types::{AtomicKind, Number};
use workload::laws::numbers;
use workload::limits::MAX_AMOUNT;

/// One past the greatest `i32`.
const INT32_BOUND: u64 = 2_147_483_648;

/// One past the greatest `i64`.
const INT64_BOUND: u64 = 9_223_372_036_854_775_808;

/// Whether a word is a number: digits without a leading zero.
pub fn is_number(word: &[u8]) -> bool
    ensures { result ≡ is_number word.now }
{
    match word.split_first() {
        None => false,
        Some((first, rest)) => first.is_ascii_digit()
            && all_digits(rest)
            && (*first != b'0' || rest.is_empty()),
    }
}

fn all_digits(word: &[u8]) -> bool
    ensures { result ≡ all_ascii_digits word.now }
{
    for byte in word {
        if !byte.is_ascii_digit() {
            return false;
        }
    }
    true
}

/// The number that a number's digits and one more digit stand for, where it is below 2^64.
fn with_digit(value: u64, digit: u8) -> Option<u64>
    requires { 48 ≤ digit }
    ensures { MatchOption result (2 ^ 64 ≤ value * 10 + (digit - 48)) (λ n. n ≡ value * 10 + (digit - 48)) }
{
    value.checked_mul(10)?.checked_add(u64::from(digit - b'0'))
}

/// The number that digits stand for, where it is below 2^64.
fn value(word: &[u8]) -> Option<u64>
    requires { all_ascii_digits word.now ≡ true }
    ensures { MatchOption result (2 ^ 64 ≤ number_of word.now) (λ n. n ≡ number_of word.now) }
{
    let mut value: u64 = 0;
    for digit in word {
        value = with_digit(value, *digit)?;
    }
    Some(value)
}

/// The number that a word is, where it is one of at most `most`.
pub fn number(word: &[u8], most: u64) -> Option<u64>
    ensures none { IfNone result (is_number_to most word.now ≡ false) }
    ensures passes { OnSome result (is_number_to most word.now ≡ true) }
    ensures value { IfSome result (λ n. (n ≡ number_of word.now) × (n ≤ most)) }
    ensures spelled { IfSome result (λ n. decimal n ≡ word.now) }
{
    if !is_number(word) {
        return None;
    }
    numbers();
    let value = value(word)?;
    if value <= most { Some(value) } else { None }
}

/// The number below 0 that a word behind a `-` stands for, where it is at least -bound.
fn negative(digits: &[u8], bound: u64) -> Option<i64>
    requires { bound ≤ 2 ^ 63 }
    ensures none { IfNone result ((is_number_to bound digits.now && nat_lt 0 (number_of digits.now)) ≡ false) }
    ensures passes { OnSome result ((is_number_to bound digits.now && nat_lt 0 (number_of digits.now)) ≡ true) }
    ensures range { IfSome result (λ z. is_signed bound z ≡ true) }
    ensures spelled { IfSome result (λ z. signed_decimal z ≡ 45 ∷ digits.now) }
{
    let magnitude = number(digits, bound)?;
    let below_one = magnitude.checked_sub(1)?;
    Some(-1 - below_one as i64)
}

/// The number that a word is, where it is one from -bound to bound - 1.
fn signed(word: &[u8], bound: u64) -> Option<i64>
    requires some { 0 < bound }
    requires fits { bound ≤ 2 ^ 63 }
    ensures none { IfNone result (is_signed_word bound word.now ≡ false) }
    ensures passes { OnSome result (is_signed_word bound word.now ≡ true) }
    ensures range { IfSome result (λ z. is_signed bound z ≡ true) }
    ensures spelled { IfSome result (λ z. signed_decimal z ≡ word.now) }
{
    match word.split_first() {
        None => None,
        Some((b'-', digits)) => negative(digits, bound),
        Some(_) => Some(number(word, bound - 1)? as i64),
    }
}

/// The amount that a word is, where it is a number from -10,000 to 10,000.
pub fn amount(word: &[u8]) -> Option<i32>
    ensures none { IfNone result (is_amount_word word.now ≡ false) }
    ensures passes { OnSome result (is_amount_word word.now ≡ true) }
    ensures range { IfSome result (λ z. is_amount z ≡ true) }
    ensures spelled { IfSome result (λ z. signed_decimal z ≡ word.now) }
{
    match word.split_first() {
        None => None,
        Some((b'-', digits)) => Some(negative(digits, MAX_AMOUNT)? as i32),
        Some(_) => Some(number(word, MAX_AMOUNT)? as i32),
    }
}

/// The truth value that a word is, if it is one.
fn truth(word: &[u8]) -> Option<bool>
    ensures none { IfNone result ((bytes_eq word.now (codes "true") || bytes_eq word.now (codes "false")) ≡ false) }
    ensures passes { OnSome result ((bytes_eq word.now (codes "true") || bytes_eq word.now (codes "false")) ≡ true) }
    ensures spelled { IfSome result (λ b. number_word (Number.Bool b) ≡ word.now) }
{
    if word == b"true".as_slice() {
        Some(true)
    } else if word == b"false".as_slice() {
        Some(false)
    } else {
        None
    }
}

/// The number of an atomic of this type that a word is, if it is one.
pub fn atomic_number(kind: AtomicKind, word: &[u8]) -> Option<Number>
    ensures none { IfNone result (is_number_word kind word.now ≡ false) }
    ensures passes { OnSome result (is_number_word kind word.now ≡ true) }
    ensures of { IfSome result (λ n. is_of kind n ≡ true) }
    ensures spelled { IfSome result (λ n. number_word n ≡ word.now) }
{
    match kind {
        AtomicKind::Int32 => Some(Number::Int32(signed(word, INT32_BOUND)? as i32)),
        AtomicKind::Int64 => Some(Number::Int64(signed(word, INT64_BOUND)?)),
        AtomicKind::Uint32 => Some(Number::Uint32(number(word, u64::from(u32::MAX))? as u32)),
        AtomicKind::Uint64 => Some(Number::Uint64(number(word, u64::MAX)?)),
        AtomicKind::Bool => Some(Number::Bool(truth(word)?)),
    }
}
