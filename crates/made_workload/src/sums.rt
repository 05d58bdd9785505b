//! Sums over what a run left behind.
ghost use Rattle.std.specs.Prelude.{◌≡◌, length, sum_by, count_by};
ghost use Rattle.made_workload.specs.Runs.{number_in, is_key, value_in};

use script_calls::Reply;
use sync_types::{End, Number, Seq};

/// How many replies there are.
pub fn reply_count(replies: &[Seq<Reply<u32>>]) -> u128
    ensures { result ≡ sum_by length replies.now }
{
    let mut count = 0_u128;
    for completed in replies {
        count += completed.len() as u128;
    }
    count
}

/// The number of an end, where it is that of an int64 which isn't below 0.
fn number_in(end: &End) -> u64
    ensures { result ≡ number_in end.now }
{
    match end {
        End::Number {
            number: Number::Int64(number),
            ..
        } => (*number).max(0) as u64,
        _ => 0,
    }
}

/// Whether an end is a key.
fn is_key(end: &End) -> bool
    ensures { result ≡ is_key end.now }
{
    match end {
        End::Number { .. } => false,
        End::Pair { .. } => true,
    }
}

/// Its value.
fn value_in(end: &End) -> u64
    ensures { result ≡ value_in end.now }
{
    match end {
        End::Number { .. } => 0,
        End::Pair { value, .. } => *value,
    }
}

/// The numbers of int64s, summed.
pub fn total_in(ends: &[End]) -> u128
    ensures { result ≡ sum_by number_in ends.now }
{
    let mut total = 0_u128;
    for end in ends {
        total += u128::from(number_in(end));
    }
    total
}

/// How many keys there are.
pub fn keys_in(ends: &[End]) -> u128
    ensures { result ≡ count_by is_key ends.now }
{
    let mut keys = 0_u128;
    for end in ends {
        if is_key(end) {
            keys += 1;
        }
    }
    keys
}

/// Their values, summed.
pub fn values_in(ends: &[End]) -> u128
    ensures { result ≡ sum_by value_in ends.now }
{
    let mut sum = 0_u128;
    for end in ends {
        sum += u128::from(value_in(end));
    }
    sum
}
