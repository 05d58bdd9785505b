//! What a run of a made workload comes to.
ghost use Rattle.std.specs.Prelude.{◌≡◌};
ghost use Rattle.made_workload.specs.TotalsOf.{totals_of};

use crate::sums::{keys_in, reply_count, total_in, values_in};
use script_calls::Report;

/// What a run of a made workload comes to, in numbers. Each is a sum of numbers of 64 bits, so none wraps.
#[derive(Clone, Copy, PartialEq, Eq)]
pub struct Totals {
    /// How many workers there were.
    pub workers: u128,
    /// How many calls were completed.
    pub calls: u128,
    /// What the int64 holds at the end.
    pub total: u128,
    /// How many keys the map has at the end.
    pub keys: u128,
    /// The sum of their values.
    pub sum: u128,
}

/// What a run that left this behind comes to.
pub fn totals_of(left: &Report) -> Totals
    ensures { result ≡ totals_of left.now }
{
    let ends = left.ends.as_slice();
    Totals {
        workers: left.replies.len() as u128,
        calls: reply_count(left.replies.as_slice()),
        total: total_in(ends),
        keys: keys_in(ends),
        sum: values_in(ends),
    }
}
