//! The note of a caller of a shared table: a seat at the table, whose view has seen what the caller knows.
ghost use Rattle.std.specs.Prelude.{◌≡◌, ℕ};
ghost use Rattle.table_rule.specs.Views.{spare_in, next_in};

use atomic_table::Seat;
use stamps::Stamp;
use table_words::View;

/// What a caller knows of all shared calls, and the words of the table that it may still use for entries and nodes.
#[derive(Drop)]
pub struct SharedNote {
    pub(crate) seat: Seat<(), View>,
    pub(crate) number: u32,
    // Where the room begins, and how many units it has.
    pub(crate) next: u64,
    pub(crate) spare: u32,
    pub(crate) stamp: Stamp,
    ghost number_is: { seat.me.0.number ≡ number },
    ghost next_is: { next_in next seat.me.0.owns ≡ next },
    ghost spare_is: { spare_in spare seat.me.0.owns ≡ spare },
}

// The number that a seat's view has, for proofs: that of its caller's last call.
#[inline(always)]
pub(crate) fn time_of(seat: &Seat<(), View>) -> Stamp
    ensures { result.time ≡ seat.now.me.0.time }
{
    picked(seat)
}

// A number that the caller picks by the seat.
#[inline(always)]
fn picked(_seat: &Seat<(), View>) -> Stamp
    ghost time: { ℕ }
    ensures { result.time ≡ time }
{
    Stamp::at()
}
