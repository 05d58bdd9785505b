//! Those that wait, and when waiting is starving.
//!
//! The words of Go's source on fairness, in short. A mutex has two modes. In *normal mode* waiters
//! queue in the order of their arrival, but a waiter that is woken doesn't own the mutex: it
//! competes with newcomers, which have the advantage that they are running already and may be many.
//! A woken waiter that loses goes to the front of the queue. Once a waiter has failed to acquire the
//! mutex for more than 1 ms, it switches the mutex to *starvation mode*.
//!
//! In starvation mode an unlock hands the mutex directly to the waiter at the front of the queue.
//! Newcomers don't try to acquire it, even if it appears to be unlocked, and queue at the tail. A
//! waiter that is handed the mutex switches it back to normal mode if it is the last one in the
//! queue, or if it didn't starve itself.
//!
//! Normal mode is fast, since one caller may acquire the mutex several times in a row while others
//! wait. Starvation mode bounds how long one of them is passed over.
ghost use Rattle.std.specs.Prelude.{◌≡◌};

/// The nanoseconds of waiting past which a waiter starves: 1 ms is still no starving.
pub const STARVATION_THRESHOLD: u64 = 1_000_000;

/// A caller that waits.
#[derive(Clone, Copy, PartialEq, Eq)]
pub struct Waiter {
    /// Its number.
    pub caller: u32,
    /// The moment of its arrival, in nanoseconds.
    pub arrival: u64,
    /// Whether it has asked for starvation mode.
    pub asked: bool,
}

/// Who is between an unlock and the event by which it goes on: at most one.
#[derive(Clone, Copy, PartialEq, Eq)]
pub enum Flight {
    /// Nobody is.
    Nobody,
    /// This waiter was woken, and is out of the queue.
    Woken(Waiter),
    /// The waiter at the front of the queue was handed the mutex, and stays there.
    Handed,
}

impl Waiter {
    ghost use Rattle.mutex_core.specs.Starving.{is_starving};

    /// Whether the waiter has asked for starvation mode, or does so now: it has waited for more than
    /// `STARVATION_THRESHOLD`. A moment before its arrival counts as no waiting.
    pub fn is_starving(self, now: u64) -> bool
        ensures { result ≡ is_starving self now }
    {
        self.asked || now.saturating_sub(self.arrival) > STARVATION_THRESHOLD
    }
}
