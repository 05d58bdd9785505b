//! Which calls of a fake fail.
ghost use Rattle.std.specs.Prelude.{◌≡◌};
ghost use Rattle.sync_outside.specs.Calls.{Calls, one_more, fails_next};

use std::marker::Model;

/// The calls of a fake, counted from 1, of which those with the given numbers fail. The count stands
/// still at 2^64 - 1.
#[derive(Drop)]
pub struct FailingCalls {
    failing: Vec<u64>,
    made: u64,
}

impl Model for FailingCalls {
    ghost Value = { Calls };

    ghost view = { λ c. record { failing = c.failing.items; made = c.made } };
}

impl FailingCalls {
    /// No call was made yet, and those with the given numbers will fail.
    pub fn new(failing: Vec<u64>) -> Self
        ensures { result ≡ record { failing = failing.items; made = 0 } }
    {
        FailingCalls { failing, made: 0 }
    }

    /// Counts one call, and answers whether it fails.
    pub fn next_fails(&mut self) -> bool
        ensures fails { result ≡ fails_next self.old }
        ensures counted { self.new ≡ one_more self.old }
    {
        self.made = self.made.saturating_add(1);
        let made = self.made;
        self.failing.iter().any(|number| *number == made)
    }
}
