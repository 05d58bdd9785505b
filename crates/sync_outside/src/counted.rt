//! What is told to a spawner that counts: that a start was refused, or that jobs were done.
//!
//! A count of faults speaks for whoever hands a fault on: it rose, so the fault came from outside. That holds only where the
//! one who is judged by the count can't raise it. So the calls that raise it take a value that nobody but this crate makes,
//! and this crate makes it only where threads were started, or a start was refused.
//!
//! A spawner of another crate gets such a value by reference. It can't be cloned, and the reference ends with the call, so
//! none is left for later. In the call it can be handed on to a spawner inside, as one does that only stands in front of
//! another. That one must let through as many of the starts as were let through, so who stands in front can't refuse a
//! start on its own and have it counted inside.
ghost use Rattle.std.specs.Prelude.{◌≡◌};

use std::marker::Model;

/// That a start was refused: of so many starts so many were let through at most.
#[derive(Debug, Drop)]
pub struct Refusal {
    starts: usize,
    admitted: usize,
}

impl Model for Refusal {
    ghost use Rattle.sync_outside.specs.Starts.{Admission};

    ghost Value = { Admission };

    ghost view = { λ r. record { starts = r.starts; admitted = r.admitted } };
}

impl Refusal {
    /// A start was refused.
    pub(crate) fn new(starts: usize, admitted: usize) -> Self
        ensures { result ≡ record { starts = starts; admitted = admitted } }
    {
        Refusal { starts, admitted }
    }
}

/// That all jobs of one call were done.
#[derive(Debug, Drop)]
pub struct Round {
    jobs: u64,
}

impl Model for Round {
    ghost use Rattle.std.specs.Prelude.{ℕ};

    ghost Value = { ℕ };

    ghost view = { λ r. r.jobs };
}

impl Round {
    /// So many jobs were done.
    pub(crate) fn new(jobs: u64) -> Self
        ensures { result ≡ jobs }
    {
        Round { jobs }
    }

    /// How many jobs were done.
    pub fn jobs(&self) -> u64
        ensures { result ≡ self.now }
    {
        self.jobs
    }
}
