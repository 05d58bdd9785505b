//! The counts of who starts threads.
ghost use Rattle.std.specs.Prelude.{◌≡◌, ◌≤◌};
ghost use Rattle.sync_outside.specs.Faults.{Rose, RoseBy};
ghost use Rattle.sync_outside.specs.Starts.{Starts, no_starts, after_refusal, after_done};

use crate::count::Count;
use std::marker::Model;

/// How many starts were refused, how many jobs were done, and in how many calls.
#[derive(Drop)]
pub struct StartCounts {
    faults: Count,
    ran: Count,
    rounds: Count,
}

impl Model for StartCounts {
    ghost Value = { Starts };

    ghost view = { λ c. record { faults = c.faults; ran = c.ran; rounds = c.rounds } };
}

impl StartCounts {
    /// No start yet.
    pub fn new() -> Self
        ensures { result ≡ no_starts }
    {
        StartCounts {
            faults: Count::new(),
            ran: Count::new(),
            rounds: Count::new(),
        }
    }

    /// Counts a start that was refused.
    pub fn add_refusal(&mut self)
        ensures after { self.new ≡ after_refusal self.old }
        ensures rose { Rose self.old.faults self.new.faults }
        ensures faults { self.old.faults ≤ self.new.faults }
    {
        self.faults.raise();
    }

    /// Counts a call in which so many jobs were done.
    pub fn add_done(&mut self, jobs: u64)
        ensures after { self.new ≡ after_done jobs self.old }
        ensures ran { RoseBy jobs self.old.ran self.new.ran }
    {
        self.ran.raise_by(jobs);
        self.rounds.raise();
    }

    /// How many starts were refused.
    pub fn faults(&self) -> u64
        ensures { result ≡ self.now.faults }
    {
        self.faults.get()
    }

    /// How many jobs were done.
    pub fn ran(&self) -> u64
        ensures { result ≡ self.now.ran }
    {
        self.ran.get()
    }

    /// In how many calls all jobs were done.
    pub fn rounds(&self) -> u64
        ensures { result ≡ self.now.rounds }
    {
        self.rounds.get()
    }
}
