//! Threads of the machine.
ghost use Rattle.std.specs.Prelude.{◌≡◌, ◌≤◌};
ghost use Rattle.sync_outside.specs.Faults.{Rose, RoseBy};
ghost use Rattle.sync_outside.specs.Starts.{Starts, no_starts, after_refusal, after_done};

use crate::counted::{Refusal, Round};
use crate::spawner::Spawner;
use crate::start_counts::StartCounts;
use std::marker::Model;

/// Starts each job in a thread of the machine, the last job first.
#[derive(Drop)]
pub struct ThreadSpawner {
    counts: StartCounts,
}

impl Model for ThreadSpawner {
    ghost Value = { Starts };

    ghost view = { λ s. s.counts };
}

impl ThreadSpawner {
    /// A spawner that started nothing yet.
    pub fn new() -> Self
        ensures { result ≡ no_starts }
    {
        ThreadSpawner {
            counts: StartCounts::new(),
        }
    }

    /// How many starts were refused, how many jobs were done, and in how many calls.
    pub fn counts(&self) -> &StartCounts
        ensures { result.now ≡ self.now }
    {
        &self.counts
    }
}

impl Spawner for ThreadSpawner {
    ghost faults = { λ s. s.faults };

    ghost ran = { λ s. s.ran };

    ghost rounds = { λ s. s.rounds };

    ghost admits = { λ _ starts. starts };

    fn admitted(&self, starts: usize) -> usize {
        starts
    }

    fn count_refusal(&mut self, _refusal: &Refusal)
        // What every spawner promises.
        ensures rose { Rose self.old.faults self.new.faults }
        ensures faults { self.old.faults ≤ self.new.faults }

        // All that it does.
        ensures after { self.new ≡ after_refusal self.old }
    {
        self.counts.add_refusal();
    }

    fn count_done(&mut self, round: &Round)
        // What every spawner promises.
        ensures ran { RoseBy round.now self.old.ran self.new.ran }

        // All that it does.
        ensures after { self.new ≡ after_done round.now self.old }
    {
        self.counts.add_done(round.jobs());
    }
}
