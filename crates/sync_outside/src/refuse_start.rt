//! A spawner that refuses a start.
ghost use Rattle.std.specs.Prelude.{◌≡◌, ◌≤◌};
ghost use Rattle.sync_outside.specs.Faults.{Rose, RoseBy};
ghost use Rattle.sync_outside.specs.Starts.{Refusing, no_starts, after_refusal, after_done, admitted_before};

use crate::counted::{Refusal, Round};
use crate::spawner::Spawner;
use crate::start_counts::StartCounts;
use std::marker::Model;

/// Threads of the machine, of which the start with a given number is refused.
///
/// The starts of a call are counted from 1.
#[derive(Drop)]
pub struct RefuseStart {
    refused: usize,
    counts: StartCounts,
}

impl Model for RefuseStart {
    ghost Value = { Refusing };

    ghost view = { λ s. record { refused = s.refused; counts = s.counts } };
}

impl RefuseStart {
    /// Refuses the start with this number in each call; with 0 none.
    pub fn new(refused: usize) -> Self
        ensures { result ≡ record { refused = refused; counts = no_starts } }
    {
        RefuseStart {
            refused,
            counts: StartCounts::new(),
        }
    }

    /// How many starts were refused, how many jobs were done, and in how many calls.
    pub fn counts(&self) -> &StartCounts
        ensures { result.now ≡ self.now.counts }
    {
        &self.counts
    }
}

impl Spawner for RefuseStart {
    ghost faults = { λ s. s.counts.faults };

    ghost ran = { λ s. s.counts.ran };

    ghost rounds = { λ s. s.counts.rounds };

    ghost admits = { λ s starts. admitted_before s.refused starts };

    fn admitted(&self, starts: usize) -> usize {
        match self.refused.checked_sub(1) {
            Some(before) => before,
            None => starts,
        }
    }

    fn count_refusal(&mut self, _refusal: &Refusal)
        // What every spawner promises.
        ensures rose { Rose self.old.counts.faults self.new.counts.faults }
        ensures faults { self.old.counts.faults ≤ self.new.counts.faults }

        // All that it does.
        ensures after { self.new ≡ record self.old { counts = after_refusal self.old.counts } }
    {
        self.counts.add_refusal();
    }

    fn count_done(&mut self, round: &Round)
        // What every spawner promises.
        ensures ran { RoseBy round.now self.old.counts.ran self.new.counts.ran }

        // All that it does.
        ensures after { self.new ≡ record self.old { counts = after_done round.now self.old.counts } }
    {
        self.counts.add_done(round.jobs());
    }
}
