//! A count of calls, of faults or of jobs.
ghost use Rattle.std.specs.Prelude.{◌≡◌, ℕ, ◌≤◌};
ghost use Rattle.sync_outside.specs.Faults.{Rose, RoseBy, raised, raised_by};

use std::marker::Model;

/// How often something came. It stands still at 2^64 - 1.
#[derive(Drop)]
pub struct Count {
    count: u64,
}

impl Model for Count {
    ghost Value = { ℕ };

    ghost view = { λ c. c.count };
}

impl Count {
    /// It never came yet.
    pub fn new() -> Self
        ensures { result ≡ 0 }
    {
        Count { count: 0 }
    }

    /// It came once more.
    pub fn raise(&mut self)
        ensures raised { self.new ≡ raised self.old }
        ensures rose { Rose self.old self.new }
        ensures never_falls { self.old ≤ self.new }
    {
        self.raise_by(1);
    }

    /// It came this many times more.
    pub fn raise_by(&mut self, times: u64)
        ensures raised { self.new ≡ raised_by times self.old }
        ensures rose { RoseBy times self.old self.new }
        ensures never_falls { self.old ≤ self.new }
    {
        self.count = self.count.saturating_add(times);
    }

    /// How often it came.
    pub fn get(&self) -> u64
        ensures { result ≡ self.now }
    {
        self.count
    }
}
