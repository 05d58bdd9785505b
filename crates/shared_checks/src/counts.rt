//! For each caller, how many of its shared calls are known.
ghost use Rattle.std.specs.Prelude.{◌≡◌, ◌↔◌, ℕ, length, replicate, IsTrue};
ghost use Rattle.sync_model.specs.Front.{AtLeast};
ghost use Rattle.shared_checks.specs.Counts.{Joins};

use sync_model::MAX_CALLERS;

/// The counts of a front, which is a vector clock: for each caller, how many of its shared calls are known.
#[derive(Clone, Copy, Debug, Drop)]
pub struct Counts {
    pub of: [u64; MAX_CALLERS],
    pub ghost size: { length of ≡ 64 },
}

impl Counts {
    /// Nothing is known.
    pub fn none() -> Counts
        ensures { result.of ≡ replicate 64 0 }
    {
        Counts {
            of: [0; MAX_CALLERS],
        }
    }

    /// Whether these are, caller by caller, at least the others.
    pub fn covers(&self, other: &Counts) -> bool
        ensures { IsTrue result ↔ AtLeast self.now.of other.now.of }
    {
        for caller in 0..MAX_CALLERS {
            if self.of[caller] < other.of[caller] {
                return false;
            }
        }
        true
    }

    /// Takes in what others know.
    pub fn join(&mut self, other: &Counts)
        ensures { Joins self.old.of other.now.of self.new.of }
    {
        for caller in 0..MAX_CALLERS {
            self.of[caller] = self.of[caller].max(other.of[caller]);
        }
    }
}
