//! A vector clock.
ghost use Rattle.std.specs.Prelude.{◌≡◌, ◌+◌, ◌^◌, ◌<◌, length, replicate, slice_index, set};
ghost use Rattle.vector_clocks.specs.Joins.{Joins};

/// For each of 32 workers, how many of its steps are known. Of a worker's steps the first ones are.
#[derive(Clone, Copy, Debug, Drop)]
pub struct Clock {
    pub counts: [u32; 32],
    pub ghost size: { length counts ≡ 32 },
}

impl Clock {
    /// A clock that knows of no step.
    pub fn zero() -> Clock
        ensures { result.counts ≡ replicate 32 0 }
    {
        Clock { counts: [0; 32] }
    }

    /// Takes in what another clock knows.
    pub fn join(&mut self, other: &Clock)
        ensures { Joins self.old.counts other.now.counts self.new.counts }
    {
        for w in 0..32 {
            self.counts[w] = self.counts[w].max(other.counts[w]);
        }
    }

    /// Counts one step more of a worker.
    pub fn count(&mut self, worker: usize)
        requires worker { worker < 32 }
        requires few { slice_index self.old.counts worker + 1 < 2 ^ 32 }
        ensures { self.new.counts ≡ set self.old.counts worker (slice_index self.old.counts worker + 1) }
    {
        self.counts[worker] += 1;
    }
}
