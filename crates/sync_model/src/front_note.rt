//! A note with a front alone.
ghost use Rattle.std.specs.Prelude.{◌≡◌, ℕ, ◌<◌, ◌≤◌, ◌*◌, None, max, slice_index};
ghost use Rattle.sync_model.specs.Front.{Front};

use crate::note::Note;
use stamps::Stamp;
use std::marker::Model;

/// The most callers of an object.
pub const MAX_CALLERS: usize = 64;

/// How many counts a chunk has.
const CHUNK: usize = 16;

/// Up to so many chunks a loop over the counts of these takes less time than one over all.
const FEW_CHUNKS: usize = 2;

/// A front of 64 numbers, which is nobody's note. A count has 32 bits, so that a processor compares several at once. A note
/// in which all counts but the first 32 are 0 is taken in faster, and faster still where all but the first 16 are.
#[derive(Drop)]
pub struct FrontNote {
    counts: [u32; MAX_CALLERS],
    // All counts behind this many chunks are 0.
    chunks: usize,
    stamp: Stamp,
}

impl Model for FrontNote {
    ghost Value = { Front };

    ghost view = { λ n. record { counts = n.counts; time = n.stamp.time } };

    ghost invariant = { λ n. (n.chunks ≤ 4) × ((caller : ℕ) → 16 * n.chunks ≤ caller → slice_index n.counts caller ≡ 0) };
}

impl FrontNote {
    /// A note with these counts, of whom no event is known.
    pub fn new(counts: [u32; MAX_CALLERS]) -> Self
        ensures { result ≡ record { counts = counts; time = 0 } }
    {
        FrontNote {
            chunks: chunks_of(&counts),
            counts,
            stamp: Stamp::first(),
        }
    }

    /// How many shared calls of a caller are known.
    pub fn count(&self, caller: usize) -> u32
        requires { caller < MAX_CALLERS }
        ensures { result ≡ slice_index self.now.counts caller }
    {
        self.counts[caller]
    }
}

impl Note for FrontNote {
    type Home = ();

    ghost front = { λ n. n };

    ghost own = { λ _. None };

    ghost at = { λ _ _. Unit {0} };

    ghost counted = { λ _ _ _. tt };

    fn copy(&mut self, _home: &()) -> Self {
        FrontNote {
            chunks: self.chunks,
            counts: self.counts,
            stamp: self.stamp.same(),
        }
    }

    /// Each count becomes the greater of the two.
    fn merge(&mut self, home: &(), mut other: Self)
        ensures counts { (caller : ℕ) → slice_index self.new.counts caller ≡ max (slice_index self.old.counts caller) (slice_index other.counts caller) }
        ensures time { self.new.time ≡ self.old.time }
    {
        self.take_in(home, &mut other);
    }

    /// Each count becomes the greater of the two, and the other note stays as it is. There is no copy.
    fn take_in(&mut self, _home: &(), other: &mut Self)
        ensures counts { (caller : ℕ) → slice_index self.new.counts caller ≡ max (slice_index self.old.counts caller) (slice_index other.old.counts caller) }
        ensures time { self.new.time ≡ self.old.time }
        ensures other { other.new ≡ other.old }
    {
        if other.chunks <= FEW_CHUNKS {
            raise(&mut self.counts, &other.counts, CHUNK * other.chunks);
        } else {
            raise(&mut self.counts, &other.counts, MAX_CALLERS);
        }
        if self.chunks < other.chunks {
            self.chunks = other.chunks;
        }
    }

    fn meet(&mut self, other: &mut Self) {
        self.stamp.meet(&mut other.stamp);
    }
}

// How many chunks there are up to the last count that isn't 0.
fn chunks_of(counts: &[u32; MAX_CALLERS]) -> usize
    ensures chunks { result ≤ 4 }
    ensures rest { (caller : ℕ) → 16 * result ≤ caller → slice_index counts.now caller ≡ 0 }
{
    let mut used = 0;
    for caller in 0..MAX_CALLERS {
        if counts[caller] > 0 {
            used = caller + 1;
        }
    }
    used.div_ceil(CHUNK)
}

// Each of so many counts becomes the greater of the two.
#[inline(always)]
fn raise(counts: &mut [u32; MAX_CALLERS], others: &[u32; MAX_CALLERS], end: usize)
    requires { end ≤ MAX_CALLERS }
    ensures raised { (caller : ℕ) → caller < end → slice_index counts.new caller ≡ max (slice_index counts.old caller) (slice_index others.now caller) }
    ensures rest { (caller : ℕ) → end ≤ caller → slice_index counts.new caller ≡ slice_index counts.old caller }
{
    for caller in 0..end {
        counts[caller] = counts[caller].max(others[caller]);
    }
}
