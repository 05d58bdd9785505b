//! A clock that shows given moments.
ghost use Rattle.std.specs.Prelude.{◌≡◌};
ghost use Rattle.sync_outside.specs.Moments.{moments_of, IsShown};

use crate::clock::Clock;
use std::sync::atomic::{AtomicUsize, Ordering};

/// A list of moments, shown one after the other. The last one is repeated; with none it is always 0.
///
/// Threads that share it each take the next moment.
#[derive(Drop)]
pub struct MemClock {
    moments: Vec<u64>,
    shown: AtomicUsize,
}

impl MemClock {
    /// A clock that shows these moments, in nanoseconds.
    pub fn new(moments: Vec<u64>) -> Self
        ensures { moments_of result ≡ moments.items }
    {
        MemClock {
            moments,
            shown: AtomicUsize::new(0),
        }
    }
}

impl Clock for MemClock {
    ghost shows = { λ clock moment. IsShown clock moment };

    fn now(&self) -> u64 {
        let last = self.moments.len().saturating_sub(1);
        let next = |place: usize| { if place < last { Some(place + 1) } else { None } };
        let place = self
            .shown
            .fetch_update(Ordering::SeqCst, Ordering::SeqCst, next)
            .unwrap_or(last);
        self.moments.get(place.min(last)).copied().unwrap_or(0)
    }
}
