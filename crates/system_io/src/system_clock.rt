//! The machine's clock.
use std::rt;
use std::time::Duration;
use sync_outside::Clock;

/// The nanoseconds since the clock was made, by the machine's monotonic clock.
///
/// It can't fail: where the machine's clock can't be read it shows 0.
#[derive(Drop)]
pub struct SystemClock<'a, R> {
    rt: &'a R,
    start: Duration,
}

impl<'a, R: rt::Clock> SystemClock<'a, R> {
    /// A clock that starts now.
    pub fn new(rt: &'a R) -> Self {
        SystemClock {
            rt,
            start: rt.monotonic().unwrap_or(Duration::ZERO),
        }
    }
}

impl<R: rt::Clock> Clock for SystemClock<'_, R> {
    // The machine's clock may show any moment.
    ghost shows = { λ _ _. Unit {0} };

    fn now(&self) -> u64 {
        let now = self.rt.monotonic().unwrap_or(self.start);
        u64::try_from(now.saturating_sub(self.start).as_nanos()).unwrap_or(u64::MAX)
    }
}
