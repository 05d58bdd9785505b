//! How a program can misuse an object, with Go's texts.
ghost use Rattle.std.specs.Prelude.{◌≡◌};

/// A misuse that ends a run: a fatal error or a panic of Go's packages `sync` and `golang.org/x/sync/semaphore`.
#[derive(Clone, Copy, Debug, PartialEq, Eq)]
pub enum Misuse {
    /// `Mutex.Unlock` of a mutex that isn't locked.
    UnlockOfUnlockedMutex,
    /// `RWMutex.RUnlock` of a lock that no reader holds.
    RUnlockOfUnlockedRwMutex,
    /// `RWMutex.Unlock` of a lock that no writer holds.
    UnlockOfUnlockedRwMutex,
    /// A `WaitGroup` counter below 0, or above 2^31 - 1.
    NegativeWaitGroupCounter,
    /// A `WaitGroup` that is used again before an earlier `Wait` has returned.
    WaitGroupReused,
    /// A release of a weighted semaphore of more than is held.
    SemaphoreOverReleased,
}

impl Misuse {
    ghost use Rattle.sync_types.specs.Misuse.{text_of};

    /// The line that Go's runtime prints for it.
    pub fn text(self) -> &'static str
        ensures { result.now ≡ text_of self }
    {
        match self {
            Misuse::UnlockOfUnlockedMutex => "fatal error: sync: unlock of unlocked mutex",
            Misuse::RUnlockOfUnlockedRwMutex => "fatal error: sync: RUnlock of unlocked RWMutex",
            Misuse::UnlockOfUnlockedRwMutex => "fatal error: sync: Unlock of unlocked RWMutex",
            Misuse::NegativeWaitGroupCounter => "panic: sync: negative WaitGroup counter",
            Misuse::WaitGroupReused => {
                "panic: sync: WaitGroup is reused before previous Wait has returned"
            }
            Misuse::SemaphoreOverReleased => "panic: semaphore: released more than held",
        }
    }
}
