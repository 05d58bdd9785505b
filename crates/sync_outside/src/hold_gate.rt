//! A gate that holds one call.
use crate::gate::Gate;
use std::sync::Wait;
use std::sync::atomic::{AtomicBool, AtomicU64, Ordering};
use std::thread;

/// How often a call that is held looks whether the other one was answered.
const LOOKS: u32 = 1_000_000;

/// Holds call 0 of worker 0 or 1 until call 0 of the other of the two was answered. At any other number it
/// holds no call.
///
/// It looks at most 1,000,000 times, with a yield after each look, then records that it gave up, and lets
/// the call go. It counts the calls that were answered.
#[derive(Drop)]
pub struct HoldGate {
    held: u32,
    is_answered: AtomicBool,
    has_given_up: AtomicBool,
    answered: AtomicU64,
}

impl HoldGate {
    /// Holds call 0 of worker `held`, where that is 0 or 1.
    pub fn new(held: u32) -> Self {
        HoldGate {
            held,
            is_answered: AtomicBool::new(false),
            has_given_up: AtomicBool::new(false),
            answered: AtomicU64::new(0),
        }
    }

    /// Whether a call was let go although the other one was not answered.
    pub fn has_given_up(&self) -> bool {
        self.has_given_up.load(Ordering::SeqCst)
    }

    /// How many calls were answered.
    pub fn answered(&self) -> u64 {
        self.answered.load(Ordering::SeqCst)
    }

    /// The worker whose call 0 is waited for, where one is held.
    fn other(&self) -> Option<u32> {
        1_u32.checked_sub(self.held)
    }
}

impl Gate for HoldGate {
    fn before<R: Wait>(&self, _rt: &R, worker: u32, index: u32) {
        if self.other().is_none() || worker != self.held || index != 0 {
            return;
        }
        for _ in 0..LOOKS {
            if self.is_answered.load(Ordering::SeqCst) {
                return;
            }
            thread::yield_now();
        }
        self.has_given_up.store(true, Ordering::SeqCst);
    }

    fn after<R: Wait>(&self, _rt: &R, worker: u32, index: u32) {
        self.answered.fetch_add(1, Ordering::SeqCst);
        if self.other() == Some(worker) && index == 0 {
            self.is_answered.store(true, Ordering::SeqCst);
        }
    }
}
