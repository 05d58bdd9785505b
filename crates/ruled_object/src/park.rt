//! Waiting for a wake-up by another caller of the object. No call here is an event.
ghost use Rattle.ruled_object.specs.Passes.{IsPassOf};

use crate::object::Object;
use crate::pass::PassOf;
use std::sync::Wait;
use sync_model::{Callers, Note, Worded};

impl<M: Worded, N: Note> Object<M, N> {
    /// Sleeps until the pass's caller is woken. A wake-up that came before is kept, one at most.
    pub fn park<R: Wait>(&self, rt: &R, pass: &PassOf<M, N>)
        requires { IsPassOf self.now pass.now }
    {
        self.parkers[pass.number as usize].park(rt);
    }

    /// Wakes a caller, or keeps the wake-up for its next `park`. A number that is no caller's wakes nobody.
    pub fn unpark(&self, caller: u32) {
        if let Some(parker) = self.parkers.get(caller as usize) {
            parker.unpark();
        }
    }

    // Wakes these callers, each as `unpark` does.
    pub(crate) fn unpark_all(&self, mut callers: Callers) {
        while let Some(caller) = callers.take_first() {
            self.unpark(caller);
        }
    }

    /// Wakes all callers but this one, each as `unpark` does: after a halt, which ends every wait.
    pub fn unpark_others(&self, caller: u32) {
        for (other, parker) in self.parkers.iter().enumerate() {
            if other != caller as usize {
                parker.unpark();
            }
        }
    }
}
