//! A function that is taken out to be called, and so called once.
ghost use Rattle.std.specs.Prelude.{◌≡◌, IfSome};
ghost use Rattle.go_waits.specs.OnceValues.{stored_in};
ghost use Rattle.go_waits.specs.Onces.{IsRunnerOf};

use crate::once::{Once, OncePass};
use counted_slot::{Counted, FREE, Fits, TAKEN};
use std::snapshot::Snapshot;
use std::sync::Wait;
use std::thread;
use sync_model::Note;

// A function in its slot. The slot knows which one it is.
#[derive(Drop)]
pub(crate) struct InSlot<F> {
    function: F,
}

impl<F> Fits for InSlot<F> {
    type Tag = Snapshot<F>;

    ghost fits = { λ tag lies. lies.function ≡ tag.value };
}

/// A function that callers share until one of them takes it out.
#[derive(Drop)]
pub(crate) struct Stored<F> {
    slot: Counted<Option<InSlot<F>>>,
}

impl<F> Stored<F> {
    pub(crate) fn new(function: F) -> Self
        ensures { stored_in result ≡ function }
    {
        let which = Snapshot::of(&function);
        Stored {
            slot: Counted::new(Some(InSlot { function }), &which),
        }
    }

    // Takes the function out, to be called by value. Only a caller that runs the once's function comes for it. Where it was
    // taken out before, this waits for good.
    pub(crate) fn take<T: Copy, N: Note, R: Wait>(
        &self,
        rt: &R,
        _once: &Once<T, N>,
        _pass: &OncePass<T, N>,
    ) -> F
        requires { IsRunnerOf _once.now _pass.now }
        ensures { result ≡ stored_in self.now }
    {
        for _ in rt.forever() {
            if let Some(function) = self.try_take() {
                return function;
            }
            thread::yield_now();
        }
        unreachable!()
    }

    // Takes the function out where it still lies there.
    fn try_take(&self) -> Option<F>
        ensures { IfSome result (λ function. function ≡ stored_in self.now) }
    {
        let (found, claim) = self.slot.turn(FREE, TAKEN);
        if found != FREE {
            claim.done();
            return None;
        }
        match claim.put(None, FREE) {
            Some(InSlot { function }) => Some(function),
            None => None,
        }
    }
}
