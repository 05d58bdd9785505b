//! The call of the caller of a once that keeps a value.
ghost use Rattle.std.specs.Prelude.{◌<◌, true};
ghost use Rattle.wait_cores.specs.OnceMachine.{next};
ghost use Rattle.go_waits.specs.OnceCalls.{Gives, RunsOnce};
ghost use Rattle.go_waits.specs.Onces.{start_of, IsOnceLawful, IsPassOf};
ghost use Rattle.ruled_object.specs.Passes.{left_of};
ghost use Rattle.go_sync.specs.Made.{Made};
ghost use Rattle.go_sync.specs.OnceRunners.{MayRun};
ghost use Rattle.go_sync.specs.OnceValueCallers.{Makes};
ghost use Rattle.go_sync.specs.Renewing.{IsSame};

use super::{OnceValue, OnceValueCaller};
use go_waits::{OnceBegun, OncePass};
use ruled_object::MAX_CALLS;
use ruled_object::laws::growth;
use std::sync::Wait;
use sync_model::{Answer, NoNote};
use sync_outside::{At, Clock};
use wait_cores::OnceCore;

// A pass that is good for a call: where none is left it is renewed.
fn ready<T: Copy>(once: &OnceValue<T>, pass: &mut OncePass<T, NoNote>)
    requires { IsPassOf once.now pass.old }
    ensures pass { IsPassOf once.now pass.new × (0 < left_of pass.new) }
    ensures same { IsSame pass.old pass.new }
{
    if pass.left() == 0 {
        once.renew(pass, MAX_CALLS);
    }
}

impl<T: Copy, C: Clock> OnceValueCaller<'_, T, C> {
    /// What the function came to: it is called where no call did before, and else the call waits for the return of the one that
    /// did. Each caller comes with the function, of which one alone is called: only where its condition holds once the caller is
    /// known to run it (`MayRun`).
    #[tactic(auto, using(crate::proofs::Renewed::made_again))]
    pub fn call<F: FnOnce() -> T + Drop, R: Wait>(&mut self, rt: &R, function: F) -> Answer<T>
        requires { (runner : _) → MayRun self.old.once.now self.old.pass runner → F.pre function }
        ensures { Makes (Gives (F.post function)) self.old result self.new }
    {
        ready(self.once, &mut self.pass);
        kept(rt, self.once, self.clock, &mut self.pass, function)
    }
}

// What the once keeps. A caller that is to run the function ends it: between the two its pass isn't between two calls.
fn kept<T: Copy, F: FnOnce() -> T + Drop, C: Clock, R: Wait>(
    rt: &R,
    once: &OnceValue<T>,
    clock: &C,
    pass: &mut OncePass<T, NoNote>,
    function: F,
) -> Answer<T>
    requires function { (runner : _) → MayRun once.now pass.old runner → F.pre function }
    requires pass { IsPassOf once.now pass.old × (0 < left_of pass.old) }
    ensures pass { IsPassOf once.now pass.new }
    ensures made { Made next true (start_of once.now) (Gives (F.post function)) pass.old result pass.new }
    ensures once { RunsOnce pass.new }
    ensures journal { IsOnceLawful once.now pass.new }
{
    growth::<OnceCore<T>, NoNote>();
    let at: At<NoNote, C> = At { home: &(), clock };
    let mut note = NoNote::new();
    match once.begin(rt, &at, pass, &mut note) {
        Answer::Done(OnceBegun::Run(running)) => {
            let value = function();
            match once.end(running, rt, &at, pass, &mut note, value) {
                Answer::Done(()) => Answer::Done(value),
                Answer::Halted(misuse) => Answer::Halted(misuse),
            }
        }
        Answer::Done(OnceBegun::Already(value)) => Answer::Done(value),
        Answer::Halted(misuse) => Answer::Halted(misuse),
    }
}
