//! The call of a once's caller.
ghost use Rattle.std.specs.Prelude.{◌<◌};
ghost use Rattle.go_waits.specs.OnceRuns.{Does};
ghost use Rattle.go_waits.specs.Onces.{IsPassOf};
ghost use Rattle.ruled_object.specs.Passes.{left_of};
ghost use Rattle.go_sync.specs.OnceCallers.{Makes};
ghost use Rattle.go_sync.specs.OnceRunners.{MayRun};
ghost use Rattle.go_sync.specs.Renewing.{IsSame};

use super::OnceCaller;
use go_waits::{Once, OncePass, OnceRun};
use ruled_object::MAX_CALLS;
use std::sync::Wait;
use sync_model::{Answer, NoNote};
use sync_outside::{At, Clock};

// A pass that is good for a call: where none is left it is renewed.
fn ready(once: &Once<(), NoNote>, pass: &mut OncePass<(), NoNote>)
    requires { IsPassOf once.now pass.old }
    ensures pass { IsPassOf once.now pass.new × (0 < left_of pass.new) }
    ensures same { IsSame pass.old pass.new }
{
    if pass.left() == 0 {
        once.renew(pass, MAX_CALLS);
    }
}

impl<C: Clock> OnceCaller<'_, C> {
    /// Go's `Do`: calls the function where no call did before, and else waits for the return of the one that did. The function
    /// isn't called again, whether it succeeded or failed: its answer is the caller's that ran it. It is called only where its
    /// condition holds once the caller is known to run it (`MayRun`).
    #[tactic(auto, using(crate::proofs::Renewed::made_so))]
    pub fn do_once<E: Drop, F: FnOnce() -> Result<(), E> + Drop, R: Wait>(
        &mut self,
        rt: &R,
        function: F,
    ) -> Answer<OnceRun<E>>
        requires { (runner : _) → MayRun self.old.once.now self.old.pass runner → F.pre function }
        ensures { Makes (Does (F.post function)) self.old result self.new }
    {
        ready(self.once, &mut self.pass);
        let at: At<NoNote, C> = At {
            home: &(),
            clock: self.clock,
        };
        self.once
            .do_once(rt, &at, &mut self.pass, &mut NoNote::new(), function)
    }
}
