//! The calls of a wait group's caller.
ghost use Rattle.std.specs.Prelude.{◌<◌, negsuc};
ghost use Rattle.go_waits.specs.GroupCalls.{Adds, Waits};
ghost use Rattle.go_waits.specs.Groups.{IsPassOf};
ghost use Rattle.ruled_object.specs.Passes.{left_of};
ghost use Rattle.go_sync.specs.GroupCallers.{Makes};
ghost use Rattle.go_sync.specs.Renewing.{IsSame};

use super::GroupCaller;
use go_waits::{GroupPass, WaitGroup};
use ruled_object::MAX_CALLS;
use std::sync::Wait;
use sync_model::{Answer, NoNote};
use sync_outside::{At, Clock};
use sync_types::Misuse;

// A pass that is good for a call: where none is left it is renewed.
pub(crate) fn ready_for_group(group: &WaitGroup<NoNote>, pass: &mut GroupPass<NoNote>)
    requires { IsPassOf group.now pass.old }
    ensures pass { IsPassOf group.now pass.new × (0 < left_of pass.new) }
    ensures same { IsSame pass.old pass.new }
{
    if pass.left() == 0 {
        group.renew(pass, MAX_CALLS);
    }
}

impl<C: Clock> GroupCaller<'_, C> {
    /// Go's `Add`. A counter below 0, or above 2^31 - 1, is a misuse, which it answers, and nothing changes.
    #[tactic(auto, using(crate::proofs::Renewed::made_so))]
    pub fn add<R: Wait>(&mut self, rt: &R, delta: i32) -> Answer<Result<(), Misuse>>
        ensures { Makes (Adds delta) self.old result self.new }
    {
        ready_for_group(self.group, &mut self.pass);
        let at: At<NoNote, C> = At {
            home: &(),
            clock: self.clock,
        };
        self.group
            .add(rt, &at, &mut self.pass, &mut NoNote::new(), delta)
    }

    /// Go's `Done`: takes 1 from the counter.
    pub fn done<R: Wait>(&mut self, rt: &R) -> Answer<Result<(), Misuse>>
        ensures { Makes (Adds (negsuc 0)) self.old result self.new }
    {
        self.add(rt, -1)
    }

    /// Go's `Wait`: waits until the counter is 0.
    #[tactic(auto, using(crate::proofs::Renewed::made_so))]
    pub fn wait<R: Wait>(&mut self, rt: &R) -> Answer<Result<(), Misuse>>
        ensures { Makes Waits self.old result self.new }
    {
        ready_for_group(self.group, &mut self.pass);
        let at: At<NoNote, C> = At {
            home: &(),
            clock: self.clock,
        };
        self.group.wait(rt, &at, &mut self.pass, &mut NoNote::new())
    }
}
