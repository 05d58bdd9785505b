//! The calls of a worker.
ghost use Rattle.std.specs.Prelude.{◌<◌, negsuc};
ghost use Rattle.starts_core.specs.declared.starts.StartEvent.{StartEvent};
ghost use Rattle.go_waits.specs.GroupCalls.{Adds, Waits};
ghost use Rattle.go_waits.specs.StartCalls.{MakesStart, WaitsStart};
ghost use Rattle.go_waits.specs.Startings.{IsPassOf};
ghost use Rattle.ruled_object.specs.Passes.{left_of};
ghost use Rattle.go_sync.specs.GoCallers.{GoesTo, Makes, OnGroup};
ghost use Rattle.go_sync.specs.Renewing.{IsSame};

use super::GoCaller;
use crate::group::ready_for_group;
use go_waits::{Starts, StartsPass};
use ruled_object::MAX_CALLS;
use std::sync::Wait;
use sync_model::{Answer, NoNote};
use sync_outside::{At, Clock};
use sync_types::Misuse;

// A pass that is good for a call: where none is left it is renewed.
fn ready(starts: &Starts<NoNote>, pass: &mut StartsPass<NoNote>)
    requires { IsPassOf starts.now pass.old }
    ensures pass { IsPassOf starts.now pass.new × (0 < left_of pass.new) }
    ensures same { IsSame pass.old pass.new }
{
    if pass.left() == 0 {
        starts.renew(pass, MAX_CALLS);
    }
}

impl<C: Clock> GoCaller<'_, C> {
    /// Go's `WaitGroup.Go`: adds 1 to the counter, and starts the worker with this number, whose `run` calls its function and takes
    /// the 1 off when that returns. A start of a worker that doesn't wait, or of nobody, adds 1 and starts nobody.
    pub fn go<R: Wait>(&mut self, rt: &R, worker: u32) -> Answer<Result<(), Misuse>>
        ensures { GoesTo worker self.old result self.new }
    {
        let member = &mut self.member;
        ready_for_group(member.group, &mut member.pass);
        ready(self.starts, &mut self.pass);
        let at: At<NoNote, C> = At {
            home: &(),
            clock: member.clock,
        };
        member.group.go(
            rt,
            &at,
            &mut member.pass,
            &mut NoNote::new(),
            self.starts,
            &mut self.pass,
            worker,
        )
    }

    /// Go's `Wait`: waits until the counter is 0. Then each worker that was started has returned from its function.
    pub fn wait<R: Wait>(&mut self, rt: &R) -> Answer<Result<(), Misuse>>
        ensures { OnGroup Waits self.old result self.new }
    {
        self.member.wait(rt)
    }

    /// Go's `Done`: takes 1 from the counter. `run` does it behind its function.
    pub fn done<R: Wait>(&mut self, rt: &R) -> Answer<Result<(), Misuse>>
        ensures { OnGroup (Adds (negsuc 0)) self.old result self.new }
    {
        self.member.done(rt)
    }

    /// Waits until the worker is started, or nobody is live who could start it: true where it was started. A live worker is told so at
    /// once.
    #[tactic(auto, using(crate::proofs::Renewed::did_so))]
    pub fn wait_start<R: Wait>(&mut self, rt: &R) -> Answer<bool>
        ensures { Makes WaitsStart self.old result self.new }
    {
        ready(self.starts, &mut self.pass);
        let at: At<NoNote, C> = At {
            home: &(),
            clock: self.member.clock,
        };
        self.starts
            .wait_start(rt, &at, &mut self.pass, &mut NoNote::new())
    }

    /// Says that a live worker starts nobody any more. Where nobody is live, those who still wait to be started are told that they never
    /// will be. `run` does it behind its function.
    #[tactic(auto, using(crate::proofs::Renewed::did_so))]
    pub fn end<R: Wait>(&mut self, rt: &R) -> Answer<()>
        ensures { Makes (MakesStart StartEvent.End) self.old result self.new }
    {
        ready(self.starts, &mut self.pass);
        let at: At<NoNote, C> = At {
            home: &(),
            clock: self.member.clock,
        };
        self.starts.end(rt, &at, &mut self.pass, &mut NoNote::new())
    }
}
