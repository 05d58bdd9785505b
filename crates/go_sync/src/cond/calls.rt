//! The calls of a cond's caller.
ghost use Rattle.std.specs.Prelude.{◌<◌};
ghost use Rattle.go_locks.specs.Mutexes.{IsPassOfMutex};
ghost use Rattle.wait_cores.specs.declared.notify.NotifyEvent.{NotifyEvent};
ghost use Rattle.go_waits.specs.Conds.{IsPassOf};
ghost use Rattle.ruled_object.specs.Passes.{left_of};
ghost use Rattle.go_sync.specs.CondCallers.{Notifies, Waited};
ghost use Rattle.go_sync.specs.Renewing.{IsSame};

use super::CondCaller;
use crate::mutex::MutexCaller;
use go_locks::{Mutex, MutexPass};
use go_waits::{Cond, CondPass};
use ruled_object::MAX_CALLS;
use std::sync::Wait;
use sync_model::{Answer, NoNote};
use sync_outside::{At, Clock};
use sync_types::Misuse;

// A pass that is good for a call: where none is left it is renewed.
fn ready(cond: &Cond<NoNote>, pass: &mut CondPass<NoNote>)
    requires { IsPassOf cond.now pass.old }
    ensures pass { IsPassOf cond.now pass.new × (0 < left_of pass.new) }
    ensures same { IsSame pass.old pass.new }
{
    if pass.left() == 0 {
        cond.renew(pass, MAX_CALLS);
    }
}

// The same of a pass to the mutex.
fn ready_for_lock(mutex: &Mutex<NoNote>, pass: &mut MutexPass<NoNote>)
    requires { IsPassOfMutex mutex.now pass.old }
    ensures pass { IsPassOfMutex mutex.now pass.new × (0 < left_of pass.new) }
    ensures same { IsSame pass.old pass.new }
{
    if pass.left() == 0 {
        mutex.renew(pass, MAX_CALLS);
    }
}

impl<C: Clock> CondCaller<'_, C> {
    /// Go's `Signal`: wakes the thread that has waited longest, if one waits. The caller may hold the mutex, and needn't.
    #[tactic(auto, using(crate::proofs::Renewed::did_so))]
    pub fn signal<R: Wait>(&mut self, rt: &R) -> Answer<()>
        ensures { Notifies NotifyEvent.Signal self.old result self.new }
    {
        ready(self.cond, &mut self.pass);
        let at: At<NoNote, C> = At {
            home: &(),
            clock: self.clock,
        };
        self.cond
            .signal(rt, &at, &mut self.pass, &mut NoNote::new())
    }

    /// Go's `Broadcast`: wakes all threads that wait. The caller may hold the mutex, and needn't.
    #[tactic(auto, using(crate::proofs::Renewed::did_so))]
    pub fn broadcast<R: Wait>(&mut self, rt: &R) -> Answer<()>
        ensures { Notifies NotifyEvent.Broadcast self.old result self.new }
    {
        ready(self.cond, &mut self.pass);
        let at: At<NoNote, C> = At {
            home: &(),
            clock: self.clock,
        };
        self.cond
            .broadcast(rt, &at, &mut self.pass, &mut NoNote::new())
    }

    /// Go's `Wait`: unlocks the mutex, sleeps until a signal or a broadcast wakes it, and locks the mutex again. The caller holds
    /// the mutex; where nobody does it is a misuse, which it answers at once. As in Go, what was waited for is looked at anew
    /// after each `wait`.
    pub fn wait<R: Wait>(
        &mut self,
        rt: &R,
        mutex: &mut MutexCaller<C>,
    ) -> Answer<Result<(), Misuse>>
        ensures { Waited (C.shows self.old.clock.now) self.old mutex.old result self.new mutex.new }
    {
        ready(self.cond, &mut self.pass);
        ready_for_lock(mutex.mutex, &mut mutex.pass);
        let at: At<NoNote, C> = At {
            home: &(),
            clock: self.clock,
        };
        self.cond.wait(
            rt,
            &at,
            &mut self.pass,
            &mut NoNote::new(),
            mutex.mutex,
            &mut mutex.pass,
        )
    }
}
