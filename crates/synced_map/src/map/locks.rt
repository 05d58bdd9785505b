//! The mutex of a synced map.
ghost use Rattle.std.specs.Prelude.{◌≡◌, ℕ, ◌<◌, Ok, true};
ghost use Rattle.sync_model.specs.declared.answer.Answer.TheVariants.{Done};
ghost use Rattle.go_locks.specs.MutexCalls.{Locks, Tries, Unlocks};
ghost use Rattle.go_locks.specs.Mutexes.{IsPassOfMutex};
ghost use Rattle.ruled_object.specs.Passes.{left_of};
ghost use Rattle.ruled_object.specs.Renewals.{IsRenewed};
ghost use Rattle.synced_map.specs.SyncedCalls.{known_by, unlocks, OnMutex};
ghost use Rattle.synced_map.specs.Telling.{KnowsBy, Tells};

use super::SyncedMapCaller;
use go_locks::{Mutex, MutexPass};
use ruled_object::MAX_CALLS;
use shared_table::SharedNote;
use std::sync::Wait;
use sync_model::Answer;
use sync_outside::{At, Clock};
use sync_types::Misuse;

// A pass that is good for a call: where none is left it is renewed.
fn ready(mutex: &Mutex<SharedNote>, pass: &mut MutexPass<SharedNote>)
    requires { IsPassOfMutex mutex.now pass.old }
    ensures pass { IsPassOfMutex mutex.now pass.new × (0 < left_of pass.new) }
    ensures same { (calls : ℕ) × IsRenewed calls pass.old pass.new }
{
    if pass.left() == 0 {
        mutex.renew(pass, MAX_CALLS);
    }
}

impl<C: Clock> SyncedMapCaller<'_, C> {
    /// Go's `Lock`: waits until the caller has the mutex. It then knows all that each unlocker before it knew.
    #[tactic(auto, using(crate::proofs::Renewed::did_with))]
    pub fn lock<R: Wait>(&mut self, rt: &R) -> Answer<()>
        ensures made { OnMutex Locks (C.shows self.old.clock.now) self.old result self.new }
        ensures told { result ≡ Done tt → KnowsBy unlocks self.new.lock_pass (known_by self.new) }
    {
        ready(&self.map.mutex, &mut self.lock_pass);
        let at: At<SharedNote, C> = At {
            home: &self.map.table,
            clock: self.clock,
        };
        self.map
            .mutex
            .lock(rt, &at, &mut self.lock_pass, &mut self.caller.note)
    }

    /// Go's `TryLock`: whether the caller has the mutex. Where it has, it knows all that each unlocker before it knew.
    #[tactic(auto, using(crate::proofs::Renewed::did_with))]
    pub fn try_lock<R: Wait>(&mut self, rt: &R) -> Answer<bool>
        ensures made { OnMutex Tries (C.shows self.old.clock.now) self.old result self.new }
        ensures told { result ≡ Done true → KnowsBy unlocks self.new.lock_pass (known_by self.new) }
    {
        ready(&self.map.mutex, &mut self.lock_pass);
        let at: At<SharedNote, C> = At {
            home: &self.map.table,
            clock: self.clock,
        };
        self.map
            .mutex
            .try_lock(rt, &at, &mut self.lock_pass, &mut self.caller.note)
    }

    /// Go's `Unlock`, which tells each later locker all that the caller knows. Of a mutex that isn't locked it is a misuse, which it
    /// answers, and nothing changes.
    #[tactic(auto, using(crate::proofs::Renewed::did_with))]
    pub fn unlock<R: Wait>(&mut self, rt: &R) -> Answer<Result<(), Misuse>>
        ensures made { OnMutex Unlocks (C.shows self.old.clock.now) self.old result self.new }
        ensures tells { result ≡ Done (Ok tt) → Tells unlocks (known_by self.old) self.old.lock_pass self.new.lock_pass }
    {
        ready(&self.map.mutex, &mut self.lock_pass);
        let at: At<SharedNote, C> = At {
            home: &self.map.table,
            clock: self.clock,
        };
        self.map
            .mutex
            .unlock(rt, &at, &mut self.lock_pass, &mut self.caller.note)
    }
}
