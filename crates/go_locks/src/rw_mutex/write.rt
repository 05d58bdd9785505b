//! A writer's calls of a running reader/writer lock.
ghost use Rattle.std.specs.Prelude.{◌≡◌, ◌≢◌, ◌<◌, true};
ghost use Rattle.sync_types.specs.declared.misuse.Misuse.{Misuse};
ghost use Rattle.sync_model.specs.declared.answer.Answer.TheVariants.{Done, Halted};
ghost use Rattle.sync_model.specs.Front.{SameCounts};
ghost use Rattle.rw_core.specs.declared.event.RwEvent.{RwEvent};
ghost use Rattle.rw_core.specs.Edges.{acquires, releases};
ghost use Rattle.rw_core.specs.RwMachine.{next};
ghost use Rattle.ruled_object.specs.Growth.{IsLawful, KeepsNote};
ghost use Rattle.ruled_object.specs.Passes.{left_of, IsOneLess};
ghost use Rattle.go_locks.specs.Calls.{Did};
ghost use Rattle.go_locks.specs.RwMutexes.{rw_start, IsHomeOfRwMutex, IsPassOfRwMutex};
ghost use Rattle.go_locks.specs.RwCalls.{WriteLocks, Tries, Unlocks, AreClocked};

use super::{RwMutex, RwPass};
use crate::answers::{locked, tried, unlocked};
use call_loop::{Lazy, call, call_timed};
use protocols::RwMutexStage;
use std::sync::Wait;
use sync_model::{Answer, Note};
use sync_outside::{At, Clock};
use sync_types::Misuse;

impl<N: Note> RwMutex<N> {
    /// Go's `Lock`: waits until the caller holds the lock, with nobody beside it. It answers `Halted` exactly where the lock
    /// was halted before.
    ///
    /// Each earlier `unlock` and `r_unlock` is synchronized before it.
    ///
    /// It reads the clock where its arrival is queued or refused, and each time that it goes on, and not where it has the lock
    /// at once.
    pub fn lock<C: Clock, R: Wait>(
        &self,
        rt: &R,
        at: &At<N, C>,
        pass: &mut RwPass<N>,
        note: &mut N,
    ) -> Answer<()>
        requires pass { IsPassOfRwMutex self.now pass.old }
        requires left { 0 < left_of pass.old }
        requires home { IsHomeOfRwMutex N.at self.now at.now.home.now × N.at at.now.home.now note.old }
        ensures pass { IsPassOfRwMutex self.now pass.new × IsOneLess pass.old pass.new }
        ensures note { KeepsNote N.at N.own N.front note.old note.new }
        ensures events { Did next (rw_start self.now) WriteLocks (AreClocked (C.shows at.now.clock.now)) pass.old (N.front note.old) result pass.new (N.front note.new) }
        ensures halted { (misuse : Misuse) → result ≡ Halted misuse → SameCounts (N.front note.new) (N.front note.old) }
        ensures journal { IsLawful next true (λ event reply. releases reply) (λ event reply. acquires reply) (rw_start self.now) pass.new }
    {
        locked(call_timed(&self.object, rt, at, pass, note, RwMutexStage::Lock, &Lazy))
    }

    /// Go's `TryLock`: whether the caller holds the lock, which it does where nobody else does or waits to write.
    pub fn try_lock<C: Clock, R: Wait>(
        &self,
        rt: &R,
        at: &At<N, C>,
        pass: &mut RwPass<N>,
        note: &mut N,
    ) -> Answer<bool>
        requires pass { IsPassOfRwMutex self.now pass.old }
        requires left { 0 < left_of pass.old }
        requires home { IsHomeOfRwMutex N.at self.now at.now.home.now × N.at at.now.home.now note.old }
        ensures pass { IsPassOfRwMutex self.now pass.new × IsOneLess pass.old pass.new }
        ensures note { KeepsNote N.at N.own N.front note.old note.new }
        ensures events { Did next (rw_start self.now) (Tries RwEvent.WriteTry) (AreClocked (C.shows at.now.clock.now)) pass.old (N.front note.old) result pass.new (N.front note.new) }
        ensures no_edge { result ≢ Done true → SameCounts (N.front note.new) (N.front note.old) }
        ensures journal { IsLawful next true (λ event reply. releases reply) (λ event reply. acquires reply) (rw_start self.now) pass.new }
    {
        tried(call(&self.object, rt, at, pass, note, RwMutexStage::TryLock))
    }

    /// Go's `Unlock`, by whichever caller. A lock that no writer holds stays as it is: that is a misuse.
    ///
    /// It is synchronized before each later `lock` and `r_lock`, and each later try that succeeds.
    pub fn unlock<C: Clock, R: Wait>(
        &self,
        rt: &R,
        at: &At<N, C>,
        pass: &mut RwPass<N>,
        note: &mut N,
    ) -> Answer<Result<(), Misuse>>
        requires pass { IsPassOfRwMutex self.now pass.old }
        requires left { 0 < left_of pass.old }
        requires home { IsHomeOfRwMutex N.at self.now at.now.home.now × N.at at.now.home.now note.old }
        ensures pass { IsPassOfRwMutex self.now pass.new × IsOneLess pass.old pass.new }
        ensures note { KeepsNote N.at N.own N.front note.old note.new }
        ensures events { Did next (rw_start self.now) (Unlocks RwEvent.WriteUnlock) (AreClocked (C.shows at.now.clock.now)) pass.old (N.front note.old) result pass.new (N.front note.new) }
        ensures no_edge { SameCounts (N.front note.new) (N.front note.old) }
        ensures journal { IsLawful next true (λ event reply. releases reply) (λ event reply. acquires reply) (rw_start self.now) pass.new }
    {
        unlocked(call(&self.object, rt, at, pass, note, RwMutexStage::Unlock))
    }
}
