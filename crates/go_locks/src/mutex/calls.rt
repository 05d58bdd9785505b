//! The calls of a running mutex.
ghost use Rattle.std.specs.Prelude.{◌≡◌, ◌≢◌, ◌<◌, true};
ghost use Rattle.sync_types.specs.declared.misuse.Misuse.{Misuse};
ghost use Rattle.sync_model.specs.declared.answer.Answer.TheVariants.{Done, Halted};
ghost use Rattle.sync_model.specs.Front.{SameCounts};
ghost use Rattle.mutex_core.specs.Edges.{acquires, releases};
ghost use Rattle.mutex_core.specs.MutexMachine.{next};
ghost use Rattle.mutex_core.specs.Word.{is_uncontended};
ghost use Rattle.ruled_object.specs.Growth.{IsLawful, KeepsNote, NeedsNoTurn};
ghost use Rattle.ruled_object.specs.Passes.{left_of, IsOneLess};
ghost use Rattle.go_locks.specs.Calls.{Did};
ghost use Rattle.go_locks.specs.Mutexes.{mutex_start, IsHomeOfMutex, IsPassOfMutex};
ghost use Rattle.go_locks.specs.MutexCalls.{Locks, Tries, Unlocks, AreClocked};

use super::{Mutex, MutexPass};
use crate::answers::{locked, tried, unlocked};
use call_loop::{Lazy, call, call_timed};
use protocols::MutexStage;
use std::sync::Wait;
use sync_model::{Answer, Note};
use sync_outside::{At, Clock};
use sync_types::Misuse;

impl<N: Note> Mutex<N> {
    /// Go's `Lock`: waits until the caller has the mutex. It answers `Halted` exactly where the mutex was halted before.
    ///
    /// Each earlier `unlock` is synchronized before it, but where it is answered `Halted`: then its note knows what it knew.
    ///
    /// It reads the clock where its arrival is queued or refused, and each time that it goes on, and not where it has the mutex
    /// at once.
    pub fn lock<C: Clock, R: Wait>(
        &self,
        rt: &R,
        at: &At<N, C>,
        pass: &mut MutexPass<N>,
        note: &mut N,
    ) -> Answer<()>
        requires pass { IsPassOfMutex self.now pass.old }
        requires left { 0 < left_of pass.old }
        requires home { IsHomeOfMutex N.at self.now at.now.home.now × N.at at.now.home.now note.old }
        ensures pass { IsPassOfMutex self.now pass.new × IsOneLess pass.old pass.new }
        ensures note { KeepsNote N.at N.own N.front note.old note.new }
        ensures events { Did next (mutex_start self.now) Locks (AreClocked (C.shows at.now.clock.now)) pass.old (N.front note.old) result pass.new (N.front note.new) }
        ensures halted { (misuse : Misuse) → result ≡ Halted misuse → SameCounts (N.front note.new) (N.front note.old) }
        ensures journal { IsLawful next true (λ event reply. releases reply) (λ event reply. acquires reply) (mutex_start self.now) pass.new }
        ensures turns { NeedsNoTurn next true is_uncontended (mutex_start self.now) pass.old (N.front note.old) pass.new (N.front note.new) }
    {
        locked(call_timed(&self.object, rt, at, pass, note, MutexStage::Lock, &Lazy))
    }

    /// Go's `TryLock`: whether the caller has the mutex, which it has exactly where an arrival would get it at once.
    ///
    /// Each earlier `unlock` is synchronized before it where it succeeds. A try that fails makes no edge.
    pub fn try_lock<C: Clock, R: Wait>(
        &self,
        rt: &R,
        at: &At<N, C>,
        pass: &mut MutexPass<N>,
        note: &mut N,
    ) -> Answer<bool>
        requires pass { IsPassOfMutex self.now pass.old }
        requires left { 0 < left_of pass.old }
        requires home { IsHomeOfMutex N.at self.now at.now.home.now × N.at at.now.home.now note.old }
        ensures pass { IsPassOfMutex self.now pass.new × IsOneLess pass.old pass.new }
        ensures note { KeepsNote N.at N.own N.front note.old note.new }
        ensures events { Did next (mutex_start self.now) Tries (AreClocked (C.shows at.now.clock.now)) pass.old (N.front note.old) result pass.new (N.front note.new) }
        ensures no_edge { result ≢ Done true → SameCounts (N.front note.new) (N.front note.old) }
        ensures journal { IsLawful next true (λ event reply. releases reply) (λ event reply. acquires reply) (mutex_start self.now) pass.new }
        ensures turns { NeedsNoTurn next true is_uncontended (mutex_start self.now) pass.old (N.front note.old) pass.new (N.front note.new) }
    {
        tried(call(&self.object, rt, at, pass, note, MutexStage::TryLock))
    }

    /// Go's `Unlock`, by whichever caller. A mutex that isn't locked stays as it is: that is a misuse.
    ///
    /// It is synchronized before each later `lock`, and each later `try_lock` that succeeds.
    pub fn unlock<C: Clock, R: Wait>(
        &self,
        rt: &R,
        at: &At<N, C>,
        pass: &mut MutexPass<N>,
        note: &mut N,
    ) -> Answer<Result<(), Misuse>>
        requires pass { IsPassOfMutex self.now pass.old }
        requires left { 0 < left_of pass.old }
        requires home { IsHomeOfMutex N.at self.now at.now.home.now × N.at at.now.home.now note.old }
        ensures pass { IsPassOfMutex self.now pass.new × IsOneLess pass.old pass.new }
        ensures note { KeepsNote N.at N.own N.front note.old note.new }
        ensures events { Did next (mutex_start self.now) Unlocks (AreClocked (C.shows at.now.clock.now)) pass.old (N.front note.old) result pass.new (N.front note.new) }
        ensures no_edge { SameCounts (N.front note.new) (N.front note.old) }
        ensures journal { IsLawful next true (λ event reply. releases reply) (λ event reply. acquires reply) (mutex_start self.now) pass.new }
        ensures turns { NeedsNoTurn next true is_uncontended (mutex_start self.now) pass.old (N.front note.old) pass.new (N.front note.new) }
    {
        unlocked(call(&self.object, rt, at, pass, note, MutexStage::Unlock))
    }
}
