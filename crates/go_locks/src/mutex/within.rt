//! `lock`, `try_lock` and `unlock` that take nothing off the calls that are left: for a longer call, which takes one off for all its
//! parts, as a cond's `wait`, and for who counts no calls.
ghost use Rattle.std.specs.Prelude.{◌≡◌, ◌≢◌, ◌<◌, true};
ghost use Rattle.sync_types.specs.declared.misuse.Misuse.{Misuse};
ghost use Rattle.sync_model.specs.declared.answer.Answer.TheVariants.{Done, Halted};
ghost use Rattle.sync_model.specs.Front.{SameCounts};
ghost use Rattle.mutex_core.specs.Edges.{acquires, releases};
ghost use Rattle.mutex_core.specs.MutexMachine.{next};
ghost use Rattle.mutex_core.specs.Word.{is_uncontended};
ghost use Rattle.ruled_object.specs.Growth.{IsLawful, KeepsNote, NeedsNoTurn};
ghost use Rattle.ruled_object.specs.Passes.{left_of, IsSpent, SamePass};
ghost use Rattle.go_locks.specs.Calls.{Did};
ghost use Rattle.go_locks.specs.Mutexes.{mutex_start, IsHomeOfMutex, IsPassOfMutex};
ghost use Rattle.go_locks.specs.MutexCalls.{Locks, Tries, Unlocks, AreClocked};

use super::{Mutex, MutexPass};
use crate::answers::{locked, tried, unlocked};
use call_loop::{Lazy, call_within, call_within_timed};
use protocols::MutexStage;
use std::sync::Wait;
use sync_model::{Answer, Note};
use sync_outside::{At, Clock};
use sync_types::Misuse;

impl<N: Note> Mutex<N> {
    /// Takes one off the calls that are left, for a longer call. It is no event.
    pub fn spend_within(&self, pass: &mut MutexPass<N>)
        requires { IsPassOfMutex self.now pass.old × (0 < left_of pass.old) }
        ensures { IsPassOfMutex self.now pass.new × IsSpent pass.old pass.new }
    {
        self.object.spend(pass);
    }

    /// The events of `lock`, and its answer. It takes nothing off the calls that are left.
    pub fn lock_within<C: Clock, R: Wait>(
        &self,
        rt: &R,
        at: &At<N, C>,
        pass: &mut MutexPass<N>,
        note: &mut N,
    ) -> Answer<()>
        requires pass { IsPassOfMutex self.now pass.old }
        requires home { IsHomeOfMutex N.at self.now at.now.home.now × N.at at.now.home.now note.old }
        ensures pass { IsPassOfMutex self.now pass.new × SamePass pass.old pass.new }
        ensures note { KeepsNote N.at N.own N.front note.old note.new }
        ensures events { Did next (mutex_start self.now) Locks (AreClocked (C.shows at.now.clock.now)) pass.old (N.front note.old) result pass.new (N.front note.new) }
        ensures halted { (misuse : Misuse) → result ≡ Halted misuse → SameCounts (N.front note.new) (N.front note.old) }
        ensures journal { IsLawful next true (λ event reply. releases reply) (λ event reply. acquires reply) (mutex_start self.now) pass.new }
        ensures turns { NeedsNoTurn next true is_uncontended (mutex_start self.now) pass.old (N.front note.old) pass.new (N.front note.new) }
    {
        locked(call_within_timed(&self.object, rt, at, pass, note, MutexStage::Lock, &Lazy))
    }

    /// The event of `try_lock`, and its answer. It takes nothing off the calls that are left.
    pub fn try_lock_within<C: Clock, R: Wait>(
        &self,
        rt: &R,
        at: &At<N, C>,
        pass: &mut MutexPass<N>,
        note: &mut N,
    ) -> Answer<bool>
        requires pass { IsPassOfMutex self.now pass.old }
        requires home { IsHomeOfMutex N.at self.now at.now.home.now × N.at at.now.home.now note.old }
        ensures pass { IsPassOfMutex self.now pass.new × SamePass pass.old pass.new }
        ensures note { KeepsNote N.at N.own N.front note.old note.new }
        ensures events { Did next (mutex_start self.now) Tries (AreClocked (C.shows at.now.clock.now)) pass.old (N.front note.old) result pass.new (N.front note.new) }
        ensures no_edge { result ≢ Done true → SameCounts (N.front note.new) (N.front note.old) }
        ensures journal { IsLawful next true (λ event reply. releases reply) (λ event reply. acquires reply) (mutex_start self.now) pass.new }
        ensures turns { NeedsNoTurn next true is_uncontended (mutex_start self.now) pass.old (N.front note.old) pass.new (N.front note.new) }
    {
        tried(call_within(&self.object, rt, at, pass, note, MutexStage::TryLock))
    }

    /// The event of `unlock`, and its answer. It takes nothing off the calls that are left.
    pub fn unlock_within<C: Clock, R: Wait>(
        &self,
        rt: &R,
        at: &At<N, C>,
        pass: &mut MutexPass<N>,
        note: &mut N,
    ) -> Answer<Result<(), Misuse>>
        requires pass { IsPassOfMutex self.now pass.old }
        requires home { IsHomeOfMutex N.at self.now at.now.home.now × N.at at.now.home.now note.old }
        ensures pass { IsPassOfMutex self.now pass.new × SamePass pass.old pass.new }
        ensures note { KeepsNote N.at N.own N.front note.old note.new }
        ensures events { Did next (mutex_start self.now) Unlocks (AreClocked (C.shows at.now.clock.now)) pass.old (N.front note.old) result pass.new (N.front note.new) }
        ensures no_edge { SameCounts (N.front note.new) (N.front note.old) }
        ensures journal { IsLawful next true (λ event reply. releases reply) (λ event reply. acquires reply) (mutex_start self.now) pass.new }
        ensures turns { NeedsNoTurn next true is_uncontended (mutex_start self.now) pass.old (N.front note.old) pass.new (N.front note.new) }
    {
        unlocked(call_within(&self.object, rt, at, pass, note, MutexStage::Unlock))
    }
}
