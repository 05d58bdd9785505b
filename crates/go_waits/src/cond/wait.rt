//! A cond's `wait`: calls of the cond and of its mutex, one after the other.
ghost use Rattle.std.specs.Prelude.{◌≡◌, ◌≢◌, ◌<◌, Err};
ghost use Rattle.sync_types.specs.declared.misuse.Misuse.{Misuse};
ghost use Rattle.sync_model.specs.declared.answer.Answer.TheVariants.{Done};
ghost use Rattle.sync_model.specs.Front.{SameCounts};
ghost use Rattle.ruled_object.specs.Growth.{KeepsNote};
ghost use Rattle.ruled_object.specs.Passes.{left_of, IsOneLess, IsSpent, SamePass};
ghost use Rattle.go_locks.specs.Mutexes.{IsHomeOfMutex, IsPassOfMutex};
ghost use Rattle.go_waits.specs.CondCalls.{Returns, Waits};
ghost use Rattle.go_waits.specs.Conds.{MutexPass, IsHomeOf, IsPassOf, IsCondLawful, IsMutexLawful};

use super::{Cond, CondPass};
use crate::answers::done;
use call_loop::{call, call_within};
use go_locks::{Mutex, MutexPass};
use protocols::CondStage;
use ruled_object::laws::notes_are_kept;
use std::sync::Wait;
use sync_model::{Answer, Note};
use sync_outside::{At, Clock};
use sync_types::Misuse;

impl<N: Note> Cond<N> {
    /// Go's `Wait`: takes a ticket, unlocks the mutex, sleeps until the ticket is notified, and locks the mutex again. The
    /// ticket comes first, so that no notification is missed by a caller that held the mutex when it looked.
    ///
    /// It is a misuse where the mutex isn't locked: the caller then has taken its ticket, and doesn't wait. It takes one call
    /// off both passes. The notification synchronizes before its return, and so does each earlier unlock of the mutex; before
    /// the ticket is notified its caller learns nothing.
    pub fn wait<C: Clock, R: Wait>(
        &self,
        rt: &R,
        at: &At<N, C>,
        pass: &mut CondPass<N>,
        note: &mut N,
        mutex: &Mutex<N>,
        mutex_pass: &mut MutexPass<N>,
    ) -> Answer<Result<(), Misuse>>
        requires pass { IsPassOf self.now pass.old × (0 < left_of pass.old) }
        requires mutex { IsPassOfMutex mutex.now mutex_pass.old × (0 < left_of mutex_pass.old) }
        requires home { IsHomeOf N.at self.now at.now.home.now × IsHomeOfMutex N.at mutex.now at.now.home.now × N.at at.now.home.now note.old }
        ensures pass { IsPassOf self.now pass.new × IsOneLess pass.old pass.new }
        ensures mutex { IsPassOfMutex mutex.now mutex_pass.new × IsOneLess mutex_pass.old mutex_pass.new }
        ensures note { KeepsNote N.at N.own N.front note.old note.new }
        ensures events { (spent : MutexPass N) × IsSpent mutex_pass.old spent × Waits (C.shows at.now.clock.now) self.now mutex.now pass.old spent (N.front note.old) result pass.new mutex_pass.new (N.front note.new) }
        ensures no_edge { (misuse : Misuse) → result ≡ Done (Err misuse) → SameCounts (N.front note.new) (N.front note.old) }
        ensures journal { IsCondLawful self.now pass.new × (IsMutexLawful mutex.now mutex_pass.old → IsMutexLawful mutex.now mutex_pass.new) }
    {
        notes_are_kept::<N>();
        mutex.spend_within(mutex_pass);
        match done(call(&self.object, rt, at, pass, note, CondStage::Ticket)) {
            Answer::Halted(misuse) => Answer::Halted(misuse),
            Answer::Done(()) => match mutex.unlock_within(rt, at, mutex_pass, note) {
                Answer::Halted(misuse) => Answer::Halted(misuse),
                Answer::Done(Err(misuse)) => Answer::Done(Err(misuse)),
                Answer::Done(Ok(())) => self.come_back(rt, at, pass, note, mutex, mutex_pass),
            },
        }
    }

    // Goes on with the mutex unlocked: leaves once the ticket is notified, and locks the mutex again.
    fn come_back<C: Clock, R: Wait>(
        &self,
        rt: &R,
        at: &At<N, C>,
        pass: &mut CondPass<N>,
        note: &mut N,
        mutex: &Mutex<N>,
        mutex_pass: &mut MutexPass<N>,
    ) -> Answer<Result<(), Misuse>>
        requires pass { IsPassOf self.now pass.old × IsPassOfMutex mutex.now mutex_pass.old }
        requires journal { IsMutexLawful mutex.now mutex_pass.old }
        requires home { IsHomeOf N.at self.now at.now.home.now × IsHomeOfMutex N.at mutex.now at.now.home.now × N.at at.now.home.now note.old }
        ensures pass { IsPassOf self.now pass.new × SamePass pass.old pass.new }
        ensures mutex { IsPassOfMutex mutex.now mutex_pass.new × SamePass mutex_pass.old mutex_pass.new }
        ensures note { KeepsNote N.at N.own N.front note.old note.new }
        ensures events { Returns (C.shows at.now.clock.now) self.now mutex.now pass.old mutex_pass.old (N.front note.old) result pass.new mutex_pass.new (N.front note.new) }
        ensures misuse { (misuse : Misuse) → result ≢ Done (Err misuse) }
        ensures journal { IsCondLawful self.now pass.new × IsMutexLawful mutex.now mutex_pass.new }
    {
        match done(call_within(&self.object, rt, at, pass, note, CondStage::Leave)) {
            Answer::Halted(misuse) => Answer::Halted(misuse),
            Answer::Done(()) => match mutex.lock_within(rt, at, mutex_pass, note) {
                Answer::Halted(misuse) => Answer::Halted(misuse),
                Answer::Done(()) => Answer::Done(Ok(())),
            },
        }
    }
}
