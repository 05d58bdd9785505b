//! The packed word of a mutex.
ghost use Rattle.std.specs.Prelude.{◌≡◌, true};
ghost use Rattle.sync_model.specs.Journal.{Begins};
ghost use Rattle.mutex_core.specs.Edges.{acquires, releases};
ghost use Rattle.mutex_core.specs.MutexMachine.{next};
ghost use Rattle.mutex_core.specs.Word.{word_of};
ghost use Rattle.ruled_object.specs.Growth.{IsLawful};
ghost use Rattle.ruled_object.specs.Looks.{WordSays};
ghost use Rattle.ruled_object.specs.Passes.{own_by, seen_by, turns_of, SamePass};
ghost use Rattle.go_locks.specs.Mutexes.{mutex_start, IsPassOfMutex};

use super::{Mutex, MutexPass};
use sync_model::Note;

impl<N: Note> Mutex<N> {
    /// What the word says just now, whoever has it. Where its bit of value 2^63 isn't set, it tells of the machine's state:
    /// 1 where the mutex is locked, 2 where a waiter is woken, 4 in starvation mode, and 8 for each waiter that is queued
    /// or was handed the mutex. The bit is set exactly where one caller's view has the word. No event is made.
    pub fn word(&self, pass: &mut MutexPass<N>) -> u64
        requires { IsPassOfMutex self.now pass.old }
        ensures pass { IsPassOfMutex self.now pass.new × SamePass pass.old pass.new }
        ensures same { (own_by pass.new ≡ own_by pass.old) × (turns_of pass.new ≡ turns_of pass.old) }
        ensures seen { Begins (seen_by pass.new) (seen_by pass.old) }
        ensures journal { IsLawful next true (λ event reply. releases reply) (λ event reply. acquires reply) (mutex_start self.now) pass.new }
        ensures says { WordSays next word_of (mutex_start self.now) result pass.new }
    {
        self.object.word(pass)
    }
}
