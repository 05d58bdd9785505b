//! Halting a reader/writer lock by a misuse.
ghost use Rattle.std.specs.Prelude.{◌≡◌, true};
ghost use Rattle.sync_model.specs.declared.journal.Deed.TheVariants.{Halt};
ghost use Rattle.sync_model.specs.declared.journal.Entry.{Entry};
ghost use Rattle.sync_model.specs.Front.{SameCounts, Later};
ghost use Rattle.sync_model.specs.Journal.{front_at, halt_of};
ghost use Rattle.rw_core.specs.declared.event.RwEvent.{RwEvent};
ghost use Rattle.rw_core.specs.declared.reply.RwReply.{RwReply};
ghost use Rattle.rw_core.specs.Edges.{acquires, releases};
ghost use Rattle.rw_core.specs.RwMachine.{next};
ghost use Rattle.ruled_object.specs.Gathered.{SamePasses, IsWhole, IsSeen};
ghost use Rattle.ruled_object.specs.Growth.{KeepsNote};
ghost use Rattle.ruled_object.specs.Passes.{Adds, SamePass};
ghost use Rattle.go_locks.specs.RwMutexes.{RwJournal, rw_start, IsPassOfRwMutex, AreAllOfRwMutex};

use super::{RwMutex, RwPass};
use std::sync::Wait;
use sync_model::Note;
use sync_types::Misuse;

impl<N: Note> RwMutex<N> {
    /// Halts the lock by a misuse: from then on each event of its callers, the waiting ones' too, is answered `Halted`. The
    /// first halt is kept. It is one entry of the journal, neither releases nor acquires, and takes nothing off the calls
    /// that are left.
    pub fn halt<R: Wait>(&self, rt: &R, pass: &mut RwPass<N>, note: &mut N, misuse: Misuse)
        requires { IsPassOfRwMutex self.now pass.old }
        ensures pass { IsPassOfRwMutex self.now pass.new × SamePass pass.old pass.new }
        ensures entry { (e : Entry RwEvent RwReply)
            × Adds next true (λ event reply. releases reply) (λ event reply. acquires reply) (rw_start self.now) pass.old e pass.new
            × (e.deed ≡ Halt misuse) × (front_at e ≡ N.front note.new) }
        ensures later { Later (N.front note.new) (N.front note.old) }
        ensures note { KeepsNote N.at N.own N.front note.old note.new }
        ensures no_edge { SameCounts (N.front note.new) (N.front note.old) }
    {
        call_loop::halt(&self.object, rt, pass, note, misuse);
    }

    /// The misuse of the journal's first halt, and `None` exactly where there is none. It takes all passes, so that no
    /// call is under way, and adds no entry. Afterwards each pass has seen the whole journal.
    pub fn first_halt(&self, passes: &mut [RwPass<N>]) -> Option<Misuse>
        requires { AreAllOfRwMutex self.now passes.old }
        ensures passes { AreAllOfRwMutex self.now passes.new × SamePasses passes.old passes.new }
        ensures history { (journal : RwJournal) × (result ≡ halt_of journal)
            × IsWhole next true (λ event reply. releases reply) (λ event reply. acquires reply) (rw_start self.now) journal passes.old
            × IsWhole next true (λ event reply. releases reply) (λ event reply. acquires reply) (rw_start self.now) journal passes.new }
        ensures seen { (journal : RwJournal) × IsSeen next true (λ event reply. releases reply) (λ event reply. acquires reply) (rw_start self.now) journal passes.new }
        ensures one_journal { (journal : RwJournal) × (result ≡ halt_of journal)
            × IsWhole next true (λ event reply. releases reply) (λ event reply. acquires reply) (rw_start self.now) journal passes.old
            × IsSeen next true (λ event reply. releases reply) (λ event reply. acquires reply) (rw_start self.now) journal passes.new }
    {
        call_loop::first_halt(&self.object, passes)
    }
}
