//! Halting Starts by a misuse.
ghost use Rattle.std.specs.Prelude.{◌≡◌};
ghost use Rattle.sync_model.specs.declared.journal.Deed.TheVariants.{Halt};
ghost use Rattle.sync_model.specs.Front.{SameCounts, Later};
ghost use Rattle.sync_model.specs.Journal.{front_at, halt_of};
ghost use Rattle.ruled_object.specs.Gathered.{SamePasses};
ghost use Rattle.ruled_object.specs.Growth.{KeepsNote};
ghost use Rattle.ruled_object.specs.Passes.{SamePass};
ghost use Rattle.go_waits.specs.Startings.{StartsJournal, StartsMade, StartsHalts, AreAllPasses, IsPassOf, IsStartsWhole, IsStartsSeen};

use super::{Starts, StartsPass};
use std::sync::Wait;
use sync_model::Note;
use sync_types::Misuse;

impl<N: Note> Starts<N> {
    /// Halts the starts by a misuse, and wakes all who wait: from then on each call is answered `Halted` with the first
    /// halt's misuse.
    pub fn halt<R: Wait>(&self, rt: &R, pass: &mut StartsPass<N>, note: &mut N, misuse: Misuse)
        requires pass { IsPassOf self.now pass.old }
        ensures pass { IsPassOf self.now pass.new × SamePass pass.old pass.new }
        ensures entry { (e : StartsMade) × StartsHalts self.now pass.old e pass.new × (e.deed ≡ Halt misuse) × (front_at e ≡ N.front note.new) }
        ensures later { Later (N.front note.new) (N.front note.old) }
        ensures note { KeepsNote N.at N.own N.front note.old note.new }
        ensures no_edge { SameCounts (N.front note.new) (N.front note.old) }
    {
        call_loop::halt(&self.object, rt, pass, note, misuse);
    }

    /// The misuse of the first halt, and `None` exactly where there was none. It takes all passes, so that no call is under
    /// way. Afterwards each pass has seen all starts and ends.
    pub fn first_halt(&self, passes: &mut [StartsPass<N>]) -> Option<Misuse>
        requires { AreAllPasses self.now passes.old }
        ensures passes { AreAllPasses self.now passes.new × SamePasses passes.old passes.new }
        ensures history { (journal : StartsJournal) × (result ≡ halt_of journal) × IsStartsWhole self.now journal passes.old × IsStartsWhole self.now journal passes.new }
        ensures seen { (journal : StartsJournal) × IsStartsSeen self.now journal passes.new }
        ensures one_journal { (journal : StartsJournal) × (result ≡ halt_of journal) × IsStartsWhole self.now journal passes.old × IsStartsSeen self.now journal passes.new }
    {
        self.object.first_halt(passes)
    }
}
