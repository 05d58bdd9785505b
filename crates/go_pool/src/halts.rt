//! Halting a pool.
ghost use Rattle.std.specs.Prelude.{◌≡◌, ◌<◌, ◌==◌, cond};
ghost use Rattle.sync_model.specs.declared.journal.Deed.TheVariants.{Halt};
ghost use Rattle.sync_model.specs.Front.{SameCounts, Later};
ghost use Rattle.sync_model.specs.Journal.{front_at, halt_of as first_in};
ghost use Rattle.protocols.specs.PoolStages.{pool_stands};
ghost use Rattle.ruled_object.specs.Growth.{KeepsNote};
ghost use Rattle.call_loop.specs.Between.{AreAllBetween};
ghost use Rattle.go_pool.specs.Halting.{HaltsAt, AreColumns, AreTold, IsTold};
ghost use Rattle.go_pool.specs.Parts.{PartJournal};
ghost use Rattle.go_pool.specs.Pools.{PoolEntry, Journal, AreAllPasses, IsPassOf, IsWhole, IsSeen, Adds, SamePass, SamePasses, halt_of, parts_of};
ghost use Rattle.go_pool.specs.Tables.{KeepsRows};

use crate::columns::transpose;
use crate::pass::PartPass;
use crate::pool::{Pool, PoolPass};
use pool_core::PartCore;
use ruled_object::Object;
use ruled_object::laws::notes_are_kept;
use std::sync::Wait;
use sync_model::Note;
use sync_types::Misuse;

impl<N: Note> Pool<N> {
    /// Halts the pool by a misuse, part by part from 0 up: from then on each call is answered `Halted` with the misuse of the
    /// first halt of the part where it stands. It is one entry of each part's journal, neither releases nor acquires, and takes nothing off
    /// the calls that are left. Its caller's note knows what it knew. Each entry has a number past that of the one before it, and the note has
    /// the last one's.
    pub fn halt<R: Wait>(&self, rt: &R, pass: &mut PoolPass<N>, note: &mut N, misuse: Misuse)
        requires pass { IsPassOf self.now pass.old }
        ensures pass { IsPassOf self.now pass.new × SamePass pass.old pass.new }
        ensures entry { (e : PoolEntry) × Adds self.now pass.old (N.front note.old) e pass.new × (e.deed ≡ Halt misuse) × (front_at e ≡ N.front note.new) }
        ensures later { Later (N.front note.new) (N.front note.old) }
        ensures note { KeepsNote N.at N.own N.front note.old note.new }
        ensures no_edge { SameCounts (N.front note.new) (N.front note.old) }
    {
        notes_are_kept::<N>();
        for part in 0..self.callers {
            self.halt_part(rt, pass, note, misuse, part);
        }
    }

    /// The misuse of the first halt, which is that of part 0, and `None` exactly where there was none. It takes all passes, so that no call is under
    /// way. Afterwards each pass has seen all that was done on the pool.
    pub fn first_halt(&self, passes: &mut [PoolPass<N>]) -> Option<Misuse>
        requires { AreAllPasses self.now passes.old }
        ensures passes { AreAllPasses self.now passes.new × SamePasses passes.old passes.new }
        ensures history { (journal : Journal) × (result ≡ halt_of journal) × IsWhole self.now journal passes.old × IsWhole self.now journal passes.new }
        ensures seen { (journal : Journal) × IsSeen self.now journal passes.new }
        ensures one_journal { (journal : Journal) × (result ≡ halt_of journal) × IsWhole self.now journal passes.old × IsSeen self.now journal passes.new }
    {
        transpose(passes);
        let halted = self.first_halts(passes);
        transpose(passes);
        halted
    }

    // Halts one part.
    fn halt_part<R: Wait>(
        &self,
        rt: &R,
        pass: &mut PoolPass<N>,
        note: &mut N,
        misuse: Misuse,
        part: u32,
    )
        requires part { part < parts_of self.now }
        requires pass { IsPassOf self.now pass.old }
        ensures pass { IsPassOf self.now pass.new × SamePass pass.old pass.new }
        ensures entry { HaltsAt self.now part misuse (N.front note.new) pass.old pass.new }
        ensures later { Later (N.front note.new) (N.front note.old) }
        ensures note { KeepsNote N.at N.own N.front note.old note.new }
        ensures no_edge { SameCounts (N.front note.new) (N.front note.old) }
    {
        let object = &self.parts[part as usize];
        let seat = &mut pass.parts[part as usize];
        call_loop::halt(object, rt, seat, note, misuse);
    }

    // The misuse of the first halt of part 0, where each row has all passes to a part.
    fn first_halts(&self, columns: &mut [PoolPass<N>]) -> Option<Misuse>
        requires columns { AreColumns self.now columns.old }
        ensures columns { AreColumns self.now columns.new × KeepsRows columns.old columns.new }
        ensures journal { (journal : Journal) × (result ≡ halt_of journal) × AreTold self.now journal columns.old columns.new }
    {
        let mut first = None;
        for part in 0..self.parts.len() {
            let halted = first_of(&self.parts[part], &mut columns[part].parts);
            first = of_part_0(part, halted, first);
        }
        first
    }
}

// What was found at part 0, once that was looked at.
fn of_part_0(part: usize, halted: Option<Misuse>, first: Option<Misuse>) -> Option<Misuse>
    ensures { result ≡ cond (part == 0) halted first }
{
    if part == 0 { halted } else { first }
}

// The misuse of the first halt of one part.
fn first_of<N: Note>(part: &Object<PartCore, N>, passes: &mut Vec<PartPass<N>>) -> Option<Misuse>
    requires { AreAllBetween tt pool_stands part.now passes.old.items }
    ensures between { AreAllBetween tt pool_stands part.now passes.new.items }
    ensures told { (journal : PartJournal) × (result ≡ first_in journal) × IsTold part.now journal passes.old.items passes.new.items }
{
    call_loop::first_halt(part, passes)
}
