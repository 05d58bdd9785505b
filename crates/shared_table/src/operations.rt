//! Operations on the words of atomics. Each is one atomic step on one word, waits for nobody, and can't be refused. It is a
//! call of its caller, placed at that step.
ghost use Rattle.std.specs.Prelude.{IsSome};
ghost use Rattle.sync_model.specs.Note.{SameHome};
ghost use Rattle.shared_table.specs.Notes.{front_by, own_by, seen_by, IsLawfulFor, IsNoteOf, IsOperationOn, Operated};
ghost use Rattle.sync_model.specs.Shared.{state_of};
ghost use Rattle.table_rule.specs.Operations.{IsAtEnd};
ghost use Rattle.table_rule.specs.WordSteps.{word_after};

use crate::note::{SharedNote, time_of};
use crate::table::SharedTable;
use sync_types::AtomicCall;
use table_words::WordStep;

impl SharedTable {
    /// Makes a call on an atomic, as an atomic step on the atomic's word, and tells the word as it was before. The step makes
    /// of each word what the call makes of the number that the word stands for.
    #[inline(always)]
    pub fn operate(
        &self,
        note: &mut SharedNote,
        atomic: u32,
        call: AtomicCall,
        step: WordStep,
    ) -> u64
        requires note { IsNoteOf self.now note.old × IsSome (own_by note.old) }
        requires operation { IsOperationOn self.now atomic call (word_after step) }
        ensures home { SameHome IsNoteOf note.old note.new }
        ensures called { Operated self.now atomic call result note.old note.new }
        ensures lawful { IsLawfulFor self.now note.new }
        ensures last { IsAtEnd (state_of own_by front_by seen_by note.new) }
    {
        let found = self
            .words
            .operate(&mut note.seat, atomic, call, step, note.stamp.same());
        note.stamp = time_of(&note.seat);
        found
    }
}
