//! Copies of passes, and their merging. A note of the layers above may be such a pass: it is then copied for another
//! caller, who merges the copy and has seen what the first had.
ghost use Rattle.std.specs.Prelude.{◌≡◌, None};
ghost use Rattle.sync_model.specs.Journal.{Begins};
ghost use Rattle.ruled_object.specs.Notes.{held_by, IsCopyOf, IsNoteOf, IsUnchanged, Shows};
ghost use Rattle.ruled_object.specs.Passes.{seen_by, start_of, turns_of, SamePass};

use crate::object::Object;
use crate::pass::{Pass, PassOf};
use crate::rule::Gather;
use std::marker::Brand;
use sync_model::{Note, Worded};

impl<M: Worded, N: Note> Object<M, N> {
    /// A copy of a pass, or of a copy. It has seen as much of the history as the pass has, keeps the number, holds nobody's
    /// entries and is good for no call: it can only be copied and merged. The pass stays as it is. No entry is made.
    pub fn copy(&self, pass: &mut PassOf<M, N>) -> PassOf<M, N>
        requires pass { IsNoteOf self.now pass.old }
        ensures pass { IsNoteOf self.now pass.new × IsUnchanged pass.old pass.new }
        ensures turns { turns_of pass.new ≡ turns_of pass.old }
        ensures copy { IsNoteOf self.now result × IsCopyOf pass.old result }
    {
        Pass {
            number: pass.number,
            left: 0,
            turns: 0,
            seat: self.copy_of(&mut pass.seat),
        }
    }

    /// Merges a copy into a pass, or into another copy, and looks at the word. What the pass has then seen begins
    /// with what it had seen, and with what the copy had seen: two beginnings of the one history. It holds what it held.
    /// No entry is made.
    pub fn merge(&self, pass: &mut PassOf<M, N>, other: PassOf<M, N>)
        requires pass { IsNoteOf self.now pass.old }
        requires other { IsNoteOf self.now other × (held_by other ≡ None) }
        ensures pass { IsNoteOf self.now pass.new × SamePass pass.old pass.new }
        ensures turns { turns_of pass.new ≡ turns_of pass.old }
        ensures held { held_by pass.new ≡ held_by pass.old }
        ensures seen { Begins (seen_by pass.new) (seen_by pass.old) × Begins (seen_by pass.new) (seen_by other) }
        ensures shows { Shows M.next M.HALTS M.frees M.takes (start_of self.now) pass.new }
    {
        let Pass { seat, .. } = other;
        self.table.shared.join_seat::<Gather>(&mut pass.seat, seat);
        self.look::<Brand>(&mut pass.seat);
    }
}
