//! Copies of notes, and their merging, by splitting and joining seats. Both cost a load of one word or two, and wait for
//! nobody.
ghost use Rattle.std.specs.Prelude.{◌≡◌, None};
ghost use Rattle.sync_model.specs.Front.{AtLeast, NoLess};
ghost use Rattle.sync_model.specs.Journal.{Begins};
ghost use Rattle.sync_model.specs.Note.{SameHome};
ghost use Rattle.shared_table.specs.Notes.{counts_by, front_by, own_by, seen_by, IsNoteOf, IsLawfulFor};

use crate::note::SharedNote;
use crate::table::SharedTable;

impl SharedTable {
    /// A copy of a note, which is nobody's: it has the same front, and has seen as much of the history.
    pub fn copy(&self, note: &mut SharedNote) -> SharedNote
        requires { IsNoteOf self.now note.old }
        ensures home { SameHome IsNoteOf note.old note.new × SameHome IsNoteOf note.old result }
        ensures front { (front_by note.new ≡ front_by note.old) × (front_by result ≡ front_by note.old) }
        ensures own { (own_by note.new ≡ own_by note.old) × (own_by result ≡ None) }
        ensures seen { (seen_by note.new ≡ seen_by note.old) × (seen_by result ≡ seen_by note.old) }
    {
        SharedNote {
            seat: self.words.copy(&mut note.seat),
            number: note.number,
            next: 0,
            spare: 0,
            stamp: note.stamp.same(),
        }
    }

    /// Takes a copy in, and looks at the whole history. What the note has then seen begins with what it had seen and with
    /// what the copy had seen: two beginnings of the one history, which is lawful with its callers' calls.
    pub fn merge(&self, note: &mut SharedNote, other: SharedNote)
        requires note { IsNoteOf self.now note.old }
        requires other { IsNoteOf self.now other × (own_by other ≡ None) }
        ensures home { SameHome IsNoteOf note.old note.new }
        ensures front { NoLess (front_by note.new) (front_by note.old) × AtLeast (counts_by note.new) (counts_by other) }
        ensures own { own_by note.new ≡ own_by note.old }
        ensures seen { Begins (seen_by note.new) (seen_by note.old) × Begins (seen_by note.new) (seen_by other) }
        ensures lawful { IsLawfulFor self.now note.new }
    {
        let SharedNote { seat, .. } = other;
        self.words.join(&mut note.seat, seat);
        self.words.look_at_all(&mut note.seat);
    }
}
