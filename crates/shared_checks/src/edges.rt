//! The edge law of a journal: an entry that acquires knows all that each earlier one knew that releases. The greatest of what
//! was released is enough to compare with.
ghost use Rattle.std.specs.Prelude.{◌≡◌, ◌↔◌, IsTrue, true, false, map};
ghost use Rattle.sync_model.specs.Front.{AtLeast};
ghost use Rattle.sync_model.specs.Journal.{KeepsEdges};
ghost use Rattle.shared_checks.specs.Counts.{Joins};
ghost use Rattle.shared_checks.specs.Edges.{entry_of, is_freeing, is_taking};

use crate::counts::Counts;

/// What the edge law asks of one entry of a journal: whether it releases, whether it acquires, and what it knew.
#[derive(Clone, Copy, Debug, Drop)]
pub struct Note {
    pub frees: bool,
    pub takes: bool,
    pub front: Counts,
}

/// Whether a journal keeps the edge law, by the notes of its entries.
pub fn keeps_edges(notes: &[Note]) -> bool
    ensures { IsTrue result ↔ KeepsEdges is_freeing is_taking (map entry_of notes.now) }
{
    let mut released = Counts::none();
    for note in notes {
        if !may_follow(note, &released) {
            return false;
        }
        release(note, &mut released);
    }
    true
}

// Whether an entry may stand behind those that release, which knew this together.
fn may_follow(note: &Note, released: &Counts) -> bool
    ensures { IsTrue result ↔ (note.now.takes ≡ true → AtLeast note.now.front.of released.now.of) }
{
    !note.takes || note.front.covers(released)
}

// Takes in what an entry knew, where it releases.
fn release(note: &Note, released: &mut Counts)
    ensures frees { note.now.frees ≡ true → Joins released.old.of note.now.front.of released.new.of }
    ensures else_ { note.now.frees ≡ false → released.new ≡ released.old }
{
    if note.frees {
        released.join(&note.front);
    }
}
