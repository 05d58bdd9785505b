//! What a caller knows of the others' shared calls, and hands on through objects.
ghost use Rattle.std.specs.Prelude.{◌≡◌, ◌<◌, Option, None};
ghost use Rattle.sync_model.specs.Front.{Front, AtLeast, SameCounts, NoLess};
ghost use Rattle.sync_model.specs.Note.{Holding, SameHome, IsCounted};

/// A vector clock over shared calls, and a number that stands in proofs alone. Contracts see two things of it: its front,
/// which has for each caller the number of its shared calls that are known, and the number of the last event; and whose note
/// it is, with all that this caller did. A copy is nobody's.
pub trait Note: Drop {
    /// Where the notes of one run belong.
    type Home;

    // For each caller the number of its shared calls that are known, and the number of the last event.
    ghost front: { Self → Front };

    // The caller whose note it is, with its shared calls.
    ghost own: { Self → Option Holding };

    // It is a note of this home.
    ghost at: { Self.Home → Self → Type 0 };

    /// A copy, which is nobody's and has the same front.
    fn copy(&mut self, home: &Self::Home) -> Self
        requires { at home.now self.old }
        ensures home { SameHome at self.old self.new × SameHome at self.old result }
        ensures front { (front self.new ≡ front self.old) × (front result ≡ front self.old) }
        ensures own { (own self.new ≡ own self.old) × (own result ≡ None) };

    /// Takes in what a copy knows.
    fn merge(&mut self, home: &Self::Home, other: Self)
        requires home { at home.now self.old × at home.now other }
        requires copy { own other ≡ None }
        ensures home { SameHome at self.old self.new }
        ensures front { NoLess (front self.new) (front self.old) × AtLeast (front self.new).counts (front other).counts }
        ensures own { own self.new ≡ own self.old };

    /// Takes in what another note knows, which keeps what it knew: as a merge of a copy, which a note may do without the
    /// copy.
    fn take_in(&mut self, home: &Self::Home, other: &mut Self)
        requires home { at home.now self.old × at home.now other.old }
        ensures home { SameHome at self.old self.new × SameHome at other.old other.new }
        ensures front { NoLess (front self.new) (front self.old) × AtLeast (front self.new).counts (front other.old).counts }
        ensures other { front other.new ≡ front other.old }
        ensures own { (own self.new ≡ own self.old) × (own other.new ≡ own other.old) }
    {
        self.merge(home, other.copy(home));
    }

    /// An event of the holder at an object, in which the other note lies: both get the same number, past those that they
    /// had. So the numbers of all events are in one order, which keeps each caller's own and each object's. It costs nothing
    /// when it runs.
    fn meet(&mut self, other: &mut Self)
        ensures home { SameHome at self.old self.new × SameHome at other.old other.new }
        ensures counts { SameCounts (front self.new) (front self.old) × SameCounts (front other.new) (front other.old) }
        ensures past { ((front self.old).time < (front self.new).time) × ((front other.old).time < (front self.new).time) }
        ensures both { (front other.new).time ≡ (front self.new).time }
        ensures own { (own self.new ≡ own self.old) × (own other.new ≡ own other.old) };

    // A caller's own number in its own note's front is the number of its shared calls.
    ghost counted: { (home : Self.Home) (note : Self) → at home note → IsCounted (own note) (front note).counts };
}
