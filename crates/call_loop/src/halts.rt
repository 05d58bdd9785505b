//! Halting an object by a misuse.
ghost use Rattle.std.specs.Prelude.{◌≡◌, List, IsTrue};
ghost use Rattle.sync_model.specs.declared.journal.Deed.TheVariants.{Halt};
ghost use Rattle.sync_model.specs.declared.journal.Entry.{Entry};
ghost use Rattle.sync_model.specs.Front.{SameCounts, Later};
ghost use Rattle.sync_model.specs.Journal.{front_at, halt_of};
ghost use Rattle.ruled_object.specs.Gathered.{SamePasses, IsWhole, IsSeen};
ghost use Rattle.ruled_object.specs.Growth.{KeepsNote};
ghost use Rattle.ruled_object.specs.Passes.{own_by, start_of, Adds, IsPassOf, SamePass};
ghost use Rattle.ruled_object.specs.Standing.{stand_by};
ghost use Rattle.call_loop.specs.Between.{AreAllBetween};

use protocols::Protocol;
use ruled_object::laws::standing;
use ruled_object::{Object, PassOf};
use std::sync::Wait;
use sync_model::{Note, Worded};
use sync_types::Misuse;

/// Halts the object by a misuse, and wakes all who sleep: from then on each event is answered `Halted`. The first halt is
/// kept. It is one entry of the journal, neither releases nor acquires, leaves its caller where it stood, and takes nothing
/// off the calls that are left. Its caller's note knows what it knew, and has the entry's number, which is past the one that it
/// had.
pub fn halt<P: Protocol + Worded, N: Note, R: Wait>(
    object: &Object<P, N>,
    rt: &R,
    pass: &mut PassOf<P, N>,
    note: &mut N,
    misuse: Misuse,
)
    requires halts { IsTrue P.HALTS }
    requires pass { IsPassOf object.now pass.old }
    ensures pass { IsPassOf object.now pass.new × SamePass pass.old pass.new }
    ensures stands { stand_by P.out P.stands (own_by pass.new) ≡ stand_by P.out P.stands (own_by pass.old) }
    ensures entry { (e : Entry P.Event P.Reply)
        × Adds P.next P.HALTS P.frees P.takes (start_of object.now) pass.old e pass.new
        × (e.deed ≡ Halt misuse) × (front_at e ≡ N.front note.new) }
    ensures later { Later (N.front note.new) (N.front note.old) }
    ensures note { KeepsNote N.at N.own N.front note.old note.new }
    ensures no_edge { SameCounts (N.front note.new) (N.front note.old) }
{
    standing::<P, P::Stand>();
    object.halt(rt, pass, note, misuse);
    object.unpark_others(pass.number());
}

/// The misuse of the journal's first halt, and `None` exactly where there is none. It takes all passes, so that no call is
/// under way, and adds no entry. Afterwards each pass has seen the whole journal.
pub fn first_halt<P: Protocol + Worded, N: Note>(
    object: &Object<P, N>,
    passes: &mut [PassOf<P, N>],
) -> Option<Misuse>
    requires { AreAllBetween P.out P.stands object.now passes.old }
    ensures passes { AreAllBetween P.out P.stands object.now passes.new × SamePasses passes.old passes.new }
    ensures history { (journal : List (Entry P.Event P.Reply)) × (result ≡ halt_of journal)
        × IsWhole P.next P.HALTS P.frees P.takes (start_of object.now) journal passes.old
        × IsSeen P.next P.HALTS P.frees P.takes (start_of object.now) journal passes.new }
{
    object.first_halt(passes)
}
