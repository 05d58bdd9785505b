//! The passes of one object, of one kind.
ghost use Rattle.std.specs.Prelude.{◌≡◌, ◌<◌, ◌≤◌, IsTrue, IfOk, vec_capacity};
ghost use Rattle.ruled_object.specs.Gathered.{SameOwn};
ghost use Rattle.ruled_object.specs.Passes.{start_of};
ghost use Rattle.thread_objects.specs.AsDeclared.{Began};
ghost use Rattle.thread_objects.specs.Columns.{AreSeated, AreUntouched, IsHistoryOf};

use crate::crew::Crew;
use protocols::Protocol;
use ruled_object::{Object, PassOf};
use std::alloc::{AllocError, Global};
use sync_model::{Note, Worded};
use sync_types::Misuse;

/// An object that begins in this state, and a pass of each worker. The workers make one long call each, as passes count calls,
/// so these are good for none more. No other call takes memory.
pub(crate) fn begin<P: Protocol + Worded, N: Note>(
    alloc: Global,
    crew: &Crew<N>,
    start: P::State,
    note: N,
) -> Result<(Object<P, N>, Vec<PassOf<P, N>>), AllocError>
    requires workers { (0 < crew.now.workers) × (crew.now.workers ≤ 64) }
    requires home { N.at crew.now.home.now note }
    requires begun { P.begins crew.now.workers start }
    ensures object { IfOk result (λ made. Began N.at crew.now.home.now crew.now.workers start made.0) }
    ensures passes { IfOk result (λ made. AreSeated P.begins P.out P.stands N.at crew.now.home.now crew.now.workers crew.now.workers made.0 made.1.items) }
    ensures room { IfOk result (λ made. crew.now.workers ≤ vec_capacity made.1) }
    ensures untouched { IfOk result (λ made. AreUntouched made.1.items) }
{
    call_loop::new(alloc, crew.workers, 0, start, note)
}

/// The misuse of the first halt, and `None` exactly where there is none. It takes all passes, and adds no entry.
pub(crate) fn first_of<P: Protocol + Worded, N: Note>(
    _crew: &Crew<N>,
    object: &Object<P, N>,
    passes: &mut Vec<PassOf<P, N>>,
) -> Option<Misuse>
    requires halts { IsTrue P.HALTS }
    requires seated { AreSeated P.begins P.out P.stands N.at _crew.now.home.now _crew.now.workers _crew.now.workers object.now passes.old.items }
    ensures seated { AreSeated P.begins P.out P.stands N.at _crew.now.home.now _crew.now.workers _crew.now.workers object.now passes.new.items }
    ensures room { vec_capacity passes.new ≡ vec_capacity passes.old }
    ensures owns { SameOwn passes.old.items passes.new.items }
    ensures history { IsHistoryOf P.next P.frees P.takes (start_of object.now) result passes.old.items }
{
    call_loop::first_halt(object, passes)
}
