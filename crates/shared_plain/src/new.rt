//! New plain maps and atomics.
ghost use Rattle.std.specs.Prelude.{◌≡◌, ◌<◌, ◌≤◌, IfOk, length, map};
ghost use Rattle.std.specs.List.{zip};
ghost use Rattle.shared_plain.specs.NewCallers.{AreNewCallers};
ghost use Rattle.shared_plain.specs.Plains.{caller_count, keys_of, kinds_of, maps_of};

use crate::machine::PlainMachine;
use crate::mark::Mark;
use crate::plain::Plain;
use crate::state::PlainState;
use ruled_object::laws::passes_and_copies;
use ruled_object::{Object, PassOf};
use stamps::Stamp;
use std::alloc::{AllocError, Global};
use sync_model::{Caller, MAX_CALLERS, NoNote};
use sync_types::AtomicKind;

impl Plain {
    /// So many empty maps of the keys below `keys`, an atomic of each of these types, which is 0 or false, and their callers
    /// in order of number. There is a caller for each number of `spare`: so many of its calls on maps may store an entry.
    /// No other call takes memory.
    pub fn new(
        alloc: Global,
        kinds: &[AtomicKind],
        maps: u32,
        keys: u32,
        spare: &[u32],
    ) -> Result<(Self, Vec<Caller<Mark>>), AllocError>
        requires callers { (0 < length spare.now) × (length spare.now ≤ MAX_CALLERS) }
        ensures plain { IfOk result (λ made. (kinds_of made.0 ≡ kinds.now) × (maps_of made.0 ≡ maps) × (keys_of made.0 ≡ keys) × (caller_count made.0 ≡ length spare.now)) }
        ensures callers { IfOk result (λ made. AreNewCallers made.0 spare.now made.1.items) }
    {
        passes_and_copies::<PlainMachine, NoNote>();
        let start = PlainState::new(alloc, maps, keys, kinds)?;
        let callers = spare.len() as u32;
        let (object, passes) = Object::new(alloc, callers, 0, start, NoNote::new())?;
        let callers = callers_with(alloc, callers, passes, spare, &Stamp::first())?;
        Ok((Plain { object, keys }, callers))
    }
}

// A caller with each pass, who has as many spare entries, and a note with this number.
fn callers_with(
    alloc: Global,
    count: u32,
    passes: Vec<PassOf<PlainMachine, NoNote>>,
    spare: &[u32],
    stamp: &Stamp,
) -> Result<Vec<Caller<Mark>>, AllocError>
    ensures { IfOk result (λ callers. callers.items ≡ map (λ p. record { note = record { pass = p.0; callers = count; spare = p.1; stamp = stamp.now; done = 0 } }) (zip passes.items spare.now)) }
{
    passes
        .into_iter()
        .zip(spare)
        .map(|(pass, spare)| caller_with(pass, count, *spare, stamp))
        .collect(alloc)
}

// A caller with this pass.
fn caller_with(
    pass: PassOf<PlainMachine, NoNote>,
    callers: u32,
    spare: u32,
    stamp: &Stamp,
) -> Caller<Mark>
    ensures { result ≡ record { note = record { pass = pass; callers = callers; spare = spare; stamp = stamp.now; done = 0 } } }
{
    Caller {
        note: Mark {
            pass,
            callers,
            spare,
            stamp: stamp.same(),
            done: 0,
        },
    }
}
