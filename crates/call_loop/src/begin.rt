//! A new object.
ghost use Rattle.std.specs.Prelude.{◌≡◌, ◌<◌, ◌≤◌, All, IfOk};
ghost use Rattle.ruled_object.specs.Passes.{callers_of, start_of, turns_of, IsHomeOf};
ghost use Rattle.call_loop.specs.Between.{AreNewBetween};

use protocols::Protocol;
use ruled_object::{MAX_CALLS, Object, PassOf};
use std::alloc::{AllocError, Global};
use sync_model::{MAX_CALLERS, Note, Worded};

/// An object whose machine begins in this state, and the passes of its callers in order of number, each good for `calls`
/// calls and between two of them, with no turn taken. It keeps `note` for what releasing events leave. No other call takes
/// memory.
pub fn new<P: Protocol + Worded, N: Note>(
    alloc: Global,
    callers: u32,
    calls: u64,
    start: P::State,
    note: N,
) -> Result<(Object<P, N>, Vec<PassOf<P, N>>), AllocError>
    requires callers { (0 < callers) × (callers ≤ MAX_CALLERS) }
    requires calls { calls ≤ MAX_CALLS }
    requires begun { P.begins callers start }
    ensures object { IfOk result (λ made. (callers_of made.0 ≡ callers) × (start_of made.0 ≡ start) × ((home : N.Home) → N.at home note → IsHomeOf N.at made.0 home)) }
    ensures begun { IfOk result (λ made. P.begins (callers_of made.0) (start_of made.0)) }
    ensures passes { IfOk result (λ made. AreNewBetween P.out P.stands made.0 calls made.1.items) }
    ensures turns { IfOk result (λ made. All (λ pass. turns_of pass ≡ 0) made.1.items) }
{
    Object::new(alloc, callers, calls, start, note)
}
