//! What a caller of shared maps and atomics may rely on, whichever they are: of one call, and, by functions that make two calls
//! or three, what these have to do with each other.
ghost use Rattle.std.specs.Prelude.{◌≡◌, ℕ, ◌^◌, ◌<◌, ◌≤◌, List, ◌++◌, None};
ghost use Rattle.std.specs.Option.{ForSome};
ghost use Rattle.sync_types.specs.SequentialAtomic.{atomic_reply};
ghost use Rattle.sync_types.specs.SequentialMap.{map_reply};
ghost use Rattle.sync_model.specs.Journal.{Begins};
ghost use Rattle.sync_model.specs.Note.{SameHome};
ghost use Rattle.sync_model.specs.Shared.{CallerState, Called, IsCallerAt, state_of};
ghost use Rattle.sync_model.specs.SharedHistory.{Contents, contents_after, map_at, number_at, IsLegal};
ghost use Rattle.sync_model.specs.SharedLaws.{FindsItsStore, StepsOn};

use crate::caller::{Caller, CallerNote};
use crate::item::{SharedCall, SharedEntry, SharedReply};
use crate::note::Note;
use crate::shared::Shared;
use std::sync::Wait;
use sync_types::{AtomicCall, AtomicReply, MapCall, MapReply};

/// A call answers by all that its caller had seen before it, and by what others did since then, up to some moment before the
/// call returns: as one thread is answered after just that, which is a legal history and part of what the caller has seen now.
pub fn a_call_answers_by_all_that_was_seen()
    ensures map { (start : Contents) (m cost : ℕ) (call : MapCall ℕ) (reply : MapReply) (old new : CallerState)
        → Called start (SharedCall.Map m call) (SharedReply.Map reply) cost old new
        → (since : List SharedEntry) × Begins new.seen (old.seen ++ since) × IsLegal start (old.seen ++ since) × (reply ≡ map_reply call (map_at (contents_after start (old.seen ++ since)) m)) }
    ensures atomic { (start : Contents) (a cost : ℕ) (call : AtomicCall) (reply : AtomicReply) (old new : CallerState)
        → Called start (SharedCall.Atomic a call) (SharedReply.Atomic reply) cost old new
        → (since : List SharedEntry) × Begins new.seen (old.seen ++ since) × IsLegal start (old.seen ++ since) × (reply ≡ atomic_reply call (number_at (contents_after start (old.seen ++ since)) a)) }
{}

/// Stores a value, takes in what another caller told, and loads the key. However much was told, the load lies behind the
/// store in the history; and it finds the value, where no entry between the two is on the key.
pub fn store_then_load<S: Shared, R: Wait>(
    shared: &S,
    rt: &R,
    caller: &mut Caller<S::Mark>,
    told: S::Mark,
    map: u32,
    key: u32,
    value: u64,
) -> MapReply
    requires caller { IsCallerAt S.Mark.at S.Mark.own (S.home_of shared.now) caller.old }
    requires told { S.Mark.at (S.home_of shared.now) told }
    requires copy { S.Mark.own told ≡ None }
    requires map { map < S.maps shared.now }
    requires key { S.takes shared.now key }
    requires value { value < 2 ^ 63 }
    requires spare { ForSome (S.Mark.own caller.old.note) (λ holding. 1 ≤ holding.spare) }
    ensures home { SameHome S.Mark.at caller.old.note caller.new.note }
    ensures finds { FindsItsStore map key value result (state_of S.Mark.own S.Mark.front S.seen caller.old.note) (state_of S.Mark.own S.Mark.front S.seen caller.new.note) }
{
    shared.map_call(rt, caller, map, MapCall::Store { key, value });
    caller.note.merge(shared.home(), told);
    shared.map_call(rt, caller, map, MapCall::Load { key })
}

/// Begins a cursor, makes a call on the same map, and makes a step of the cursor. The step is one of the cursor that was begun,
/// as the Range law speaks of it.
pub fn load_while_ranging<S: Shared, R: Wait>(
    shared: &S,
    rt: &R,
    caller: &mut Caller<S::Mark>,
    map: u32,
    key: u32,
) -> Option<(u32, u64)>
    requires caller { IsCallerAt S.Mark.at S.Mark.own (S.home_of shared.now) caller.old }
    requires map { map < S.maps shared.now }
    requires key { S.takes shared.now key }
    ensures home { SameHome S.Mark.at caller.old.note caller.new.note }
    ensures steps { StepsOn map result (state_of S.Mark.own S.Mark.front S.seen caller.old.note) (state_of S.Mark.own S.Mark.front S.seen caller.new.note) }
{
    let mut cursor = shared.begin(rt, caller, map);
    shared.map_call(rt, caller, map, MapCall::Load { key });
    shared.next(rt, caller, &mut cursor)
}
