//! Go's `sync.Map`: maps of a table, and the callers that threads use them by.
ghost use Rattle.std.specs.Prelude.{◌≡◌, ◌+◌, ◌<◌, ◌≤◌, ◌*◌, [], All, IfOk, IfSome, MatchOption, replicate, vec_len};
ghost use Rattle.std.specs.Option.{ForSome};
ghost use Rattle.sync_model.specs.Shared.{IsCallerAt};
ghost use Rattle.shared_table.specs.CallerProps.{caller_prop};
ghost use Rattle.shared_table.specs.NewCallers.{AreNewCallers};
ghost use Rattle.shared_table.specs.Notes.{own_by, IsNoteOf};
ghost use Rattle.shared_table.specs.Tables.{kinds_of, maps_of};

mod calls;
mod pairs;

use go_map::Map;
use shared_table::{SharedNote, SharedTable};
use std::alloc::{AllocError, Global};
use sync_model::Caller;

/// What a table keeps of its threads, one for each. `map_callers` and `atomic_callers` make callers of them.
pub type TableCallers = Vec<Caller<SharedNote>>;

/// A table with one empty map, of number 0, for so many threads, 64 at most. Each thread may make `room` calls that may change the
/// map; it takes 1,024 bytes for each. All threads together have a million at most.
pub fn new_map(
    alloc: Global,
    threads: u32,
    room: u32,
) -> Result<(SharedTable, TableCallers), AllocError>
    requires threads { (0 < threads) × (threads ≤ 64) }
    requires room { threads * room ≤ 1000000 }
    ensures map { IfOk result (λ made. (maps_of made.0 ≡ 1) × (kinds_of made.0 ≡ [])) }
    ensures room { IfOk result (λ made. AreNewCallers made.0 (replicate threads room) made.1.items) }
    ensures callers { IfOk result (λ made. All (IsCallerAt IsNoteOf own_by made.0) made.1.items) }
    ensures count { IfOk result (λ made. vec_len made.1 ≡ threads) }
{
    let rooms = Vec::from_elem(alloc, room, threads as usize)?;
    let (table, callers) = SharedTable::new(alloc, &[], 1, 0, &rooms)?;
    Ok((table, callers))
}

/// A caller of the map of this number for each of a table's threads.
pub fn map_callers<'a>(
    alloc: Global,
    table: &'a SharedTable,
    number: u32,
    mut callers: TableCallers,
) -> Result<Vec<MapCaller<'a>>, AllocError>
    requires number { number < maps_of table.now }
    requires callers { All (IsCallerAt IsNoteOf own_by table.now) callers.items }
    ensures count { IfOk result (λ members. vec_len members ≡ vec_len callers) }
    ensures each { IfOk result (λ members. All (λ member. (member.map.table.now ≡ table.now) × (member.map.number ≡ number)) members.items) }
{
    let mut members = Vec::with_capacity(alloc, callers.len())?;
    while let Some(member) = MapCaller::last(table, number, &mut callers) {
        members.push(member)?;
    }
    Ok(members)
}

/// What one thread uses a map by. Keys are numbers of 32 bits, and values below 2^63.
///
/// In the words of Go's memory model: a call that observes what another one wrote is synchronized after it. Each call has one place
/// in the history that all callers share, and is answered there as by the map of one thread.
///
/// A call that may change the map takes a unit of its caller's room, whatever it answers. Where none is left it does nothing, and
/// says so.
#[derive(Drop)]
pub struct MapCaller<'a> {
    map: Map<'a>,
    caller: Caller<SharedNote>,
    ghost is: { IsCallerAt IsNoteOf own_by map.table.now caller } by { caller_prop map.table.now caller },
}

impl<'a> MapCaller<'a> {
    /// The last of a table's callers, at the map of this number.
    pub fn last(table: &'a SharedTable, number: u32, callers: &mut TableCallers) -> Option<Self>
        requires number { number < maps_of table.now }
        requires callers { All (IsCallerAt IsNoteOf own_by table.now) callers.old.items }
        ensures callers { All (IsCallerAt IsNoteOf own_by table.now) callers.new.items }
        ensures count { MatchOption result (vec_len callers.old ≡ 0) (λ _. vec_len callers.new + 1 ≡ vec_len callers.old) }
        ensures at { IfSome result (λ member. (member.map.table.now ≡ table.now) × (member.map.number ≡ number)) }
    {
        let caller = callers.pop()?;
        Some(MapCaller {
            map: Map::at(table, number),
            caller,
        })
    }

    /// How many more calls of this caller may change the map.
    pub fn room(&self) -> u32
        ensures { ForSome (own_by self.now.caller.note) (λ holding. result ≡ holding.spare) }
    {
        self.caller.spare()
    }
}
