//! A map, a mutex and a wait group that hand on what callers know of the map.
ghost use Rattle.std.specs.Prelude.{◌≡◌, ◌+◌, ◌<◌, ◌≤◌, ◌*◌, ◌≤ℤ◌, pos, All, IfOk, IfSome, MatchOption, vec_len};
ghost use Rattle.std.specs.Option.{ForSome};
ghost use Rattle.sync_model.specs.Shared.{IsCallerAt};
ghost use Rattle.shared_table.specs.CallerProps.{caller_prop};
ghost use Rattle.shared_table.specs.Notes.{own_by, IsNoteOf};
ghost use Rattle.shared_table.specs.Tables.{maps_of};
ghost use Rattle.go_locks.specs.Mutexes.{IsHomeOfMutex, IsPassOfMutex};
ghost use Rattle.go_waits.specs.Groups.{IsHomeOf, IsPassOf};
ghost use Rattle.synced_map.specs.NoteProps.{note_prop};

mod calls;
mod locks;
mod waits;

use go_locks::{Mutex, MutexPass};
use go_waits::{GroupPass, WaitGroup};
use ruled_object::MAX_CALLS;
use shared_table::{SharedNote, SharedTable};
use std::alloc::{AllocError, Global};
use sync_model::{Caller, Note};
use sync_outside::Clock;

/// A map with a mutex and a wait group that hand on what their callers know of the map.
#[derive(Drop)]
pub struct SyncedMap {
    pub(crate) table: SharedTable,
    pub(crate) mutex: Mutex<SharedNote>,
    pub(crate) group: WaitGroup<SharedNote>,
    ghost one: { 0 < maps_of table },
    ghost mutex_home: { IsHomeOfMutex IsNoteOf mutex table } by { note_prop table mutex.object.table.shared.key.note },
    ghost group_home: { IsHomeOf IsNoteOf group table } by { note_prop table group.object.table.shared.key.note },
}

/// What such a map keeps of its threads. `SyncedMap::callers` makes callers of them.
#[derive(Drop)]
pub struct SyncedMapPasses {
    callers: Vec<Caller<SharedNote>>,
    locks: Vec<MutexPass<SharedNote>>,
    members: Vec<GroupPass<SharedNote>>,
}

impl SyncedMap {
    /// An empty map, an unlocked mutex, and a group whose counter is `start`, 0 to 10,000, for so many threads, 64 at most. Each
    /// thread may make `room` calls that may change the map; it takes 1,024 bytes for each. All threads together have a million at
    /// most.
    pub fn new(
        alloc: Global,
        threads: u32,
        room: u32,
        start: i32,
    ) -> Result<(Self, SyncedMapPasses), AllocError>
        requires threads { (0 < threads) × (threads ≤ 64) }
        requires room { threads * room ≤ 1000000 }
        requires start { (pos 0 ≤ℤ start) × (start ≤ℤ pos 10000) }
        ensures callers { IfOk result (λ made. All (IsCallerAt IsNoteOf own_by made.0.table) made.1.callers.items) }
        ensures locks { IfOk result (λ made. All (IsPassOfMutex made.0.mutex) made.1.locks.items) }
        ensures members { IfOk result (λ made. All (IsPassOf made.0.group) made.1.members.items) }
        ensures count { IfOk result (λ made. (vec_len made.1.callers ≡ threads) × (vec_len made.1.locks ≡ threads) × (vec_len made.1.members ≡ threads)) }
    {
        let rooms = Vec::from_elem(alloc, room, threads as usize)?;
        let (table, mut callers) = SharedTable::new(alloc, &[], 1, 0, &rooms)?;
        let Some(mut caller) = callers.pop() else {
            unreachable!()
        };
        let (for_mutex, for_group) = copies(&table, &mut caller);
        callers.push(caller)?;
        let (mutex, locks) = Mutex::new(alloc, threads, MAX_CALLS, for_mutex)?;
        let (group, members) = WaitGroup::new(alloc, threads, MAX_CALLS, start, for_group)?;
        let map = SyncedMap {
            table,
            mutex,
            group,
        };
        let passes = SyncedMapPasses {
            callers,
            locks,
            members,
        };
        Ok((map, passes))
    }

    /// A caller for each thread.
    pub fn callers<'a, C: Clock>(
        &'a self,
        alloc: Global,
        clock: &'a C,
        mut passes: SyncedMapPasses,
    ) -> Result<Vec<SyncedMapCaller<'a, C>>, AllocError>
        requires callers { All (IsCallerAt IsNoteOf own_by self.now.table) passes.callers.items }
        requires locks { All (IsPassOfMutex self.now.mutex) passes.locks.items }
        requires members { All (IsPassOf self.now.group) passes.members.items }
        requires count { (vec_len passes.locks ≡ vec_len passes.callers) × (vec_len passes.members ≡ vec_len passes.callers) }
        ensures count { IfOk result (λ callers. vec_len callers ≡ vec_len passes.callers) }
        ensures each { IfOk result (λ callers. All (λ caller. caller.map.now ≡ self.now) callers.items) }
    {
        let mut callers = Vec::with_capacity(alloc, passes.callers.len())?;
        while let Some(caller) = SyncedMapCaller::last(self, clock, &mut passes) {
            callers.push(caller)?;
        }
        Ok(callers)
    }
}

// Two copies of what a caller knows: what the mutex and the group begin with.
fn copies(table: &SharedTable, caller: &mut Caller<SharedNote>) -> (SharedNote, SharedNote)
    requires { IsCallerAt IsNoteOf own_by table.now caller.old }
    ensures caller { IsCallerAt IsNoteOf own_by table.now caller.new }
    ensures copies { IsNoteOf table.now result.0 × IsNoteOf table.now result.1 }
{
    let first = table.copy(&mut caller.note);
    let second = table.copy(&mut caller.note);
    (first, second)
}

/// What one thread uses a map, its mutex and its group by.
///
/// In the words of Go's memory model: an `unlock` is synchronized before each later `lock`, and before each later `try_lock` that
/// succeeds; and a `done` before the return of any `wait` that it unblocks. So what was stored before an unlock is found after the lock.
#[derive(Drop)]
pub struct SyncedMapCaller<'a, C: Clock> {
    map: &'a SyncedMap,
    clock: &'a C,
    caller: Caller<SharedNote>,
    lock_pass: MutexPass<SharedNote>,
    group_pass: GroupPass<SharedNote>,
    ghost is: { IsCallerAt IsNoteOf own_by map.now.table caller } by { caller_prop map.now.table caller },
    ghost locks: { IsPassOfMutex map.now.mutex lock_pass },
    ghost waits: { IsPassOf map.now.group group_pass },
}

impl<'a, C: Clock> SyncedMapCaller<'a, C> {
    // The caller of the last of these passes.
    fn last(map: &'a SyncedMap, clock: &'a C, passes: &mut SyncedMapPasses) -> Option<Self>
        requires callers { All (IsCallerAt IsNoteOf own_by map.now.table) passes.old.callers.items }
        requires locks { All (IsPassOfMutex map.now.mutex) passes.old.locks.items }
        requires members { All (IsPassOf map.now.group) passes.old.members.items }
        requires count { (vec_len passes.old.locks ≡ vec_len passes.old.callers) × (vec_len passes.old.members ≡ vec_len passes.old.callers) }
        ensures callers { All (IsCallerAt IsNoteOf own_by map.now.table) passes.new.callers.items }
        ensures locks { All (IsPassOfMutex map.now.mutex) passes.new.locks.items }
        ensures members { All (IsPassOf map.now.group) passes.new.members.items }
        ensures count { MatchOption result (vec_len passes.old.callers ≡ 0) (λ _. vec_len passes.new.callers + 1 ≡ vec_len passes.old.callers) }
        ensures at { IfSome result (λ caller. caller.map.now ≡ map.now) }
        ensures same { (vec_len passes.new.locks ≡ vec_len passes.new.callers) × (vec_len passes.new.members ≡ vec_len passes.new.callers) }
    {
        let caller = passes.callers.pop()?;
        let lock_pass = passes.locks.pop()?;
        let group_pass = passes.members.pop()?;
        Some(SyncedMapCaller {
            map,
            clock,
            caller,
            lock_pass,
            group_pass,
        })
    }

    /// How many more calls of this caller may change the map.
    pub fn room(&self) -> u32
        ensures { ForSome (own_by self.now.caller.note) (λ holding. result ≡ holding.spare) }
    {
        self.caller.spare()
    }
}
