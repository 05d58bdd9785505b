//! Which number a channel has now.
ghost use Rattle.std.specs.Prelude.{◌≡◌, ℕ, ◌==◌, ◌&&◌, [], Some, cond, unwrap_or, OnOk};
ghost use Rattle.std.specs.Option.{option_copied};
ghost use Rattle.std.specs.FinMap as finite;
ghost use Rattle.race_clocks.specs.Numbering.{at_in, keys_at, later, number_at, IsSetAt, none_yet};

use crate::by_place::ByPlace;
use crate::channel::Channel;
use std::alloc::{AllocError, Global};
use sync_types::{ByName, Name};

/// The numbers of the channels. Of a map's key it is the later one of that of the last entry on the key, and of the map's last clear.
#[derive(Drop)]
pub(crate) struct Tables {
    mutexes: ByPlace<u32>,
    writers: ByPlace<u32>,
    readers: ByPlace<u32>,
    notices: ByPlace<ByPlace<u32>>,
    groups: ByPlace<u32>,
    onces: ByPlace<u32>,
    puts: ByPlace<ByPlace<u32>>,
    starts: ByPlace<u32>,
    atomics: ByPlace<u32>,
    keys: ByPlace<ByName<u32>>,
    clears: ByPlace<u32>,
}

/// The later one of two numbers, where there are any: the greater one.
fn later(one: Option<u32>, other: Option<u32>) -> Option<u32>
    ensures { result ≡ later one other }
{
    match (one, other) {
        (Some(number), Some(next)) => Some(number.max(next)),
        (Some(number), None) => Some(number),
        (None, other) => other,
    }
}

/// The number in a row.
fn number_in(rows: &ByPlace<ByPlace<u32>>, row: usize, slot: usize) -> Option<u32>
    ensures { result ≡ at_in rows.now row slot }
{
    match rows.get_ref(row) {
        Some(numbers) => numbers.get(slot),
        None => None,
    }
}

/// Sets the number in a row.
fn set_in(
    alloc: Global,
    rows: &mut ByPlace<ByPlace<u32>>,
    row: usize,
    slot: usize,
    number: u32,
) -> Result<(), AllocError>
    ensures { OnOk result ((other place : ℕ) → at_in rows.new other place ≡ cond ((row == other) && (slot == place)) (Some number) (at_in rows.old other place)) }
{
    let mut numbers = row_or_new(alloc, rows.take(row));
    numbers.put(slot, number)?;
    rows.put(row, numbers)
}

/// The row, or one in which nothing stands.
fn row_or_new(alloc: Global, row: Option<ByPlace<u32>>) -> ByPlace<u32>
    ensures { result ≡ unwrap_or row [] }
{
    match row {
        Some(row) => row,
        None => ByPlace::new(alloc),
    }
}

/// The number of the last entry on a key of a map.
fn number_on(keys: &ByPlace<ByName<u32>>, map: usize, key: &Name) -> Option<u32>
    ensures { result ≡ finite.get (keys_at keys.now map) key.now }
{
    match keys.get_ref(map) {
        Some(numbers) => numbers.get(key.as_bytes()),
        None => None,
    }
}

/// Sets the number of a key.
fn set_key(
    alloc: Global,
    keys: &mut ByPlace<ByName<u32>>,
    map: usize,
    key: &Name,
    number: u32,
) -> Result<(), AllocError>
    ensures { OnOk result ((other : ℕ) → keys_at keys.new other ≡ cond (map == other) (finite.insert (keys_at keys.old map) key.now number) (keys_at keys.old other)) }
{
    let mut numbers = keys_or_new(alloc, keys.take(map));
    numbers.insert(alloc, key.as_bytes(), number)?;
    keys.put(map, numbers)
}

/// The numbers of a map's keys, of which none has one where there is no such map.
fn keys_or_new(alloc: Global, keys: Option<ByName<u32>>) -> ByName<u32>
    ensures { result ≡ unwrap_or keys finite.empty }
{
    match keys {
        Some(keys) => keys,
        None => ByName::new(alloc),
    }
}

impl Tables {
    /// No channel has a number.
    pub(crate) fn new(alloc: Global) -> Self
        ensures { result ≡ none_yet }
    {
        Tables {
            mutexes: ByPlace::new(alloc),
            writers: ByPlace::new(alloc),
            readers: ByPlace::new(alloc),
            notices: ByPlace::new(alloc),
            groups: ByPlace::new(alloc),
            onces: ByPlace::new(alloc),
            puts: ByPlace::new(alloc),
            starts: ByPlace::new(alloc),
            atomics: ByPlace::new(alloc),
            keys: ByPlace::new(alloc),
            clears: ByPlace::new(alloc),
        }
    }

    /// The number of a channel, if it has one. The channel of each key has none of its own.
    pub(crate) fn number(&self, channel: &Channel) -> Option<u32>
        ensures { result ≡ number_at self.now channel.now }
    {
        match channel {
            Channel::MutexUnlock(mutex) => self.mutexes.get(*mutex),
            Channel::WriterUnlock(lock) => self.writers.get(*lock),
            Channel::ReaderUnlock(lock) => self.readers.get(*lock),
            Channel::Notice { cond, worker } => number_in(&self.notices, *cond, *worker as usize),
            Channel::Lowering(group) => self.groups.get(*group),
            Channel::FunctionEnd(once) => self.onces.get(*once),
            Channel::PutItem { pool, number } => number_in(&self.puts, *pool, *number as usize),
            Channel::Start(worker) => self.starts.get(*worker as usize),
            Channel::Atomic(atomic) => self.atomics.get(*atomic),
            Channel::MapKey { map, key } => {
                later(number_on(&self.keys, *map, key), self.clears.get(*map))
            }
            Channel::EachKey(_) => None,
        }
    }

    /// Sets the number of a channel.
    pub(crate) fn set(
        &mut self,
        alloc: Global,
        channel: &Channel,
        number: u32,
    ) -> Result<(), AllocError>
        ensures { OnOk result (IsSetAt channel.now number self.old self.new) }
    {
        match channel {
            Channel::MutexUnlock(mutex) => self.mutexes.put(*mutex, number),
            Channel::WriterUnlock(lock) => self.writers.put(*lock, number),
            Channel::ReaderUnlock(lock) => self.readers.put(*lock, number),
            Channel::Notice { cond, worker } => {
                set_in(alloc, &mut self.notices, *cond, *worker as usize, number)
            }
            Channel::Lowering(group) => self.groups.put(*group, number),
            Channel::FunctionEnd(once) => self.onces.put(*once, number),
            Channel::PutItem { pool, number: put } => {
                set_in(alloc, &mut self.puts, *pool, *put as usize, number)
            }
            Channel::Start(worker) => self.starts.put(*worker as usize, number),
            Channel::Atomic(atomic) => self.atomics.put(*atomic, number),
            Channel::MapKey { map, key } => set_key(alloc, &mut self.keys, *map, key, number),
            Channel::EachKey(map) => self.clears.put(*map, number),
        }
    }
}
