//! What the maps of a run contain, and on which keys a call is an entry.
ghost use Rattle.std.specs.Prelude.{◌≡◌, ℕ, ◌==◌, [], ◌∷◌, ◌++◌, cond, map, unwrap_or, IfOk, OnOk};
ghost use Rattle.std.specs.FinMap.{empty};
ghost use Rattle.sync_types.specs.SequentialMap.{is_map_entry, map_after, has_value};
ghost use Rattle.race_clocks.specs.declared.channel.Channel.TheVariants as channels;
ghost use Rattle.race_clocks.specs.Handing.{key_given, key_taken, pairs_taken, map_at};

use crate::by_place::ByPlace;
use crate::channel::Channel;
use crate::deeds::found_key;
use std::alloc::{AllocError, Global};
use sync_types::{ByName, MapCall, Name, Seq, map_object};

/// Whether a call is an entry, by what the map contains before it.
fn is_map_entry(map: &ByName<u64>, call: &MapCall<Name>) -> bool
    ensures { result ≡ is_map_entry call.now map.now }
{
    match call {
        MapCall::Load { .. } => false,
        MapCall::Store { .. } | MapCall::Swap { .. } | MapCall::Clear => true,
        MapCall::LoadOrStore { key, .. } => map.get(key.as_bytes()).is_none(),
        MapCall::LoadAndDelete { key } | MapCall::Delete { key } => {
            map.get(key.as_bytes()).is_some()
        }
        MapCall::CompareAndSwap { key, old, .. } | MapCall::CompareAndDelete { key, old } => {
            has_value(*old, map.get(key.as_bytes()))
        }
    }
}

/// Whether this is the value.
fn has_value(old: u64, found: Option<u64>) -> bool
    ensures { result ≡ has_value old found }
{
    match found {
        Some(value) => value == old,
        None => false,
    }
}

/// Tells of a key.
fn push_key(
    alloc: Global,
    list: &mut Seq<Channel>,
    map: usize,
    key: &Name,
) -> Result<(), AllocError>
    ensures { OnOk result (list.new ≡ list.old ++ channels.MapKey map key.now ∷ []) }
{
    let key = Name::from_bytes(alloc, key.as_bytes())?;
    list.push(Channel::MapKey { map, key })
}

/// Tells of the key on which a call is an entry, or of each key.
fn push_entry(
    alloc: Global,
    gives: &mut Seq<Channel>,
    map: usize,
    enters: bool,
    call: &MapCall<Name>,
) -> Result<(), AllocError>
    ensures { OnOk result (gives.new ≡ gives.old ++ key_given enters map call.now) }
{
    if !enters {
        return Ok(());
    }
    match call.key() {
        Some(key) => push_key(alloc, gives, map, key),
        None => gives.push(Channel::EachKey(map)),
    }
}

/// Tells of the key of which a call finds what it has.
pub(crate) fn push_found(
    alloc: Global,
    takes: &mut Seq<Channel>,
    map: usize,
    call: &MapCall<Name>,
) -> Result<(), AllocError>
    ensures { OnOk result (takes.new ≡ takes.old ++ key_taken map call.now) }
{
    match found_key(call) {
        Some(key) => push_key(alloc, takes, map, key),
        None => Ok(()),
    }
}

/// Tells of the keys that a `range` shows.
pub(crate) fn push_pairs(
    alloc: Global,
    takes: &mut Seq<Channel>,
    map: usize,
    pairs: &[(Name, u64)],
) -> Result<(), AllocError>
    ensures { OnOk result (takes.new ≡ takes.old ++ pairs_taken map pairs.now) }
{
    for (key, _) in pairs {
        push_key(alloc, takes, map, key)?;
    }
    Ok(())
}

/// Makes a call on the map at a place, and tells of the keys on which it is an entry.
pub(crate) fn enter_map(
    alloc: Global,
    maps: &mut ByPlace<ByName<u64>>,
    place: usize,
    call: &MapCall<Name>,
    gives: &mut Seq<Channel>,
) -> Result<(), AllocError>
    ensures maps { OnOk result ((other : ℕ) → map_at maps.new other ≡ cond (place == other) (map_after call.now (map_at maps.old place)) (map_at maps.old other)) }
    ensures gives { OnOk result (gives.new ≡ gives.old ++ key_given (is_map_entry call.now (map_at maps.old place)) place call.now) }
{
    let mut map = map_or_new(alloc, maps.take(place));
    push_entry(alloc, gives, place, is_map_entry(&map, call), call)?;
    map_object::apply(alloc, &mut map, call)?;
    maps.put(place, map)
}

/// The map, or an empty one.
fn map_or_new(alloc: Global, map: Option<ByName<u64>>) -> ByName<u64>
    ensures { result ≡ unwrap_or map empty }
{
    match map {
        Some(map) => map,
        None => ByName::new(alloc),
    }
}
