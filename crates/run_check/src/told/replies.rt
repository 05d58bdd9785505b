//! What a call on a map or an atomic replied, read from its word.
ghost use Rattle.std.specs.Prelude.{◌≡◌, ◌+◌, ◌-◌, ◌<◌, ◌≤◌, ◌^◌, negsuc};
ghost use Rattle.run_check.specs.Replies.{below_told, int64_told, int32_told, any_number_told, natural_told, number_told, compares, atomic_reply_told, settles, map_reply_told, reply_told};

use record_text::{PlacedReply, Whole};
use sync_model::{SharedCall, SharedReply};
use sync_types::{AtomicCall, AtomicKind, AtomicReply, MapCall, MapReply, Number};

// The number that is so much below 0.
fn below(n: u64) -> i64
    requires some { 0 < n }
    requires few { n ≤ 2 ^ 63 }
    ensures { result ≡ negsuc (n - 1) }
{
    -1 - (n - 1) as i64
}

fn below_told(n: u64) -> Option<i64>
    ensures { result ≡ below_told n }
{
    if 0 < n && n <= 1 << 63 {
        Some(below(n))
    } else {
        None
    }
}

/// A number of 64 bits with a sign.
pub fn int64_told(word: Whole) -> Option<i64>
    ensures { result ≡ int64_told word }
{
    match word {
        Whole::Natural(n) => { if n < 1 << 63 { Some(n as i64) } else { None } }
        Whole::Below(n) => below_told(n),
    }
}

// The number that is so much below 0.
fn small_below(n: u64) -> i32
    requires some { 0 < n }
    requires few { n ≤ 2 ^ 31 }
    ensures { result ≡ negsuc (n - 1) }
{
    -1 - (n - 1) as i32
}

/// A number of 32 bits with a sign.
pub fn int32_told(word: Whole) -> Option<i32>
    ensures { result ≡ int32_told word }
{
    match word {
        Whole::Natural(n) => { if n < 1 << 31 { Some(n as i32) } else { None } }
        Whole::Below(n) => {
            if 0 < n && n <= 1 << 31 {
                Some(small_below(n))
            } else {
                None
            }
        }
    }
}

fn uint32_told(word: Whole) -> Option<u32>
    ensures { result ≡ natural_told (2 ^ 32) word }
{
    match word {
        Whole::Natural(n) => { if n < 1 << 32 { Some(n as u32) } else { None } }
        Whole::Below(_) => None,
    }
}

fn any_number_told(word: Whole) -> Option<Number>
    ensures { result ≡ any_number_told word }
{
    match word {
        Whole::Natural(n) => Some(Number::Uint64(n)),
        Whole::Below(n) => below_told(n).map(Number::Int64),
    }
}

// A number of this type; one that is out of its range as it stands.
fn number_told(kind: AtomicKind, word: Whole) -> Option<Number>
    ensures { result ≡ number_told kind word }
{
    match kind {
        AtomicKind::Int32 => {
            if let Some(number) = int32_told(word) {
                return Some(Number::Int32(number));
            }
        }
        AtomicKind::Int64 => {
            if let Some(number) = int64_told(word) {
                return Some(Number::Int64(number));
            }
        }
        AtomicKind::Uint32 => {
            if let Some(number) = uint32_told(word) {
                return Some(Number::Uint32(number));
            }
        }
        AtomicKind::Uint64 | AtomicKind::Bool => {}
    }
    any_number_told(word)
}

fn compares(call: AtomicCall) -> bool
    ensures { result ≡ compares call }
{
    matches!(call, AtomicCall::CompareAndSwap { .. })
}

fn atomic_reply_told(kind: AtomicKind, call: AtomicCall, reply: PlacedReply) -> Option<AtomicReply>
    ensures { result ≡ atomic_reply_told kind call reply }
{
    match reply {
        PlacedReply::Done => Some(AtomicReply::Done),
        PlacedReply::Truth(truth) => {
            if compares(call) {
                Some(AtomicReply::Compared(truth))
            } else {
                Some(AtomicReply::Held(Number::Bool(truth)))
            }
        }
        PlacedReply::Number(word) => number_told(kind, word).map(AtomicReply::Held),
        PlacedReply::Absent | PlacedReply::Valued { .. } => None,
    }
}

fn settles(call: MapCall<u32>) -> bool
    ensures { result ≡ settles call }
{
    matches!(call, MapCall::LoadOrStore { .. })
}

fn map_reply_told(call: MapCall<u32>, reply: PlacedReply) -> Option<MapReply>
    ensures { result ≡ map_reply_told call reply }
{
    match reply {
        PlacedReply::Done => Some(MapReply::Done),
        PlacedReply::Absent => Some(MapReply::Found(None)),
        PlacedReply::Valued {
            value,
            was_there: true,
        } => {
            if settles(call) {
                Some(MapReply::Settled {
                    value,
                    loaded: true,
                })
            } else {
                Some(MapReply::Found(Some(value)))
            }
        }
        PlacedReply::Valued {
            value,
            was_there: false,
        } => Some(MapReply::Settled {
            value,
            loaded: false,
        }),
        PlacedReply::Truth(truth) => Some(MapReply::Compared(truth)),
        PlacedReply::Number(_) => None,
    }
}

/// What a call on a map, or on an atomic of this type, replied: as a reply of its type where its word is one of such. Nothing, where its
/// object has no reply with this word.
pub fn reply_told(kind: AtomicKind, call: &SharedCall, reply: PlacedReply) -> Option<SharedReply>
    ensures { result ≡ reply_told kind call.now reply }
{
    match call {
        SharedCall::Map { map: _, call } => map_reply_told(*call, reply).map(SharedReply::Map),
        SharedCall::Atomic { atomic: _, call } => {
            atomic_reply_told(kind, *call, reply).map(SharedReply::Atomic)
        }
        SharedCall::Begin { .. } | SharedCall::Next { .. } => None,
    }
}
