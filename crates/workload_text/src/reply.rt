//! A reply in a line of the report.
ghost use Rattle.std.specs.Prelude.{◌≡◌, ◌*◌, ◌≤◌, true, length, map};
ghost use Rattle.workload.specs.declared.limits.TheConstants.{MAX_KEYS};
ghost use Rattle.script_calls.specs.Outcome.{has_pairs_to};
ghost use Rattle.workload.specs.Canonical.{behind_spaces};
ghost use Rattle.workload_text.specs.Adding.{Adds, HasRoom};
ghost use Rattle.workload_text.specs.ReportLines.{map_reply_text, pair_text, pairs_text, atomic_reply_text, lock_reply_text, once_reply_text, once_func_reply_text, pool_reply_text, flown_reply_text, var_reply_text, reply_text};

use crate::line::{push, push_atomic_number, push_number, push_signed, push_truth};
use script_calls::{Reply, VarReply};
use sync_types::{AtomicReply, DoReply, LockReply, MapReply, Name, PoolCallReply};
use workload::keys::key_name;

/// The most bytes of a reply: 4,096 pairs, each of a key of 32 bytes, `=`, a value of 20 digits, and a
/// space before the next.
pub const REPLY_ROOM: usize = 221_184;

/// Adds a reply of a map.
fn push_map_reply(line: &mut Vec<u8>, reply: &MapReply)
    requires { HasRoom line.old 30 }
    ensures { Adds line.old line.new (map_reply_text reply.now) 30 }
{
    match reply {
        MapReply::Done => push(line, b"ok"),
        MapReply::Found(None) => push(line, b"- false"),
        MapReply::Found(Some(value)) => {
            push_number(line, *value);
            push(line, b" true");
        }
        MapReply::Settled { value, loaded } => {
            push_number(line, *value);
            push(line, b" ");
            push_truth(line, *loaded);
        }
        MapReply::Compared(is_old) => push_truth(line, *is_old),
    }
}

/// Adds a key, by its number among these, with its value.
fn push_pair(line: &mut Vec<u8>, keys: &[Name], pair: (u32, u64))
    requires { HasRoom line.old 53 }
    ensures { Adds line.old line.new (pair_text keys.now pair) 53 }
{
    let (key, value) = pair;
    push(line, key_name(keys, key));
    push(line, b"=");
    push_number(line, value);
}

/// Adds keys with their values, each behind a space.
fn push_more_pairs(line: &mut Vec<u8>, keys: &[Name], pairs: &[(u32, u64)])
    requires { HasRoom line.old (54 * length pairs.now) }
    ensures { Adds line.old line.new (behind_spaces (map (pair_text keys.now) pairs.now)) (54 * length pairs.now) }
{
    for pair in pairs {
        push(line, b" ");
        push_pair(line, keys, *pair);
    }
}

/// Adds the keys that a `range` shows, with their values.
fn push_pairs(line: &mut Vec<u8>, keys: &[Name], pairs: &[(u32, u64)])
    requires few { length pairs.now ≤ MAX_KEYS }
    requires room { HasRoom line.old REPLY_ROOM }
    ensures { Adds line.old line.new (pairs_text keys.now pairs.now) REPLY_ROOM }
{
    match pairs.split_first() {
        None => push(line, b"-"),
        Some((first, rest)) => {
            push_pair(line, keys, *first);
            push_more_pairs(line, keys, rest);
        }
    }
}

/// Adds a reply of an atomic.
fn push_atomic_reply(line: &mut Vec<u8>, reply: AtomicReply)
    requires { HasRoom line.old 30 }
    ensures { Adds line.old line.new (atomic_reply_text reply) 30 }
{
    match reply {
        AtomicReply::Done => push(line, b"ok"),
        AtomicReply::Held(number) => push_atomic_number(line, number),
        AtomicReply::Compared(is_old) => push_truth(line, is_old),
    }
}

/// Adds a reply of a mutex, a reader/writer mutex or a weighted semaphore.
fn push_lock_reply(line: &mut Vec<u8>, reply: LockReply)
    requires { HasRoom line.old 5 }
    ensures { Adds line.old line.new (lock_reply_text reply) 5 }
{
    match reply {
        LockReply::Done => push(line, b"ok"),
        LockReply::Tried(is_taken) => push_truth(line, is_taken),
    }
}

/// Adds a reply of a once.
fn push_once_reply(line: &mut Vec<u8>, reply: DoReply)
    requires { HasRoom line.old 30 }
    ensures { Adds line.old line.new (once_reply_text reply) 30 }
{
    match reply {
        DoReply::Ran(sum) => {
            push(line, b"ran ");
            push_signed(line, sum);
        }
        DoReply::Done => push(line, b"done"),
    }
}

/// Adds the code with which the function of a `oncefunc` failed, if it did.
fn push_once_func_reply(line: &mut Vec<u8>, code: Option<u32>)
    requires { HasRoom line.old 30 }
    ensures { Adds line.old line.new (once_func_reply_text code) 30 }
{
    match code {
        None => push(line, b"ok"),
        Some(code) => {
            push(line, b"err ");
            push_number(line, u64::from(code));
        }
    }
}

/// Adds a reply of a pool.
fn push_pool_reply(line: &mut Vec<u8>, reply: PoolCallReply)
    requires { HasRoom line.old 30 }
    ensures { Adds line.old line.new (pool_reply_text reply) 30 }
{
    match reply {
        PoolCallReply::Done => push(line, b"ok"),
        PoolCallReply::Put(item) => {
            push_number(line, item);
            push(line, b" put");
        }
        PoolCallReply::New => push(line, b"0 new"),
    }
}

/// Adds the value of a flight, and whether more than one call received it.
fn push_flown_reply(line: &mut Vec<u8>, value: i64, shared: bool)
    requires { HasRoom line.old 30 }
    ensures { Adds line.old line.new (flown_reply_text value shared) 30 }
{
    push_signed(line, value);
    push(line, b" ");
    push_truth(line, shared);
}

/// Adds a reply of a plain variable.
fn push_var_reply(line: &mut Vec<u8>, reply: VarReply)
    requires { HasRoom line.old 30 }
    ensures { Adds line.old line.new (var_reply_text reply) 30 }
{
    match reply {
        VarReply::Done => push(line, b"ok"),
        VarReply::Held(value) => push_number(line, value),
    }
}

/// Adds a reply, whose keys have their numbers among these.
pub fn push_reply(line: &mut Vec<u8>, keys: &[Name], reply: &Reply<u32>)
    requires pairs { has_pairs_to MAX_KEYS reply.now ≡ true }
    requires room { HasRoom line.old REPLY_ROOM }
    ensures { Adds line.old line.new (reply_text keys.now reply.now) REPLY_ROOM }
{
    match reply {
        Reply::Map(reply) => push_map_reply(line, reply),
        Reply::Pairs(pairs) => push_pairs(line, keys, pairs.as_slice()),
        Reply::Atomic(reply) => push_atomic_reply(line, *reply),
        Reply::Lock(reply) => push_lock_reply(line, *reply),
        Reply::Returned => push(line, b"ok"),
        Reply::Once(reply) => push_once_reply(line, *reply),
        Reply::OnceFunc(code) => push_once_func_reply(line, *code),
        Reply::OnceValue(value) => push_number(line, *value),
        Reply::Pool(reply) => push_pool_reply(line, *reply),
        Reply::Flown(value, shared) => push_flown_reply(line, *value, *shared),
        Reply::Var(reply) => push_var_reply(line, *reply),
    }
}
