//! Replies with the numbers of keys in place of their names.
ghost use Rattle.std.specs.Prelude.{◌≡◌, map, IfOk};
ghost use Rattle.script_calls.specs.Outcome.{with_keys_renamed};
ghost use Rattle.workload.specs.Keys.{key_number};
ghost use Rattle.step_runner.specs.Ends.{numbered};

use script_calls::Reply;
use std::alloc::{AllocError, Global};
use sync_types::{Name, Seq};
use workload::{Keys, Workload};

/// The number of a key, or 0 for a name that is none.
pub fn number_of(keys: &Keys, key: &Name) -> u32
    ensures { result ≡ key_number keys.now key.now }
{
    keys.number(key.as_bytes()).unwrap_or(0)
}

fn number_pairs(
    alloc: Global,
    keys: &Keys,
    pairs: Seq<(Name, u64)>,
) -> Result<Seq<(u32, u64)>, AllocError>
    ensures { IfOk result (λ numbered. numbered ≡ map (λ pair. (key_number keys.now pair.0, pair.1)) pairs) }
{
    let mut numbered = Seq::new(alloc);
    for (key, value) in pairs.into_vec() {
        numbered.push((number_of(keys, &key), value))?;
    }
    Ok(numbered)
}

fn number_reply(alloc: Global, keys: &Keys, reply: Reply<Name>) -> Result<Reply<u32>, AllocError>
    ensures { IfOk result (λ numbered. numbered ≡ with_keys_renamed (key_number keys.now) reply) }
{
    match reply {
        Reply::Map(reply) => Ok(Reply::Map(reply)),
        Reply::Pairs(pairs) => Ok(Reply::Pairs(number_pairs(alloc, keys, pairs)?)),
        Reply::Atomic(reply) => Ok(Reply::Atomic(reply)),
        Reply::Lock(reply) => Ok(Reply::Lock(reply)),
        Reply::Returned => Ok(Reply::Returned),
        Reply::Once(reply) => Ok(Reply::Once(reply)),
        Reply::OnceFunc(code) => Ok(Reply::OnceFunc(code)),
        Reply::OnceValue(value) => Ok(Reply::OnceValue(value)),
        Reply::Flown(value, shared) => Ok(Reply::Flown(value, shared)),
        Reply::Pool(reply) => Ok(Reply::Pool(reply)),
        Reply::Var(reply) => Ok(Reply::Var(reply)),
    }
}

fn number_replies(
    alloc: Global,
    keys: &Keys,
    replies: Seq<Reply<Name>>,
) -> Result<Seq<Reply<u32>>, AllocError>
    ensures { IfOk result (λ numbered. numbered ≡ map (with_keys_renamed (key_number keys.now)) replies) }
{
    let mut numbered = Seq::new(alloc);
    for reply in replies.into_vec() {
        numbered.push(number_reply(alloc, keys, reply)?)?;
    }
    Ok(numbered)
}

/// All workers' replies with the numbers of the workload's keys in place of their names.
pub fn number_all(
    alloc: Global,
    workload: &Workload,
    replies: Seq<Seq<Reply<Name>>>,
) -> Result<Seq<Seq<Reply<u32>>>, AllocError>
    ensures { IfOk result (λ all. all ≡ numbered workload.now replies) }
{
    let keys = workload.keys();
    let mut all = Seq::new(alloc);
    for replies in replies.into_vec() {
        all.push(number_replies(alloc, keys, replies)?)?;
    }
    Ok(all)
}
