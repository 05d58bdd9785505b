//! Copies of calls and replies, whose names take memory.
ghost use Rattle.std.specs.Prelude.{◌≡◌, IfOk};

use script_calls::{Call, Operation, Reply};
use std::alloc::{AllocError, Global};
use sync_types::{MapCall, Name, Seq};

/// The same name.
fn copied_name(alloc: Global, name: &Name) -> Result<Name, AllocError>
    ensures { IfOk result (λ copied. copied ≡ name.now) }
{
    Name::from_bytes(alloc, name.as_bytes())
}

/// The same call of a map.
pub(crate) fn copied_map_call(
    alloc: Global,
    call: &MapCall<Name>,
) -> Result<MapCall<Name>, AllocError>
    ensures { IfOk result (λ copied. copied ≡ call.now) }
{
    match call {
        MapCall::Load { key } => Ok(MapCall::Load {
            key: copied_name(alloc, key)?,
        }),
        MapCall::Store { key, value } => Ok(MapCall::Store {
            key: copied_name(alloc, key)?,
            value: *value,
        }),
        MapCall::LoadOrStore { key, value } => Ok(MapCall::LoadOrStore {
            key: copied_name(alloc, key)?,
            value: *value,
        }),
        MapCall::LoadAndDelete { key } => Ok(MapCall::LoadAndDelete {
            key: copied_name(alloc, key)?,
        }),
        MapCall::Delete { key } => Ok(MapCall::Delete {
            key: copied_name(alloc, key)?,
        }),
        MapCall::Swap { key, value } => Ok(MapCall::Swap {
            key: copied_name(alloc, key)?,
            value: *value,
        }),
        MapCall::CompareAndSwap { key, old, new } => Ok(MapCall::CompareAndSwap {
            key: copied_name(alloc, key)?,
            old: *old,
            new: *new,
        }),
        MapCall::CompareAndDelete { key, old } => Ok(MapCall::CompareAndDelete {
            key: copied_name(alloc, key)?,
            old: *old,
        }),
        MapCall::Clear => Ok(MapCall::Clear),
    }
}

/// The same operation.
fn copied_operation(alloc: Global, operation: &Operation) -> Result<Operation, AllocError>
    ensures { IfOk result (λ copied. copied ≡ operation.now) }
{
    match operation {
        Operation::Map(call) => Ok(Operation::Map(copied_map_call(alloc, call)?)),
        Operation::Range => Ok(Operation::Range),
        Operation::Atomic(call) => Ok(Operation::Atomic(*call)),
        Operation::Mutex(call) => Ok(Operation::Mutex(*call)),
        Operation::RwMutex(call) => Ok(Operation::RwMutex(*call)),
        Operation::Cond(call) => Ok(Operation::Cond(*call)),
        Operation::WaitGroup(call) => Ok(Operation::WaitGroup(*call)),
        Operation::Once => Ok(Operation::Once),
        Operation::OnceFunc => Ok(Operation::OnceFunc),
        Operation::OnceValue => Ok(Operation::OnceValue),
        Operation::Sema(call) => Ok(Operation::Sema(*call)),
        Operation::Fly(key) => Ok(Operation::Fly(copied_name(alloc, key)?)),
        Operation::Pool(call) => Ok(Operation::Pool(*call)),
        Operation::Var(call) => Ok(Operation::Var(*call)),
        Operation::Composed(call) => Ok(Operation::Composed(*call)),
    }
}

/// The same call.
pub(crate) fn copied_call(alloc: Global, call: &Call) -> Result<Call, AllocError>
    ensures { IfOk result (λ copied. copied ≡ call.now) }
{
    let operation = copied_operation(alloc, &call.operation)?;
    Ok(Call {
        object: call.object,
        operation,
    })
}

/// The same keys with their values.
pub(crate) fn copied_pairs(
    alloc: Global,
    pairs: &[(Name, u64)],
) -> Result<Seq<(Name, u64)>, AllocError>
    ensures { IfOk result (λ copied. copied ≡ pairs.now) }
{
    let mut copied = Seq::new(alloc);
    for (key, value) in pairs {
        copied.push((copied_name(alloc, key)?, *value))?;
    }
    Ok(copied)
}

/// The same reply.
pub(crate) fn copied_reply(alloc: Global, reply: &Reply<Name>) -> Result<Reply<Name>, AllocError>
    ensures { IfOk result (λ copied. copied ≡ reply.now) }
{
    match reply {
        Reply::Map(reply) => Ok(Reply::Map(*reply)),
        Reply::Pairs(pairs) => Ok(Reply::Pairs(copied_pairs(alloc, pairs.as_slice())?)),
        Reply::Atomic(reply) => Ok(Reply::Atomic(*reply)),
        Reply::Lock(reply) => Ok(Reply::Lock(*reply)),
        Reply::Returned => Ok(Reply::Returned),
        Reply::Once(reply) => Ok(Reply::Once(*reply)),
        Reply::OnceFunc(code) => Ok(Reply::OnceFunc(*code)),
        Reply::OnceValue(value) => Ok(Reply::OnceValue(*value)),
        Reply::Flown(value, shared) => Ok(Reply::Flown(*value, *shared)),
        Reply::Pool(reply) => Ok(Reply::Pool(*reply)),
        Reply::Var(reply) => Ok(Reply::Var(*reply)),
    }
}
