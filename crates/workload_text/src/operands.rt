//! What the line of a call says behind the names of its objects: a key, and up to two numbers.
ghost use Rattle.std.specs.Prelude.{◌≡◌, ◌++◌, map};
ghost use Rattle.std.specs.Fmt.{decimal};
ghost use Rattle.std.specs.Option.{option_to_list, option_copied};
ghost use Rattle.workload.specs.NumberWords.{number_word};
ghost use Rattle.workload.specs.CallWords.{map_values, atomic_numbers, group_operands, pool_operands, sema_weight, var_operands, composed_operands, operands_of};
ghost use Rattle.workload_text.specs.Numbers.{numbers_in};

use script_calls::{ComposedCall, Operation, VarCall};
use sync_types::{AtomicCall, MapCall, Name, Number, PoolCall, SemaCall, WaitGroupCall};

/// The numbers of a call, in order. A value of a map or a variable, an item of a pool and a weight are of the type `Uint64`
/// here, an amount for a wait group is of `Int32`, and the number of calls that an `ifeq` passes over, of waits that a
/// `waitfor` may make or of the worker that a `go` starts is of `Uint32`.
#[derive(Clone, Copy)]
pub enum Numbers {
    /// The call has no number.
    Empty,
    /// It has one.
    One(Number),
    /// It has two: the old one and the new one of a `cas`, or those of an `ifeq` or a `waitfor`.
    Two(Number, Number),
}

/// The values of a call of a map.
fn map_numbers(call: &MapCall<Name>) -> Numbers
    ensures { map number_word (numbers_in result) ≡ map decimal (map_values call.now) }
{
    match call {
        MapCall::Store { value, .. }
        | MapCall::LoadOrStore { value, .. }
        | MapCall::Swap { value, .. } => Numbers::One(Number::Uint64(*value)),
        MapCall::CompareAndDelete { old, .. } => Numbers::One(Number::Uint64(*old)),
        MapCall::CompareAndSwap { old, new, .. } => {
            Numbers::Two(Number::Uint64(*old), Number::Uint64(*new))
        }
        MapCall::Load { .. }
        | MapCall::LoadAndDelete { .. }
        | MapCall::Delete { .. }
        | MapCall::Clear => Numbers::Empty,
    }
}

/// The numbers of a call of an atomic.
fn atomic_numbers(call: AtomicCall) -> Numbers
    ensures { numbers_in result ≡ atomic_numbers call }
{
    match call {
        AtomicCall::Load => Numbers::Empty,
        AtomicCall::Store { value } | AtomicCall::Swap { value } => Numbers::One(value),
        AtomicCall::Add { operand } | AtomicCall::And { operand } | AtomicCall::Or { operand } => {
            Numbers::One(operand)
        }
        AtomicCall::CompareAndSwap { old, new } => Numbers::Two(old, new),
    }
}

/// The amount of a call of a wait group.
fn group_numbers(call: WaitGroupCall) -> Numbers
    ensures { map number_word (numbers_in result) ≡ group_operands call }
{
    match call {
        WaitGroupCall::Add(delta) => Numbers::One(Number::Int32(delta)),
        WaitGroupCall::Done | WaitGroupCall::Wait => Numbers::Empty,
    }
}

/// The item of a call of a pool.
fn pool_numbers(call: PoolCall) -> Numbers
    ensures { map number_word (numbers_in result) ≡ pool_operands call }
{
    match call {
        PoolCall::Put(item) => Numbers::One(Number::Uint64(item)),
        PoolCall::Get | PoolCall::Sweep => Numbers::Empty,
    }
}

/// The weight of a call of a weighted semaphore.
fn sema_weight(call: SemaCall) -> u64
    ensures { result ≡ sema_weight call }
{
    match call {
        SemaCall::Acquire(weight) | SemaCall::TryAcquire(weight) | SemaCall::Release(weight) => {
            weight
        }
    }
}

/// The value that a call of a plain variable writes.
fn var_numbers(call: VarCall) -> Numbers
    ensures { map number_word (numbers_in result) ≡ var_operands call }
{
    match call {
        VarCall::Read => Numbers::Empty,
        VarCall::Write(value) => Numbers::One(Number::Uint64(value)),
    }
}

/// The value that an atomic is compared with, and how many calls are passed over or waits may be made; or the worker that is
/// started.
fn composed_numbers(call: ComposedCall) -> Numbers
    ensures { map number_word (numbers_in result) ≡ composed_operands call }
{
    match call {
        ComposedCall::IfEqual { value, passes } => Numbers::Two(value, Number::Uint32(passes)),
        ComposedCall::WaitFor { value, tries, .. } => Numbers::Two(value, Number::Uint32(tries)),
        ComposedCall::Go { worker } => Numbers::One(Number::Uint32(worker)),
    }
}

/// The operands of an operation: the key, and then the numbers.
pub fn operands_of(operation: &Operation) -> (Option<&Name>, Numbers)
    ensures { option_to_list (option_copied result.0) ++ map number_word (numbers_in result.1) ≡ operands_of operation.now }
{
    match operation {
        Operation::Map(call) => (call.key(), map_numbers(call)),
        Operation::Atomic(call) => (None, atomic_numbers(*call)),
        Operation::WaitGroup(call) => (None, group_numbers(*call)),
        Operation::Pool(call) => (None, pool_numbers(*call)),
        Operation::Sema(call) => (None, Numbers::One(Number::Uint64(sema_weight(*call)))),
        Operation::Fly(key) => (Some(key), Numbers::Empty),
        Operation::Var(call) => (None, var_numbers(*call)),
        Operation::Composed(call) => (None, composed_numbers(*call)),
        Operation::Range
        | Operation::Mutex(_)
        | Operation::RwMutex(_)
        | Operation::Cond(_)
        | Operation::Once
        | Operation::OnceFunc
        | Operation::OnceValue => (None, Numbers::Empty),
    }
}
