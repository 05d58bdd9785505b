//! Which call an operation is, and which objects it names beside its own.
ghost use Rattle.std.specs.Prelude.{◌≡◌};
ghost use Rattle.workload.specs.CallWords.{map_verb, atomic_verb, mutex_verb, rw_mutex_verb, cond_verb, group_verb, pool_verb, sema_verb, var_verb, composed_verb, verb_of};
ghost use Rattle.workload.specs.Plan.{second_of};

use script_calls::{ComposedCall, Operation, VarCall};
use sync_types::{
    AtomicCall, CondCall, MapCall, MutexCall, Name, PoolCall, RwMutexCall, SemaCall, WaitGroupCall,
};
use workload::keyword::Verb;

/// Which call of a map it is.
pub fn map_verb(call: &MapCall<Name>) -> Verb
    ensures { result ≡ map_verb call.now }
{
    match call {
        MapCall::Load { .. } => Verb::Load,
        MapCall::Store { .. } => Verb::Store,
        MapCall::LoadOrStore { .. } => Verb::LoadOrStore,
        MapCall::LoadAndDelete { .. } => Verb::LoadAndDelete,
        MapCall::Delete { .. } => Verb::Delete,
        MapCall::Swap { .. } => Verb::Swap,
        MapCall::CompareAndSwap { .. } => Verb::CompareAndSwap,
        MapCall::CompareAndDelete { .. } => Verb::CompareAndDelete,
        MapCall::Clear => Verb::Clear,
    }
}

/// Which call of an atomic it is.
pub fn atomic_verb(call: AtomicCall) -> Verb
    ensures { result ≡ atomic_verb call }
{
    match call {
        AtomicCall::Load => Verb::Load,
        AtomicCall::Store { .. } => Verb::Store,
        AtomicCall::Swap { .. } => Verb::Swap,
        AtomicCall::Add { .. } => Verb::Add,
        AtomicCall::And { .. } => Verb::And,
        AtomicCall::Or { .. } => Verb::Or,
        AtomicCall::CompareAndSwap { .. } => Verb::CompareAndSwap,
    }
}

/// Which call of a mutex it is.
pub fn mutex_verb(call: MutexCall) -> Verb
    ensures { result ≡ mutex_verb call }
{
    match call {
        MutexCall::Lock => Verb::Lock,
        MutexCall::Unlock => Verb::Unlock,
        MutexCall::TryLock => Verb::TryLock,
    }
}

/// Which call of a reader/writer mutex it is.
pub fn rw_mutex_verb(call: RwMutexCall) -> Verb
    ensures { result ≡ rw_mutex_verb call }
{
    match call {
        RwMutexCall::Lock => Verb::Lock,
        RwMutexCall::Unlock => Verb::Unlock,
        RwMutexCall::TryLock => Verb::TryLock,
        RwMutexCall::RLock => Verb::RLock,
        RwMutexCall::RUnlock => Verb::RUnlock,
        RwMutexCall::TryRLock => Verb::TryRLock,
    }
}

/// Which call of a cond it is.
pub fn cond_verb(call: CondCall) -> Verb
    ensures { result ≡ cond_verb call }
{
    match call {
        CondCall::Wait => Verb::Wait,
        CondCall::Signal => Verb::Signal,
        CondCall::Broadcast => Verb::Broadcast,
    }
}

/// Which call of a wait group it is.
pub fn group_verb(call: WaitGroupCall) -> Verb
    ensures { result ≡ group_verb call }
{
    match call {
        WaitGroupCall::Add(_) => Verb::Add,
        WaitGroupCall::Done => Verb::Done,
        WaitGroupCall::Wait => Verb::Wait,
    }
}

/// Which call of a pool it is.
pub fn pool_verb(call: PoolCall) -> Verb
    ensures { result ≡ pool_verb call }
{
    match call {
        PoolCall::Put(_) => Verb::Put,
        PoolCall::Get => Verb::Get,
        PoolCall::Sweep => Verb::Sweep,
    }
}

/// Which call of a weighted semaphore it is.
pub fn sema_verb(call: SemaCall) -> Verb
    ensures { result ≡ sema_verb call }
{
    match call {
        SemaCall::Acquire(_) => Verb::Acquire,
        SemaCall::TryAcquire(_) => Verb::TryAcquire,
        SemaCall::Release(_) => Verb::Release,
    }
}

/// Which call of a plain variable it is.
pub fn var_verb(call: VarCall) -> Verb
    ensures { result ≡ var_verb call }
{
    match call {
        VarCall::Read => Verb::Read,
        VarCall::Write(_) => Verb::Write,
    }
}

/// Which of the calls that are made of others it is.
pub fn composed_verb(call: ComposedCall) -> Verb
    ensures { result ≡ composed_verb call }
{
    match call {
        ComposedCall::IfEqual { .. } => Verb::IfEqual,
        ComposedCall::WaitFor { .. } => Verb::WaitFor,
        ComposedCall::Go { .. } => Verb::Go,
    }
}

/// Which call an operation is.
pub fn verb(operation: &Operation) -> Verb
    ensures { result ≡ verb_of operation.now }
{
    match operation {
        Operation::Map(call) => map_verb(call),
        Operation::Range => Verb::Range,
        Operation::Atomic(call) => atomic_verb(*call),
        Operation::Mutex(call) => mutex_verb(*call),
        Operation::RwMutex(call) => rw_mutex_verb(*call),
        Operation::Cond(call) => cond_verb(*call),
        Operation::WaitGroup(call) => group_verb(*call),
        Operation::Once => Verb::Do,
        Operation::OnceFunc => Verb::Call,
        Operation::OnceValue => Verb::Value,
        Operation::Pool(call) => pool_verb(*call),
        Operation::Sema(call) => sema_verb(*call),
        Operation::Fly(_) => Verb::Fly,
        Operation::Var(call) => var_verb(*call),
        Operation::Composed(call) => composed_verb(*call),
    }
}

/// The place of a second object that an operation names: the atomic that a `waitfor` loads.
pub fn second(operation: &Operation) -> Option<usize>
    ensures { result ≡ second_of operation.now }
{
    match operation {
        Operation::Composed(ComposedCall::WaitFor { atomic, .. }) => Some(*atomic),
        _ => None,
    }
}
