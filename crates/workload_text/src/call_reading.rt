//! The calls that the words of a line spell, by the kind of their object.
ghost use Rattle.std.specs.Prelude.{◌≡◌, ◌∷◌, [], ◌≤◌, true, map, MatchResult, None};
ghost use Rattle.std.specs.Fmt.{decimal, signed_decimal};
ghost use Rattle.sync_types.specs.Name.{is_name};
ghost use Rattle.sync_types.specs.SequentialAtomic.{has_bits, is_of};
ghost use Rattle.workload.specs.NumberWords.{is_passes, is_weight, number_word};
ghost use Rattle.workload.specs.Draft.{is_kind};
ghost use Rattle.workload.specs.Plan.{is_amount};
ghost use Rattle.workload.specs.Checks.{bits_form, sema_form, first_failing, form_words};
ghost use Rattle.sync_types.specs.declared.value.TheConstants.{MAX_VALUE};
ghost use Rattle.workload.specs.declared.limits.TheConstants.{MAX_SIZE};
ghost use Rattle.workload_text.specs.LineResult.{blank, IsFault, IsOperands, IsCall, IsCallBy, IsWait, IsStart, IsCallOn};

use crate::object_reading::read_atomic;
use crate::word_reading::{
    read_amount, read_name, read_none, read_number, read_passes, read_start, read_tries,
    read_value, read_weight,
};
use script_calls::{ComposedCall, Operation, VarCall};
use std::alloc::Global;
use sync_types::{
    AtomicCall, AtomicKind, CondCall, MAX_VALUE, MapCall, MutexCall, Name, Number, PoolCall,
    RwMutexCall, SemaCall, WaitGroupCall,
};
use workload::draft::Draft;
use workload::fault::LineFault;
use workload::keyword::{Operand, Verb};
use workload::laws::{checks_go_in_order, names_find_their_objects};
use workload::object::{ObjectKind, ObjectWord};
use workload::reason::Reason;

/// A call that has no operands. It is inlined so that the call isn't copied on its way.
#[inline(always)]
fn read_bare(call: Operation, words: &[&[u8]]) -> Result<Operation, LineFault>
    ensures { IsOperands (λ read. (read ≡ call) × (map (λ word. word.now) words.now ≡ [])) [] (map (λ word. word.now) words.now) result }
{
    read_none(words)?;
    Ok(call)
}

/// A key.
fn read_key(alloc: Global, words: &[&[u8]]) -> Result<Name, LineFault>
    ensures { IsOperands (λ key. (is_name key ≡ true) × (map (λ word. word.now) words.now ≡ key ∷ [])) (Operand.Key ∷ []) (map (λ word. word.now) words.now) result }
{
    let [key] = words else {
        return Err(LineFault::Refused(Reason::WrongNumberOfWords));
    };
    read_name(alloc, key)
}

/// A key and a value.
fn read_pair(alloc: Global, words: &[&[u8]]) -> Result<(Name, u64), LineFault>
    ensures { IsOperands (λ pair. (is_name pair.0 ≡ true) × (pair.1 ≤ MAX_VALUE) × (map (λ word. word.now) words.now ≡ pair.0 ∷ decimal pair.1 ∷ [])) (Operand.Key ∷ Operand.Value ∷ []) (map (λ word. word.now) words.now) result }
{
    let [key, value] = words else {
        return Err(LineFault::Refused(Reason::WrongNumberOfWords));
    };
    Ok((read_name(alloc, key)?, read_value(value)?))
}

/// A key, an old value and a new one.
fn read_exchange(alloc: Global, words: &[&[u8]]) -> Result<(Name, u64, u64), LineFault>
    ensures { IsOperands (λ all. (is_name all.0 ≡ true) × (all.1 ≤ MAX_VALUE) × (all.2 ≤ MAX_VALUE) × (map (λ word. word.now) words.now ≡ all.0 ∷ decimal all.1 ∷ decimal all.2 ∷ [])) (Operand.Key ∷ Operand.Value ∷ Operand.Value ∷ []) (map (λ word. word.now) words.now) result }
{
    checks_go_in_order();
    let [key, old, new] = words else {
        return Err(LineFault::Refused(Reason::WrongNumberOfWords));
    };
    Ok((read_name(alloc, key)?, read_value(old)?, read_value(new)?))
}

/// The item of a `put` or the value of a `write`, alone.
fn read_item(words: &[&[u8]]) -> Result<u64, LineFault>
    ensures { IsOperands (λ item. (item ≤ MAX_VALUE) × (map (λ word. word.now) words.now ≡ decimal item ∷ [])) (Operand.Value ∷ []) (map (λ word. word.now) words.now) result }
{
    let [item] = words else {
        return Err(LineFault::Refused(Reason::WrongNumberOfWords));
    };
    read_value(item)
}

/// A call of a map.
fn read_map_call(alloc: Global, verb: Verb, words: &[&[u8]]) -> Result<Operation, LineFault>
    ensures { IsCall ObjectWord.Map verb (map (λ word. word.now) words.now) result }
{
    match verb {
        Verb::Load => {
            let key = read_key(alloc, words)?;
            Ok(Operation::Map(MapCall::Load { key }))
        }
        Verb::Store => {
            let (key, value) = read_pair(alloc, words)?;
            Ok(Operation::Map(MapCall::Store { key, value }))
        }
        Verb::LoadOrStore => {
            let (key, value) = read_pair(alloc, words)?;
            Ok(Operation::Map(MapCall::LoadOrStore { key, value }))
        }
        Verb::LoadAndDelete => {
            let key = read_key(alloc, words)?;
            Ok(Operation::Map(MapCall::LoadAndDelete { key }))
        }
        Verb::Delete => {
            let key = read_key(alloc, words)?;
            Ok(Operation::Map(MapCall::Delete { key }))
        }
        Verb::Swap => {
            let (key, value) = read_pair(alloc, words)?;
            Ok(Operation::Map(MapCall::Swap { key, value }))
        }
        Verb::CompareAndSwap => {
            let (key, old, new) = read_exchange(alloc, words)?;
            Ok(Operation::Map(MapCall::CompareAndSwap { key, old, new }))
        }
        Verb::CompareAndDelete => {
            let (key, old) = read_pair(alloc, words)?;
            Ok(Operation::Map(MapCall::CompareAndDelete { key, old }))
        }
        Verb::Clear => read_bare(Operation::Map(MapCall::Clear), words),
        Verb::Range => read_bare(Operation::Range, words),
        _ => Err(LineFault::Refused(Reason::WrongKind)),
    }
}

/// A number of an atomic of this type, alone.
fn read_one_number(kind: AtomicKind, words: &[&[u8]]) -> Result<Number, LineFault>
    ensures { IsOperands (λ n. (is_of kind n ≡ true) × (map (λ word. word.now) words.now ≡ number_word n ∷ [])) (Operand.Number kind ∷ []) (map (λ word. word.now) words.now) result }
{
    let [number] = words else {
        return Err(LineFault::Refused(Reason::WrongNumberOfWords));
    };
    read_number(kind, number)
}

/// Two numbers of an atomic of this type.
fn read_two_numbers(kind: AtomicKind, words: &[&[u8]]) -> Result<(Number, Number), LineFault>
    ensures { IsOperands (λ pair. (is_of kind pair.0 ≡ true) × (is_of kind pair.1 ≡ true) × (map (λ word. word.now) words.now ≡ number_word pair.0 ∷ number_word pair.1 ∷ [])) (Operand.Number kind ∷ Operand.Number kind ∷ []) (map (λ word. word.now) words.now) result }
{
    checks_go_in_order();
    let [first, second] = words else {
        return Err(LineFault::Refused(Reason::WrongNumberOfWords));
    };
    Ok((read_number(kind, first)?, read_number(kind, second)?))
}

/// A number of an atomic of this type, and how many calls are passed over.
fn read_test(kind: AtomicKind, words: &[&[u8]]) -> Result<(Number, u32), LineFault>
    ensures { IsOperands (λ test. (is_of kind test.0 ≡ true) × (is_passes test.1 ≡ true) × (map (λ word. word.now) words.now ≡ number_word test.0 ∷ decimal test.1 ∷ [])) (Operand.Number kind ∷ Operand.Passes ∷ []) (map (λ word. word.now) words.now) result }
{
    checks_go_in_order();
    let [value, passes] = words else {
        return Err(LineFault::Refused(Reason::WrongNumberOfWords));
    };
    Ok((read_number(kind, value)?, read_passes(passes)?))
}

/// A number for `add`, `and` or `or`, which a bool hasn't.
fn read_bits(kind: AtomicKind, words: &[&[u8]]) -> Result<Number, LineFault>
    ensures { MatchResult result (λ n. (has_bits kind ≡ true) × (is_of kind n ≡ true) × (map (λ word. word.now) words.now ≡ number_word n ∷ []) × (first_failing (form_words blank (bits_form kind) (map (λ word. word.now) words.now)) ≡ None)) (IsFault (form_words blank (bits_form kind) (map (λ word. word.now) words.now))) }
{
    match kind {
        AtomicKind::Bool => Err(LineFault::Refused(Reason::WrongKind)),
        _ => read_one_number(kind, words),
    }
}

/// A call of an atomic of this type.
fn read_atomic_call(kind: AtomicKind, verb: Verb, words: &[&[u8]]) -> Result<Operation, LineFault>
    ensures { IsCall (ObjectWord.Atomic kind) verb (map (λ word. word.now) words.now) result }
{
    match verb {
        Verb::Load => read_bare(Operation::Atomic(AtomicCall::Load), words),
        Verb::Store => Ok(Operation::Atomic(AtomicCall::Store {
            value: read_one_number(kind, words)?,
        })),
        Verb::Swap => Ok(Operation::Atomic(AtomicCall::Swap {
            value: read_one_number(kind, words)?,
        })),
        Verb::Add => Ok(Operation::Atomic(AtomicCall::Add {
            operand: read_bits(kind, words)?,
        })),
        Verb::And => Ok(Operation::Atomic(AtomicCall::And {
            operand: read_bits(kind, words)?,
        })),
        Verb::Or => Ok(Operation::Atomic(AtomicCall::Or {
            operand: read_bits(kind, words)?,
        })),
        Verb::CompareAndSwap => {
            let (old, new) = read_two_numbers(kind, words)?;
            Ok(Operation::Atomic(AtomicCall::CompareAndSwap { old, new }))
        }
        Verb::IfEqual => {
            let (value, passes) = read_test(kind, words)?;
            Ok(Operation::Composed(ComposedCall::IfEqual { value, passes }))
        }
        _ => Err(LineFault::Refused(Reason::WrongKind)),
    }
}

/// A call of a reader/writer mutex.
fn read_rw_mutex_call(verb: Verb, words: &[&[u8]]) -> Result<Operation, LineFault>
    ensures { IsCall ObjectWord.RwMutex verb (map (λ word. word.now) words.now) result }
{
    match verb {
        Verb::Lock => read_bare(Operation::RwMutex(RwMutexCall::Lock), words),
        Verb::Unlock => read_bare(Operation::RwMutex(RwMutexCall::Unlock), words),
        Verb::TryLock => read_bare(Operation::RwMutex(RwMutexCall::TryLock), words),
        Verb::RLock => read_bare(Operation::RwMutex(RwMutexCall::RLock), words),
        Verb::RUnlock => read_bare(Operation::RwMutex(RwMutexCall::RUnlock), words),
        Verb::TryRLock => read_bare(Operation::RwMutex(RwMutexCall::TryRLock), words),
        _ => Err(LineFault::Refused(Reason::WrongKind)),
    }
}

/// The amount of an `add`, alone.
fn read_one_amount(words: &[&[u8]]) -> Result<i32, LineFault>
    ensures { IsOperands (λ amount. (is_amount amount ≡ true) × (map (λ word. word.now) words.now ≡ signed_decimal amount ∷ [])) (Operand.Amount ∷ []) (map (λ word. word.now) words.now) result }
{
    let [amount] = words else {
        return Err(LineFault::Refused(Reason::WrongNumberOfWords));
    };
    read_amount(amount)
}

/// A call of a wait group.
fn read_group_call(verb: Verb, words: &[&[u8]]) -> Result<Operation, LineFault>
    ensures { IsCall ObjectWord.WaitGroup verb (map (λ word. word.now) words.now) result }
{
    match verb {
        Verb::Add => {
            let delta = read_one_amount(words)?;
            Ok(Operation::WaitGroup(WaitGroupCall::Add(delta)))
        }
        Verb::Done => read_bare(Operation::WaitGroup(WaitGroupCall::Done), words),
        Verb::Wait => read_bare(Operation::WaitGroup(WaitGroupCall::Wait), words),
        _ => Err(LineFault::Refused(Reason::WrongKind)),
    }
}

/// A call of a pool.
fn read_pool_call(verb: Verb, words: &[&[u8]]) -> Result<Operation, LineFault>
    ensures { IsCall ObjectWord.Pool verb (map (λ word. word.now) words.now) result }
{
    match verb {
        Verb::Put => Ok(Operation::Pool(PoolCall::Put(read_item(words)?))),
        Verb::Get => read_bare(Operation::Pool(PoolCall::Get), words),
        Verb::Sweep => read_bare(Operation::Pool(PoolCall::Sweep), words),
        _ => Err(LineFault::Refused(Reason::WrongKind)),
    }
}

/// A weight of 1 to a semaphore's size, alone.
fn read_one_weight(size: u64, words: &[&[u8]]) -> Result<u64, LineFault>
    requires { size ≤ MAX_SIZE }
    ensures { IsOperands (λ weight. (is_weight size weight ≡ true) × (is_weight MAX_SIZE weight ≡ true) × (map (λ word. word.now) words.now ≡ decimal weight ∷ [])) (Operand.Weight size ∷ []) (map (λ word. word.now) words.now) result }
{
    let [weight] = words else {
        return Err(LineFault::Refused(Reason::WrongNumberOfWords));
    };
    read_weight(size, weight)
}

/// A call of a weighted semaphore of this size.
fn read_sema_call(size: u64, verb: Verb, words: &[&[u8]]) -> Result<Operation, LineFault>
    requires { size ≤ MAX_SIZE }
    ensures { IsCallBy (ObjectKind.Sema size) verb (map (λ word. word.now) words.now) result }
{
    match verb {
        Verb::Acquire => {
            let weight = read_one_weight(size, words)?;
            Ok(Operation::Sema(SemaCall::Acquire(weight)))
        }
        Verb::TryAcquire => {
            let weight = read_one_weight(size, words)?;
            Ok(Operation::Sema(SemaCall::TryAcquire(weight)))
        }
        Verb::Release => {
            let weight = read_one_weight(size, words)?;
            Ok(Operation::Sema(SemaCall::Release(weight)))
        }
        _ => Err(LineFault::Refused(Reason::WrongKind)),
    }
}

/// A call of a group of flights.
fn read_flight_call(alloc: Global, verb: Verb, words: &[&[u8]]) -> Result<Operation, LineFault>
    ensures { IsCall ObjectWord.Flight verb (map (λ word. word.now) words.now) result }
{
    match verb {
        Verb::Fly => {
            let key = read_key(alloc, words)?;
            Ok(Operation::Fly(key))
        }
        _ => Err(LineFault::Refused(Reason::WrongKind)),
    }
}

/// A call of a plain variable.
fn read_var_call(verb: Verb, words: &[&[u8]]) -> Result<Operation, LineFault>
    ensures { IsCall ObjectWord.Var verb (map (λ word. word.now) words.now) result }
{
    match verb {
        Verb::Read => read_bare(Operation::Var(VarCall::Read), words),
        Verb::Write => Ok(Operation::Var(VarCall::Write(read_item(words)?))),
        _ => Err(LineFault::Refused(Reason::WrongKind)),
    }
}

/// A call on an object of this kind, but for a `waitfor` and a `go`.
fn read_operation(
    alloc: Global,
    kind: ObjectKind,
    verb: Verb,
    words: &[&[u8]],
) -> Result<Operation, LineFault>
    requires { is_kind kind ≡ true }
    ensures { IsCallBy kind verb (map (λ word. word.now) words.now) result }
{
    match kind {
        ObjectKind::Map => read_map_call(alloc, verb, words),
        ObjectKind::Atomic(kind) => read_atomic_call(kind, verb, words),
        ObjectKind::Mutex => match verb {
            Verb::Lock => read_bare(Operation::Mutex(MutexCall::Lock), words),
            Verb::Unlock => read_bare(Operation::Mutex(MutexCall::Unlock), words),
            Verb::TryLock => read_bare(Operation::Mutex(MutexCall::TryLock), words),
            _ => Err(LineFault::Refused(Reason::WrongKind)),
        },
        ObjectKind::RwMutex => read_rw_mutex_call(verb, words),
        ObjectKind::Cond { .. } => match verb {
            Verb::Wait => read_bare(Operation::Cond(CondCall::Wait), words),
            Verb::Signal => read_bare(Operation::Cond(CondCall::Signal), words),
            Verb::Broadcast => read_bare(Operation::Cond(CondCall::Broadcast), words),
            _ => Err(LineFault::Refused(Reason::WrongKind)),
        },
        ObjectKind::WaitGroup { .. } => read_group_call(verb, words),
        ObjectKind::Once { .. } => match verb {
            Verb::Do => read_bare(Operation::Once, words),
            _ => Err(LineFault::Refused(Reason::WrongKind)),
        },
        ObjectKind::OnceFunc { .. } => match verb {
            Verb::Call => read_bare(Operation::OnceFunc, words),
            _ => Err(LineFault::Refused(Reason::WrongKind)),
        },
        ObjectKind::OnceValue { .. } => match verb {
            Verb::Value => read_bare(Operation::OnceValue, words),
            _ => Err(LineFault::Refused(Reason::WrongKind)),
        },
        ObjectKind::Pool => read_pool_call(verb, words),
        ObjectKind::Sema { size } => read_sema_call(size, verb, words),
        ObjectKind::Flight { .. } => read_flight_call(alloc, verb, words),
        ObjectKind::Var => read_var_call(verb, words),
    }
}

/// The name of an atomic, a value of its type, and how many waits may be made.
fn read_wait(alloc: Global, draft: &Draft, words: &[&[u8]]) -> Result<(Name, Operation), LineFault>
    ensures { IsWait draft.now (map (λ word. word.now) words.now) result }
{
    checks_go_in_order();
    names_find_their_objects();
    let [atomic, value, tries] = words else {
        return Err(LineFault::Refused(Reason::WrongNumberOfWords));
    };
    let (name, atomic, kind) = read_atomic(alloc, draft, atomic)?;
    let value = read_number(kind, value)?;
    let tries = read_tries(tries)?;
    Ok((
        name,
        Operation::Composed(ComposedCall::WaitFor {
            atomic,
            value,
            tries,
        }),
    ))
}

/// A `waitfor` on an object of this kind, with the name of its atomic.
fn read_wait_for(
    alloc: Global,
    draft: &Draft,
    kind: ObjectKind,
    words: &[&[u8]],
) -> Result<(Option<Name>, Operation), LineFault>
    ensures { IsCallOn draft.now kind Verb.WaitFor (map (λ word. word.now) words.now) result }
{
    match kind {
        ObjectKind::Cond { .. } => {
            let (atomic, call) = read_wait(alloc, draft, words)?;
            Ok((Some(atomic), call))
        }
        _ => Err(LineFault::Refused(Reason::WrongKind)),
    }
}

/// The `go` of a worker that waits to be started.
fn read_started(draft: &Draft, words: &[&[u8]]) -> Result<Operation, LineFault>
    ensures { IsStart draft.now (map (λ word. word.now) words.now) result }
{
    let [worker] = words else {
        return Err(LineFault::Refused(Reason::WrongNumberOfWords));
    };
    let worker = read_start(draft, worker)?;
    Ok(Operation::Composed(ComposedCall::Go { worker }))
}

/// A `go` on an object of this kind.
fn read_go(
    draft: &Draft,
    kind: ObjectKind,
    words: &[&[u8]],
) -> Result<(Option<Name>, Operation), LineFault>
    ensures { IsCallOn draft.now kind Verb.Go (map (λ word. word.now) words.now) result }
{
    match kind {
        ObjectKind::WaitGroup { .. } => Ok((None, read_started(draft, words)?)),
        _ => Err(LineFault::Refused(Reason::WrongKind)),
    }
}

/// A call on an object of this kind, with the name of a second object, if it names one.
pub fn read_call_on(
    alloc: Global,
    draft: &Draft,
    kind: ObjectKind,
    verb: Verb,
    words: &[&[u8]],
) -> Result<(Option<Name>, Operation), LineFault>
    requires { is_kind kind ≡ true }
    ensures { IsCallOn draft.now kind verb (map (λ word. word.now) words.now) result }
{
    match verb {
        Verb::WaitFor => read_wait_for(alloc, draft, kind, words),
        Verb::Go => read_go(draft, kind, words),
        _ => Ok((None, read_operation(alloc, kind, verb, words)?)),
    }
}
