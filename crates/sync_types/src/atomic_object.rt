//! The typed atomics of `sync/atomic` for one thread: their numbers, calls, replies, and what each call does.
ghost use Rattle.std.specs.Prelude.{◌≡◌, true};
ghost use Rattle.sync_types.specs.SequentialAtomic.{kind_of, zero_of, sum, bits_of_both, bits_of_either, is_same, is_atomic_call, atomic_reply, atomic_after};

/// The type of an atomic: `atomic.Int32`, `Int64`, `Uint32`, `Uint64` or `Bool`.
#[derive(Clone, Copy, Debug, PartialEq, Eq)]
pub enum AtomicKind {
    Int32,
    Int64,
    Uint32,
    Uint64,
    Bool,
}

/// What an atomic holds: a number of its type, or a truth value.
#[derive(Clone, Copy, Debug, PartialEq, Eq)]
pub enum Number {
    Int32(i32),
    Int64(i64),
    Uint32(u32),
    Uint64(u64),
    Bool(bool),
}

/// A call of an atomic. A number in it is of the atomic's type. A `Bool` has no `Add`, `And` and `Or`.
#[derive(Clone, Copy, Debug, PartialEq, Eq)]
pub enum AtomicCall {
    /// What the atomic holds.
    Load,
    /// Sets it.
    Store { value: Number },
    /// Sets it, and answers what it held before.
    Swap { value: Number },
    /// Adds to it, wrapping at the ends of the type's range, and answers the sum.
    Add { operand: Number },
    /// Keeps the bits that the operand has too, and answers what it held before.
    And { operand: Number },
    /// Adds the bits that the operand has, and answers what it held before.
    Or { operand: Number },
    /// Sets it to `new` where it holds `old`.
    CompareAndSwap { old: Number, new: Number },
}

/// What a call of an atomic answers.
#[derive(Clone, Copy, Debug, PartialEq, Eq)]
pub enum AtomicReply {
    /// The call is done, and says nothing more.
    Done,
    /// A number of the atomic's type.
    Held(Number),
    /// Whether the atomic held the old number, so that it was set.
    Compared(bool),
}

impl AtomicKind {
    /// What an atomic holds at the start: 0, or false.
    pub fn zero(self) -> Number
        ensures { result ≡ zero_of self }
    {
        match self {
            AtomicKind::Int32 => Number::Int32(0),
            AtomicKind::Int64 => Number::Int64(0),
            AtomicKind::Uint32 => Number::Uint32(0),
            AtomicKind::Uint64 => Number::Uint64(0),
            AtomicKind::Bool => Number::Bool(false),
        }
    }
}

impl Number {
    /// The type that it is a number of.
    pub fn kind(self) -> AtomicKind
        ensures { result ≡ kind_of self }
    {
        match self {
            Number::Int32(_) => AtomicKind::Int32,
            Number::Int64(_) => AtomicKind::Int64,
            Number::Uint32(_) => AtomicKind::Uint32,
            Number::Uint64(_) => AtomicKind::Uint64,
            Number::Bool(_) => AtomicKind::Bool,
        }
    }
}

/// The sum of two numbers of one type, which wraps at the ends of its range. Else the first.
fn sum(number: Number, operand: Number) -> Number
    ensures { result ≡ sum number operand }
{
    match (number, operand) {
        (Number::Int32(a), Number::Int32(b)) => Number::Int32(a.wrapping_add(b)),
        (Number::Int64(a), Number::Int64(b)) => Number::Int64(a.wrapping_add(b)),
        (Number::Uint32(a), Number::Uint32(b)) => Number::Uint32(a.wrapping_add(b)),
        (Number::Uint64(a), Number::Uint64(b)) => Number::Uint64(a.wrapping_add(b)),
        _ => number,
    }
}

/// The bits that two numbers of one type have both, in two's complement. Else the first.
fn bits_of_both(number: Number, operand: Number) -> Number
    ensures { result ≡ bits_of_both number operand }
{
    match (number, operand) {
        (Number::Int32(a), Number::Int32(b)) => Number::Int32(a & b),
        (Number::Int64(a), Number::Int64(b)) => Number::Int64(a & b),
        (Number::Uint32(a), Number::Uint32(b)) => Number::Uint32(a & b),
        (Number::Uint64(a), Number::Uint64(b)) => Number::Uint64(a & b),
        _ => number,
    }
}

/// The bits that one of two numbers of one type has, in two's complement. Else the first.
fn bits_of_either(number: Number, operand: Number) -> Number
    ensures { result ≡ bits_of_either number operand }
{
    match (number, operand) {
        (Number::Int32(a), Number::Int32(b)) => Number::Int32(a | b),
        (Number::Int64(a), Number::Int64(b)) => Number::Int64(a | b),
        (Number::Uint32(a), Number::Uint32(b)) => Number::Uint32(a | b),
        (Number::Uint64(a), Number::Uint64(b)) => Number::Uint64(a | b),
        _ => number,
    }
}

/// Whether two numbers are of one type and equal.
fn is_same(number: Number, other: Number) -> bool
    ensures { result ≡ is_same number other }
{
    match (number, other) {
        (Number::Int32(a), Number::Int32(b)) => a == b,
        (Number::Int64(a), Number::Int64(b)) => a == b,
        (Number::Uint32(a), Number::Uint32(b)) => a == b,
        (Number::Uint64(a), Number::Uint64(b)) => a == b,
        (Number::Bool(a), Number::Bool(b)) => a == b,
        _ => false,
    }
}

/// Makes a call on an atomic that one thread has.
pub fn apply(number: &mut Number, call: AtomicCall) -> AtomicReply
    requires { is_atomic_call (kind_of number.old) call ≡ true }
    ensures reply { result ≡ atomic_reply call number.old }
    ensures after { number.new ≡ atomic_after call number.old }
{
    let before = *number;
    match call {
        AtomicCall::Load => AtomicReply::Held(before),
        AtomicCall::Store { value } => {
            *number = value;
            AtomicReply::Done
        }
        AtomicCall::Swap { value } => {
            *number = value;
            AtomicReply::Held(before)
        }
        AtomicCall::Add { operand } => {
            *number = sum(before, operand);
            AtomicReply::Held(*number)
        }
        AtomicCall::And { operand } => {
            *number = bits_of_both(before, operand);
            AtomicReply::Held(before)
        }
        AtomicCall::Or { operand } => {
            *number = bits_of_either(before, operand);
            AtomicReply::Held(before)
        }
        AtomicCall::CompareAndSwap { old, new } => {
            let is_old = is_same(before, old);
            if is_old {
                *number = new;
            }
            AtomicReply::Compared(is_old)
        }
    }
}
