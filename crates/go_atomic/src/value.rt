//! The types of Go's atomics.
ghost use Rattle.std.specs.Prelude.{◌≡◌, true};
ghost use Rattle.sync_types.specs.declared.atomic_object.AtomicKind.{AtomicKind};
ghost use Rattle.sync_types.specs.declared.atomic_object.AtomicKind.TheVariants as kinds;
ghost use Rattle.sync_types.specs.declared.atomic_object.Number.{Number};
ghost use Rattle.sync_types.specs.declared.atomic_object.Number.TheVariants as numbers;
ghost use Rattle.sync_types.specs.SequentialAtomic.{has_bits, is_of};

use sync_types::{AtomicKind, Number};

/// A type of which there are atomics, with the number that each value is.
pub trait AtomicValue: Copy {
    ghost kind: { AtomicKind };

    ghost of: { Self → Number };

    /// The type's name.
    fn kind() -> AtomicKind
        ensures { result ≡ kind };

    /// The value as a number of its type.
    fn to_number(self) -> Number
        ensures number { result ≡ of self }
        ensures is_of { is_of kind result ≡ true };

    /// The value that a number of the type is.
    fn of_number(number: Number) -> Self
        requires { is_of kind number ≡ true }
        ensures { number ≡ of result };
}

impl AtomicValue for i32 {
    ghost kind = { kinds.Int32 };

    ghost of = { λ value. numbers.Int32 value };

    fn kind() -> AtomicKind {
        AtomicKind::Int32
    }

    fn to_number(self) -> Number {
        Number::Int32(self)
    }

    fn of_number(number: Number) -> Self {
        match number {
            Number::Int32(value) => value,
            _ => unreachable!(),
        }
    }
}

impl AtomicValue for i64 {
    ghost kind = { kinds.Int64 };

    ghost of = { λ value. numbers.Int64 value };

    fn kind() -> AtomicKind {
        AtomicKind::Int64
    }

    fn to_number(self) -> Number {
        Number::Int64(self)
    }

    fn of_number(number: Number) -> Self {
        match number {
            Number::Int64(value) => value,
            _ => unreachable!(),
        }
    }
}

impl AtomicValue for u32 {
    ghost kind = { kinds.Uint32 };

    ghost of = { λ value. numbers.Uint32 value };

    fn kind() -> AtomicKind {
        AtomicKind::Uint32
    }

    fn to_number(self) -> Number {
        Number::Uint32(self)
    }

    fn of_number(number: Number) -> Self {
        match number {
            Number::Uint32(value) => value,
            _ => unreachable!(),
        }
    }
}

impl AtomicValue for u64 {
    ghost kind = { kinds.Uint64 };

    ghost of = { λ value. numbers.Uint64 value };

    fn kind() -> AtomicKind {
        AtomicKind::Uint64
    }

    fn to_number(self) -> Number {
        Number::Uint64(self)
    }

    fn of_number(number: Number) -> Self {
        match number {
            Number::Uint64(value) => value,
            _ => unreachable!(),
        }
    }
}

impl AtomicValue for bool {
    ghost kind = { kinds.Bool };

    ghost of = { λ value. numbers.Bool value };

    fn kind() -> AtomicKind {
        AtomicKind::Bool
    }

    fn to_number(self) -> Number {
        Number::Bool(self)
    }

    fn of_number(number: Number) -> Self {
        match number {
            Number::Bool(value) => value,
            _ => unreachable!(),
        }
    }
}

/// A type whose atomics have `add`, `and` and `or`: all but `bool`.
pub trait AtomicBits: AtomicValue {
    /// The type has them.
    fn has_bits()
        ensures { has_bits Self.kind ≡ true };
}

impl AtomicBits for i32 {
    fn has_bits() {}
}

impl AtomicBits for i64 {
    fn has_bits() {}
}

impl AtomicBits for u32 {
    fn has_bits() {}
}

impl AtomicBits for u64 {
    fn has_bits() {}
}
