//! What an atomic does for its users.
ghost use Rattle.std.specs.Prelude.{◌≡◌, ◌≢◌, ℕ, ◌+◌, ◌-◌, ◌^◌, ◌<◌, ◌≤◌, ℤ, ◌+ℤ◌, true, false};
ghost use Rattle.sync_types.specs.SequentialAtomic.{atomic_reply, atomic_after, is_atomic_call, is_atomic_entry, is_of, zero_of, has_bits, sum};

use crate::atomic_object::{AtomicCall, AtomicKind, AtomicReply, Number};

/// A load finds what was stored last: by a store or a swap, and by a compare-and-swap that answered true. After an add it
/// finds the sum that the add answered.
pub fn load_finds_what_was_stored()
    ensures store { (held value : Number)
        → atomic_reply AtomicCall.Load (atomic_after (AtomicCall.Store value) held) ≡ AtomicReply.Held value }
    ensures swap { (held value : Number)
        → atomic_reply AtomicCall.Load (atomic_after (AtomicCall.Swap value) held) ≡ AtomicReply.Held value }
    ensures compare_and_swap { (held old new : Number)
        → atomic_reply (AtomicCall.CompareAndSwap old new) held ≡ AtomicReply.Compared true
        → atomic_reply AtomicCall.Load (atomic_after (AtomicCall.CompareAndSwap old new) held) ≡ AtomicReply.Held new }
    ensures add { (held operand : Number)
        → atomic_reply AtomicCall.Load (atomic_after (AtomicCall.Add operand) held) ≡ atomic_reply (AtomicCall.Add operand) held }
{}

/// A swap, an and and an or answer what a load would have found before them.
pub fn calls_answer_the_number_before()
    ensures swap { (held value : Number)
        → atomic_reply (AtomicCall.Swap value) held ≡ atomic_reply AtomicCall.Load held }
    ensures and { (held operand : Number)
        → atomic_reply (AtomicCall.And operand) held ≡ atomic_reply AtomicCall.Load held }
    ensures or { (held operand : Number)
        → atomic_reply (AtomicCall.Or operand) held ≡ atomic_reply AtomicCall.Load held }
{}

/// A call that is no entry of the shared history changes nothing.
pub fn only_entries_change()
    ensures { (call : AtomicCall) (held : Number) → is_atomic_entry call held ≡ false → atomic_after call held ≡ held }
{}

/// Which calls are entries: a load never, and a store, a swap, an add, an and and an or always, also where they leave the
/// number as it was. A compare-and-swap is one where it answered true.
pub fn entries_are_seen()
    ensures load { (held : Number) → is_atomic_entry AtomicCall.Load held ≡ false }
    ensures store { (held value : Number) → is_atomic_entry (AtomicCall.Store value) held ≡ true }
    ensures swap { (held value : Number) → is_atomic_entry (AtomicCall.Swap value) held ≡ true }
    ensures add { (held operand : Number) → is_atomic_entry (AtomicCall.Add operand) held ≡ true }
    ensures and { (held operand : Number) → is_atomic_entry (AtomicCall.And operand) held ≡ true }
    ensures or { (held operand : Number) → is_atomic_entry (AtomicCall.Or operand) held ≡ true }
    ensures compare_and_swap { (held old new : Number)
        → atomic_reply (AtomicCall.CompareAndSwap old new) held
        ≡ AtomicReply.Compared (is_atomic_entry (AtomicCall.CompareAndSwap old new) held) }
{}

/// A compare-and-swap sets the atomic exactly where it holds the old number.
pub fn compare_and_swap_sets_over_the_old_number()
    ensures held { (held new : Number)
        → (atomic_reply (AtomicCall.CompareAndSwap held new) held ≡ AtomicReply.Compared true)
        × (atomic_after (AtomicCall.CompareAndSwap held new) held ≡ new) }
    ensures another { (held old new : Number) → held ≢ old
        → (atomic_reply (AtomicCall.CompareAndSwap old new) held ≡ AtomicReply.Compared false)
        × (atomic_after (AtomicCall.CompareAndSwap old new) held ≡ held) }
{}

/// A `Bool` has no add, and and or. Those aside, an atomic has every call whose numbers are of its type, and no other.
pub fn each_type_has_its_calls()
    ensures truth { (operand : Number)
        → (is_atomic_call AtomicKind.Bool (AtomicCall.Add operand) ≡ false)
        × (is_atomic_call AtomicKind.Bool (AtomicCall.And operand) ≡ false)
        × (is_atomic_call AtomicKind.Bool (AtomicCall.Or operand) ≡ false) }
    ensures integer { (kind : AtomicKind) (operand : Number) → kind ≢ AtomicKind.Bool → is_of kind operand ≡ true
        → (is_atomic_call kind (AtomicCall.Add operand) ≡ true)
        × (is_atomic_call kind (AtomicCall.And operand) ≡ true)
        × (is_atomic_call kind (AtomicCall.Or operand) ≡ true) }
    ensures every { (kind : AtomicKind) (old new : Number) → is_of kind old ≡ true → is_of kind new ≡ true
        → (is_atomic_call kind AtomicCall.Load ≡ true)
        × (is_atomic_call kind (AtomicCall.Store new) ≡ true)
        × (is_atomic_call kind (AtomicCall.Swap new) ≡ true)
        × (is_atomic_call kind (AtomicCall.CompareAndSwap old new) ≡ true) }
    ensures only { (kind : AtomicKind) (other number : Number) → is_of kind other ≡ false
        → (is_atomic_call kind (AtomicCall.Store other) ≡ false)
        × (is_atomic_call kind (AtomicCall.Swap other) ≡ false)
        × (is_atomic_call kind (AtomicCall.Add other) ≡ false)
        × (is_atomic_call kind (AtomicCall.And other) ≡ false)
        × (is_atomic_call kind (AtomicCall.Or other) ≡ false)
        × (is_atomic_call kind (AtomicCall.CompareAndSwap other number) ≡ false)
        × (is_atomic_call kind (AtomicCall.CompareAndSwap number other) ≡ false) }
{}

/// An atomic starts with a number of its type, holds one after each of its calls, and answers no other.
pub fn calls_keep_the_type()
    ensures start { (kind : AtomicKind) → is_of kind (zero_of kind) ≡ true }
    ensures after { (kind : AtomicKind) (call : AtomicCall) (held : Number)
        → is_of kind held ≡ true → is_atomic_call kind call ≡ true
        → is_of kind (atomic_after call held) ≡ true }
    ensures reply { (kind : AtomicKind) (call : AtomicCall) (held number : Number)
        → is_of kind held ≡ true → is_atomic_call kind call ≡ true
        → atomic_reply call held ≡ AtomicReply.Held number
        → is_of kind number ≡ true }
{}

/// Where the exact sum of two numbers of a type is in the type's range, it is what an add makes of them.
pub fn sums_in_range_are_exact()
    ensures int32 { (a b : ℤ) → is_of AtomicKind.Int32 (Number.Int32 a) ≡ true → is_of AtomicKind.Int32 (Number.Int32 b) ≡ true
        → is_of AtomicKind.Int32 (Number.Int32 (a +ℤ b)) ≡ true
        → sum (Number.Int32 a) (Number.Int32 b) ≡ Number.Int32 (a +ℤ b) }
    ensures int64 { (a b : ℤ) → is_of AtomicKind.Int64 (Number.Int64 a) ≡ true → is_of AtomicKind.Int64 (Number.Int64 b) ≡ true
        → is_of AtomicKind.Int64 (Number.Int64 (a +ℤ b)) ≡ true
        → sum (Number.Int64 a) (Number.Int64 b) ≡ Number.Int64 (a +ℤ b) }
    ensures uint32 { (a b : ℕ)
        → is_of AtomicKind.Uint32 (Number.Uint32 (a + b)) ≡ true
        → sum (Number.Uint32 a) (Number.Uint32 b) ≡ Number.Uint32 (a + b) }
    ensures uint64 { (a b : ℕ)
        → is_of AtomicKind.Uint64 (Number.Uint64 (a + b)) ≡ true
        → sum (Number.Uint64 a) (Number.Uint64 b) ≡ Number.Uint64 (a + b) }
{}

/// Where the exact sum of two unsigned numbers is past the end of their type, an add goes on from 0.
pub fn sums_past_the_end_go_on_from_0()
    ensures uint32 { (a b : ℕ) → a < 2 ^ 32 → b < 2 ^ 32 → 2 ^ 32 ≤ a + b
        → sum (Number.Uint32 a) (Number.Uint32 b) ≡ Number.Uint32 (a + b - 2 ^ 32) }
    ensures uint64 { (a b : ℕ) → a < 2 ^ 64 → b < 2 ^ 64 → 2 ^ 64 ≤ a + b
        → sum (Number.Uint64 a) (Number.Uint64 b) ≡ Number.Uint64 (a + b - 2 ^ 64) }
{}

/// An and with 0 leaves no bit, and an or with 0 leaves every bit.
pub fn an_and_with_0_clears()
    ensures and { (kind : AtomicKind) (held : Number) → has_bits kind ≡ true → is_of kind held ≡ true
        → atomic_after (AtomicCall.And (zero_of kind)) held ≡ zero_of kind }
    ensures or { (kind : AtomicKind) (held : Number) → has_bits kind ≡ true → is_of kind held ≡ true
        → atomic_after (AtomicCall.Or (zero_of kind)) held ≡ held }
{}
