//! Typed atomics, as `sync/atomic` has them.
ghost use Rattle.std.specs.Prelude.{◌≡◌, Bool as Truth, Some, slice_get};
ghost use Rattle.sync_types.specs.declared.atomic_object.Number.{Number};
ghost use Rattle.sync_model.specs.Shared.{IsCallerAt};
ghost use Rattle.shared_table.specs.Notes.{own_by, IsNoteOf};
ghost use Rattle.shared_table.specs.Tables.{kinds_of};
ghost use Rattle.go_atomic.specs.Typed.{MakesCall};

use crate::call::atomic_call;
use crate::value::{AtomicBits, AtomicValue};
use shared_table::{SharedNote, SharedTable};
use std::marker::PhantomData;
use sync_model::Caller;
use sync_types::{AtomicCall, AtomicReply, Number};

/// One atomic of a shared table. Each call is one atomic step on the atomic's word, where the call is placed in the history:
/// all atomic operations are as in one sequentially consistent order, and what a call observes synchronizes before it. No
/// call waits, is refused or takes memory.
#[derive(Drop)]
pub struct Atomic<'a, V: AtomicValue> {
    pub table: &'a SharedTable,
    pub number: u32,
    value: PhantomData<V>,
    pub ghost is: { slice_get (kinds_of table.now) number ≡ Some V.kind },
}

/// `atomic.Int32`.
pub type Int32<'a> = Atomic<'a, i32>;

/// `atomic.Int64`.
pub type Int64<'a> = Atomic<'a, i64>;

/// `atomic.Uint32`.
pub type Uint32<'a> = Atomic<'a, u32>;

/// `atomic.Uint64`.
pub type Uint64<'a> = Atomic<'a, u64>;

/// `atomic.Bool`.
pub type Bool<'a> = Atomic<'a, bool>;

impl<'a, V: AtomicValue> Atomic<'a, V> {
    /// The atomic of this number, which has this type.
    pub fn at(table: &'a SharedTable, number: u32) -> Self
        requires { slice_get (kinds_of table.now) number ≡ Some V.kind }
        ensures { (result.table.now ≡ table.now) × (result.number ≡ number) }
    {
        Atomic {
            table,
            number,
            value: PhantomData,
        }
    }

    /// `Load`: what it holds.
    pub fn load(&self, caller: &mut Caller<SharedNote>) -> V
        requires { IsCallerAt IsNoteOf own_by self.now.table.now caller.old }
        ensures caller { IsCallerAt IsNoteOf own_by self.now.table.now caller.new }
        ensures called { MakesCall self.now.table.now self.now.number AtomicCall.Load (AtomicReply.Held (V.of result)) caller.old.note caller.new.note }
    {
        let reply = atomic_call(self.table, caller, self.number, V::kind(), AtomicCall::Load);
        V::of_number(number_in(reply))
    }

    /// `Store`: it holds this.
    pub fn store(&self, caller: &mut Caller<SharedNote>, value: V)
        requires { IsCallerAt IsNoteOf own_by self.now.table.now caller.old }
        ensures caller { IsCallerAt IsNoteOf own_by self.now.table.now caller.new }
        ensures called { MakesCall self.now.table.now self.now.number (AtomicCall.Store (V.of value)) AtomicReply.Done caller.old.note caller.new.note }
    {
        let value = value.to_number();
        let call = AtomicCall::Store { value };
        atomic_call(self.table, caller, self.number, V::kind(), call);
    }

    /// `Swap`: it holds this, and what it held is answered.
    pub fn swap(&self, caller: &mut Caller<SharedNote>, value: V) -> V
        requires { IsCallerAt IsNoteOf own_by self.now.table.now caller.old }
        ensures caller { IsCallerAt IsNoteOf own_by self.now.table.now caller.new }
        ensures called { MakesCall self.now.table.now self.now.number (AtomicCall.Swap (V.of value)) (AtomicReply.Held (V.of result)) caller.old.note caller.new.note }
    {
        let value = value.to_number();
        let call = AtomicCall::Swap { value };
        let reply = atomic_call(self.table, caller, self.number, V::kind(), call);
        V::of_number(number_in(reply))
    }

    /// `CompareAndSwap`: it holds `new`, where it held `old`, and whether it did is answered.
    pub fn compare_and_swap(&self, caller: &mut Caller<SharedNote>, old: V, new: V) -> bool
        requires { IsCallerAt IsNoteOf own_by self.now.table.now caller.old }
        ensures caller { IsCallerAt IsNoteOf own_by self.now.table.now caller.new }
        ensures called { MakesCall self.now.table.now self.now.number (AtomicCall.CompareAndSwap (V.of old) (V.of new)) (AtomicReply.Compared result) caller.old.note caller.new.note }
    {
        let old = old.to_number();
        let new = new.to_number();
        let call = AtomicCall::CompareAndSwap { old, new };
        let reply = atomic_call(self.table, caller, self.number, V::kind(), call);
        was_old(reply)
    }
}

impl<'a, V: AtomicBits> Atomic<'a, V> {
    /// `Add`: adds, wrapping at the ends of the type's range, and answers the sum.
    pub fn add(&self, caller: &mut Caller<SharedNote>, operand: V) -> V
        requires { IsCallerAt IsNoteOf own_by self.now.table.now caller.old }
        ensures caller { IsCallerAt IsNoteOf own_by self.now.table.now caller.new }
        ensures called { MakesCall self.now.table.now self.now.number (AtomicCall.Add (V.of operand)) (AtomicReply.Held (V.of result)) caller.old.note caller.new.note }
    {
        V::has_bits();
        let operand = operand.to_number();
        let call = AtomicCall::Add { operand };
        let reply = atomic_call(self.table, caller, self.number, V::kind(), call);
        V::of_number(number_in(reply))
    }

    /// `And`: keeps the bits that the operand has too, and answers what it held.
    pub fn and(&self, caller: &mut Caller<SharedNote>, operand: V) -> V
        requires { IsCallerAt IsNoteOf own_by self.now.table.now caller.old }
        ensures caller { IsCallerAt IsNoteOf own_by self.now.table.now caller.new }
        ensures called { MakesCall self.now.table.now self.now.number (AtomicCall.And (V.of operand)) (AtomicReply.Held (V.of result)) caller.old.note caller.new.note }
    {
        V::has_bits();
        let operand = operand.to_number();
        let call = AtomicCall::And { operand };
        let reply = atomic_call(self.table, caller, self.number, V::kind(), call);
        V::of_number(number_in(reply))
    }

    /// `Or`: adds the bits that the operand has, and answers what it held.
    pub fn or(&self, caller: &mut Caller<SharedNote>, operand: V) -> V
        requires { IsCallerAt IsNoteOf own_by self.now.table.now caller.old }
        ensures caller { IsCallerAt IsNoteOf own_by self.now.table.now caller.new }
        ensures called { MakesCall self.now.table.now self.now.number (AtomicCall.Or (V.of operand)) (AtomicReply.Held (V.of result)) caller.old.note caller.new.note }
    {
        V::has_bits();
        let operand = operand.to_number();
        let call = AtomicCall::Or { operand };
        let reply = atomic_call(self.table, caller, self.number, V::kind(), call);
        V::of_number(number_in(reply))
    }
}

// The number in a reply.
fn number_in(reply: AtomicReply) -> Number
    requires { (number : Number) × (reply ≡ AtomicReply.Held number) }
    ensures { reply ≡ AtomicReply.Held result }
{
    match reply {
        AtomicReply::Held(number) => number,
        _ => unreachable!(),
    }
}

// Whether the old value was there, in a reply.
fn was_old(reply: AtomicReply) -> bool
    requires { (was : Truth) × (reply ≡ AtomicReply.Compared was) }
    ensures { reply ≡ AtomicReply.Compared result }
{
    match reply {
        AtomicReply::Compared(was) => was,
        _ => unreachable!(),
    }
}
