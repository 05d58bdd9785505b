//! The calls of an atomic's caller.
ghost use Rattle.go_sync.specs.AtomicCallers.{Makes};

use super::AtomicCaller;
use go_atomic::{AtomicBits, AtomicValue};
use sync_types::{AtomicCall, AtomicReply};

impl<V: AtomicValue> AtomicCaller<'_, V> {
    /// Go's `Load`: what it holds.
    pub fn load(&mut self) -> V
        ensures { Makes AtomicCall.Load (AtomicReply.Held (V.of result)) self.old self.new }
    {
        self.atomic.load(&mut self.caller)
    }

    /// Go's `Store`: it holds this.
    pub fn store(&mut self, value: V)
        ensures { Makes (AtomicCall.Store (V.of value)) AtomicReply.Done self.old self.new }
    {
        self.atomic.store(&mut self.caller, value);
    }

    /// Go's `Swap`: it holds this, and what it held is answered.
    pub fn swap(&mut self, value: V) -> V
        ensures { Makes (AtomicCall.Swap (V.of value)) (AtomicReply.Held (V.of result)) self.old self.new }
    {
        self.atomic.swap(&mut self.caller, value)
    }

    /// Go's `CompareAndSwap`: it holds `new`, where it held `old`, and whether it did is answered.
    pub fn compare_and_swap(&mut self, old: V, new: V) -> bool
        ensures { Makes (AtomicCall.CompareAndSwap (V.of old) (V.of new)) (AtomicReply.Compared result) self.old self.new }
    {
        self.atomic.compare_and_swap(&mut self.caller, old, new)
    }
}

impl<V: AtomicBits> AtomicCaller<'_, V> {
    /// Go's `Add`: adds, wrapping at the ends of the type's range, and answers the sum.
    pub fn add(&mut self, operand: V) -> V
        ensures { Makes (AtomicCall.Add (V.of operand)) (AtomicReply.Held (V.of result)) self.old self.new }
    {
        self.atomic.add(&mut self.caller, operand)
    }

    /// Go's `And`: keeps the bits that the operand has too, and answers what it held.
    pub fn and(&mut self, operand: V) -> V
        ensures { Makes (AtomicCall.And (V.of operand)) (AtomicReply.Held (V.of result)) self.old self.new }
    {
        self.atomic.and(&mut self.caller, operand)
    }

    /// Go's `Or`: adds the bits that the operand has, and answers what it held.
    pub fn or(&mut self, operand: V) -> V
        ensures { Makes (AtomicCall.Or (V.of operand)) (AtomicReply.Held (V.of result)) self.old self.new }
    {
        self.atomic.or(&mut self.caller, operand)
    }
}
