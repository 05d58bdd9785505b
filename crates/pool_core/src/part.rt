//! A part of a pool, which is one caller's: a private item and a list of shared ones.
ghost use Rattle.std.specs.Prelude.{◌≡◌, IfOk};
ghost use Rattle.pool_core.specs.PoolParts.{empty, emptied, put_in, take_own, take_tail, take_victim, reply_of_put, reply_of_look};

use crate::pool_event::PoolPut;
use std::alloc::{AllocError, Global};
use std::collections::VecDeque;
use std::marker::Model;

/// A private item and at most `room` shared ones, the head first.
#[derive(Drop)]
pub struct Part {
    room: u32,
    private: Option<u64>,
    shared: VecDeque<u64>,
}

impl Model for Part {
    ghost use Rattle.std.specs.Prelude.{ℕ, ◌≤◌};
    ghost use Rattle.std.specs.VecDeque.{deque_capacity};
    ghost use Rattle.pool_core.specs.PoolParts.{PoolPart};

    ghost Value = { PoolPart ℕ };

    ghost view = { λ p. record { room = p.room; private = p.private; shared = p.shared.items } };

    ghost invariant = { λ p. p.room ≤ deque_capacity p.shared };
}

impl Part {
    /// A part without items that has memory for `room` shared ones.
    pub fn new(alloc: Global, room: u32) -> Result<Self, AllocError>
        ensures { IfOk result (λ part. part ≡ empty room) }
    {
        Ok(Part {
            room,
            private: None,
            shared: VecDeque::with_capacity(alloc, room as usize)?,
        })
    }

    /// Puts an item into the private place, or else at the head of the shared list, where there is room.
    pub fn put(&mut self, item: u64) -> PoolPut
        ensures { put_in self.old item ≡ (self.new, reply_of_put result) }
    {
        if self.private.is_none() {
            self.private = Some(item);
            return PoolPut::Kept;
        }
        if self.shared.len() < self.room as usize {
            self.shared.push_front_reserved(item);
            return PoolPut::Kept;
        }
        PoolPut::Dropped(item)
    }

    /// Takes the private item, or else the head of the shared list.
    pub fn take_own(&mut self) -> Option<u64>
        ensures { take_own self.old ≡ (self.new, reply_of_look result) }
    {
        if let Some(item) = self.private.take() {
            return Some(item);
        }
        self.shared.pop_front()
    }

    /// Takes the tail of the shared list.
    pub fn take_tail(&mut self) -> Option<u64>
        ensures { take_tail self.old ≡ (self.new, reply_of_look result) }
    {
        self.shared.pop_back()
    }

    /// Takes the private item, or else the tail of the shared list.
    pub fn take_victim(&mut self) -> Option<u64>
        ensures { take_victim self.old ≡ (self.new, reply_of_look result) }
    {
        if let Some(item) = self.private {
            self.private = None;
            return Some(item);
        }
        self.take_tail()
    }

    /// Removes every item.
    pub fn clear(&mut self)
        ensures { self.new ≡ emptied self.old }
    {
        self.private = None;
        self.shared.clear();
    }
}
