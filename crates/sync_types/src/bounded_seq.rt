//! A list in memory that was taken before.
ghost use Rattle.std.specs.Prelude.{◌≡◌, ◌<◌, ◌≤◌, [], ◌∷◌, ◌++◌, length, IfOk};

use crate::seq::Seq;
use std::alloc::{AllocError, Global};
use std::marker::Model;

/// A list of values in a `Vec` that has room for so many of them. Contracts see the values and the room.
#[derive(Drop)]
pub struct BoundedSeq<T> {
    items: Vec<T>,
    room: usize,
}

impl<T> Model for BoundedSeq<T> {
    ghost use Rattle.std.specs.Prelude.{◌≤◌, vec_len, vec_capacity};
    ghost use Rattle.sync_types.specs.BoundedSeq.{Bounded, bounded_code};

    ghost Value = { Bounded T };

    ghost coded = { bounded_code T.code };

    ghost view = { λ s. record { items = s.items.items; room = s.room } };

    ghost invariant = { λ s. (vec_len s.items ≤ s.room) × (s.room ≤ vec_capacity s.items) };
}

impl<T> BoundedSeq<T> {
    /// An empty list with room for so many items.
    pub fn with_room(alloc: Global, room: usize) -> Result<Self, AllocError>
        ensures { IfOk result (λ list. list ≡ record { items = []; room = room }) }
    {
        Ok(BoundedSeq {
            items: Vec::with_capacity(alloc, room)?,
            room,
        })
    }

    /// How many items it has room for.
    pub fn room(&self) -> usize
        ensures room { result ≡ self.now.room }
        ensures within { length self.now.items ≤ self.now.room }
    {
        self.room
    }

    /// The items as a slice.
    pub fn as_slice(&self) -> &[T]
        ensures items { result.now ≡ self.now.items }
        ensures within { length self.now.items ≤ self.now.room }
    {
        &self.items
    }

    /// Adds an item at the end, for which there is room. It takes no memory.
    pub fn push(&mut self, item: T)
    where
        T: Drop,
        requires { length self.old.items < self.old.room }
        ensures { self.new ≡ record self.old { items = self.old.items ++ item ∷ [] } }
    {
        self.items.push(item).unwrap();
    }

    /// The items as a list that may grow. It takes no memory.
    pub fn into_seq(self) -> Seq<T>
        ensures { result ≡ self.items }
    {
        Seq::from_vec(self.items)
    }
}
