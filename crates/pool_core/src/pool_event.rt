//! What a caller does at a pool, and what it is answered.
ghost use Rattle.std.specs.Prelude.{◌≡◌};
ghost use Rattle.pool_core.specs.PoolParts.{reply_of_put, reply_of_look};

/// What a caller does at a pool of items of a type `X`.
#[derive(Clone, Copy, PartialEq, Eq)]
pub enum PoolEvent<X> {
    /// Puts an item into its part.
    Put(X),
    /// Takes an item of its own part: the private one, or else the head of the shared list.
    LookOwn,
    /// Takes the tail of the shared list of a part.
    LookOther(u32),
    /// Takes an item of a part among the victims: the private one, where the part is the caller's own, or else the tail
    /// of the shared list.
    LookVictim(u32),
    /// Removes the victims, and makes the primary generation the victims.
    Sweep,
}

/// What an event at a pool answers.
#[derive(Clone, Copy, PartialEq, Eq)]
pub enum PoolReply<X> {
    /// The item that was put is kept.
    Kept,
    /// The part is full, and this item that was put is dropped.
    Dropped(X),
    /// The look took this item.
    Item(X),
    /// There is no item where the look was.
    Nothing,
    /// The sweep was made.
    Swept,
    /// The caller, or the part that the event names, isn't one of the pool's, and nothing changed.
    Still,
}

/// Whether an item that was put is kept.
#[derive(Clone, Copy, PartialEq, Eq)]
pub enum PoolPut {
    /// The pool has it.
    Kept,
    /// The part is full, and the item stands here.
    Dropped(u64),
}

impl From<PoolPut> for PoolReply<u64> {
    ghost from_gives = { λ put reply. reply ≡ reply_of_put put };

    fn from(put: PoolPut) -> Self {
        match put {
            PoolPut::Kept => PoolReply::Kept,
            PoolPut::Dropped(item) => PoolReply::Dropped(item),
        }
    }
}

impl From<Option<u64>> for PoolReply<u64> {
    ghost from_gives = { λ item reply. reply ≡ reply_of_look item };

    fn from(item: Option<u64>) -> Self {
        match item {
            Some(item) => PoolReply::Item(item),
            None => PoolReply::Nothing,
        }
    }
}
