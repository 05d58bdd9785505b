//! The pass of one caller to a pool.
ghost use Rattle.std.specs.Prelude.{◌≡◌};
ghost use Rattle.go_pool.specs.Pools.{left_of, number_of};

use pool_core::PartCore;
use ruled_object::PassOf;

/// The pass of one caller to one part.
pub type PartPass<N> = PassOf<PartCore, N>;

/// The pass of one caller to a pool. It has a pass to each part, and goes where its caller goes. It can be renewed as often as its
/// caller likes: a pool counts nothing for ever.
#[derive(Drop)]
pub struct PoolPass<N> {
    pub(crate) number: u32,
    pub(crate) left: u64,
    pub(crate) parts: Vec<PartPass<N>>,
}

impl<N> PoolPass<N> {
    /// The number of the caller whose pass it is.
    pub fn number(&self) -> u32
        ensures { result ≡ number_of self.now }
    {
        self.number
    }

    /// How many calls of the pool it is still good for.
    pub fn left(&self) -> u64
        ensures { result ≡ left_of self.now }
    {
        self.left
    }
}
