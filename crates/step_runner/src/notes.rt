//! What is noted of a run as it goes.
ghost use Rattle.std.specs.Prelude.{◌≡◌, OnOk};
ghost use Rattle.step_runner.specs.Noted.{one_noted, begun_as, so_far_of};

use std::alloc::{AllocError, Global};
use sync_types::Seq;

/// What is noted: nothing, or each thing in order.
#[derive(Drop)]
pub enum Notes<T> {
    /// Nothing is noted.
    Nothing,
    /// All is noted, of which so much was so far.
    All(Seq<T>),
}

impl<T> Notes<T> {
    /// Notes one thing more.
    pub fn note(&mut self, one: T) -> Result<(), AllocError>
    where
        T: Drop,
        ensures { OnOk result (self.new ≡ one_noted one self.old) }
    {
        match self {
            Notes::Nothing => Ok(()),
            Notes::All(so_far) => so_far.push(one),
        }
    }

    /// Notes that are kept as these are, of other things, of which there is none yet.
    #[inline(always)]
    pub fn apart<U>(&self, alloc: Global) -> Notes<U>
        ensures { result ≡ begun_as self.now }
    {
        match self {
            Notes::Nothing => Notes::Nothing,
            Notes::All(_) => Notes::All(Seq::new(alloc)),
        }
    }

    /// What is noted so far.
    pub fn into_items(self, alloc: Global) -> Seq<T>
        ensures { result ≡ so_far_of self }
    {
        match self {
            Notes::Nothing => Seq::new(alloc),
            Notes::All(so_far) => so_far,
        }
    }
}
