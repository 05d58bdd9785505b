//! What the workers of a run leave, once all have ended.
ghost use Rattle.std.specs.Prelude.{◌≡◌, ◌≤◌, map, IfOk, vec_len, vec_capacity, []};

use crate::job::Gone;
use script_calls::Reply;
use std::alloc::{AllocError, Global};
use sync_model::Caller;
use sync_types::{BoundedSeq, Seq};
use thread_objects::AnyPass;

/// What the workers leave, in order of number.
#[derive(Drop)]
pub(crate) struct Left<M> {
    pub callers: Vec<Caller<M>>,
    pub passes: Vec<Vec<AnyPass<M>>>,
    pub replies: BoundedSeq<Seq<Reply<u32>>>,
}

impl<M: Drop> Left<M> {
    /// Room for what so many workers leave.
    pub fn with_room(alloc: Global, workers: usize) -> Result<Self, AllocError>
        ensures empty { IfOk result (λ left. (left.callers.items ≡ []) × (left.passes.items ≡ []) × (left.replies.items ≡ [])) }
        ensures room { IfOk result (λ left. (workers ≤ vec_capacity left.callers) × (workers ≤ vec_capacity left.passes) × (workers ≤ left.replies.room)) }
    {
        Ok(Left {
            callers: Vec::with_capacity(alloc, workers)?,
            passes: Vec::with_capacity(alloc, workers)?,
            replies: BoundedSeq::with_room(alloc, workers)?,
        })
    }

    /// Takes in what all workers left, for whom there is room.
    pub fn gather(&mut self, gone: Vec<Gone<M>>)
        requires empty { (self.old.callers.items ≡ []) × (self.old.passes.items ≡ []) × (self.old.replies.items ≡ []) }
        requires room { (vec_len gone ≤ vec_capacity self.old.callers) × (vec_len gone ≤ vec_capacity self.old.passes) × (vec_len gone ≤ self.old.replies.room) }
        ensures callers { self.new.callers.items ≡ map (λ g. g.caller) gone.items }
        ensures passes { map (λ p. p.items) self.new.passes.items ≡ map (λ g. g.passes.items) gone.items }
        ensures replies { self.new.replies.items ≡ map (λ g. g.replies) gone.items }
    {
        for worker in gone {
            let Gone {
                caller,
                passes,
                replies,
            } = worker;
            self.callers.push_reserved(caller);
            self.passes.push_reserved(passes);
            self.replies.push(replies);
        }
    }
}
