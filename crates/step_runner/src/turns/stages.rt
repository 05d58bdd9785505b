//! What a worker's turn makes of a stage of its call.
ghost use Rattle.std.specs.Prelude.{◌≡◌, IfOk, OnOk};
ghost use Rattle.step_runner.specs.Items.{stage_items};
ghost use Rattle.step_runner.specs.Noted.{noted};
ghost use Rattle.step_runner.specs.Stages.{outcome_of, make};

use crate::notes::Notes;
use crate::turns::answer::Answer;
use crate::turns::item::Item;
use crate::turns::noting::{Entered, note_made};
use protocols::Step;
use std::alloc::AllocError;

/// Who takes a turn, and when.
#[derive(Clone, Copy)]
pub struct Taker {
    /// The number of the worker, which is below that of all workers.
    pub worker: u32,
    /// How many workers there are, at most 64. They are the callers of each machine.
    pub workers: u32,
    /// What the clock shows, in nanoseconds.
    pub moment: u64,
}

/// The places of an object and of the one to which it refers, its target.
#[derive(Clone, Copy)]
pub(crate) struct Places {
    pub(crate) object: usize,
    pub(crate) target: usize,
}

/// What a stage comes to: an outcome, or what the turn answers without one. A call that has a later stage
/// makes it in a later turn.
fn outcome_of<G: Drop, O>(step: Step<G, O>) -> Result<O, Answer>
    ensures { result ≡ outcome_of step }
{
    match step {
        Step::Finished(outcome) => Ok(outcome),
        Step::Misused(misuse) => Err(Answer::Misused(misuse)),
        Step::Waits(_) | Step::Next(_) => Err(Answer::Unfinished),
        Step::Never => Err(Answer::Still),
    }
}

/// Makes the event of the stage that is due at the object at a place, and nothing where none is. Only want of memory for what is noted
/// is an `Err`.
pub(crate) fn make<P: Entered>(
    due: Option<P::Stage>,
    object: &mut P::State,
    place: usize,
    taker: Taker,
    notes: &mut Notes<Item>,
) -> Result<Result<P::Outcome, Answer>, AllocError>
    ensures made { IfOk result (λ made. make P.next P.event P.meaning taker.worker taker.moment due object.old ≡ (object.new, made)) }
    ensures noted { OnOk result (notes.new ≡ noted (stage_items P.event_word P.reply_word P.next P.event taker.worker taker.moment place due object.old) notes.old) }
{
    let Some(stage) = due else {
        return Ok(Err(Answer::Still));
    };
    let event = P::event(stage, taker.moment);
    let reply = P::step(object, taker.worker, event);
    note_made::<P>(notes, taker.worker, place, event, reply)?;
    Ok(outcome_of(P::meaning(stage, &reply)))
}
