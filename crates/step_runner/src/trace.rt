//! The trace of a run: what each turn made, in order.
ghost use Rattle.std.specs.Prelude.{◌≡◌, IfOk, OnOk};
ghost use Rattle.step_runner.specs.Noted.{noted, noted_of};
ghost use Rattle.step_runner.specs.Traces.{script_turn, closing_turn, reply_of, is_told, told_by};

use crate::copying::{copied_call, copied_reply};
use crate::notes::Notes;
use crate::turns::{Answer, Item};
use script_calls::{Call, Reply};
use std::alloc::{AllocError, Global};
use std::marker::Model;
use sync_types::{Name, Seq};

/// What one turn of a worker made. A turn without an event has none.
#[derive(Drop)]
pub struct TraceItem {
    pub worker: u32,
    /// The call before which the worker stood or within which it was. None for the `done` behind a script.
    pub call: Option<Call>,
    /// The call's place in the worker's script. None for the `done` behind it.
    pub index: Option<usize>,
    /// What was done on which object, in order.
    pub made: Seq<Item>,
    /// The reply, where the turn completed a call of the script. Its keys are named.
    pub reply: Option<Reply<Name>>,
}

/// The turns of a run that made an event, in the order in which they were taken.
#[derive(Drop)]
pub struct Trace {
    items: Seq<TraceItem>,
}

impl Model for Trace {
    ghost use Rattle.std.specs.Prelude.{List};
    ghost use Rattle.step_runner.specs.declared.trace.TraceItem.{TraceItem};

    ghost Value = { List TraceItem };

    ghost view = { λ t. t.items };
}

impl Trace {
    /// The trace of these items.
    pub(crate) fn from_items(items: Seq<TraceItem>) -> Self
        ensures { result ≡ items }
    {
        Trace { items }
    }

    /// Its items in order.
    pub fn as_slice(&self) -> &[TraceItem]
        ensures { result.now ≡ self.now }
    {
        self.items.as_slice()
    }
}

/// The reply by which an answer completes a call.
fn reply_of(alloc: Global, answer: &Answer) -> Result<Option<Reply<Name>>, AllocError>
    ensures { IfOk result (λ reply. reply ≡ reply_of answer.now) }
{
    match answer {
        Answer::Completed(reply) => Ok(Some(copied_reply(alloc, reply)?)),
        Answer::Still | Answer::Unfinished | Answer::Misused(_) => Ok(None),
    }
}

/// Whether a turn with this answer made an event or completed its call.
fn is_told(made: &[Item], answer: &Answer) -> bool
    ensures { result ≡ is_told made.now answer.now }
{
    match answer {
        Answer::Still => !made.is_empty(),
        Answer::Unfinished | Answer::Completed(_) | Answer::Misused(_) => true,
    }
}

/// Tells of a worker's turn of the call at a place of its script, behind what was told so far. Like all that keeps something of a turn it is
/// cold, and never a part of a turn's own code.
#[cold]
#[inline(never)]
fn tell_script_turn(
    alloc: Global,
    trace: &mut Notes<TraceItem>,
    worker: u32,
    call: &Call,
    place: usize,
    made: Seq<Item>,
    answer: &Answer,
) -> Result<(), AllocError>
    ensures { OnOk result (trace.new ≡ noted (told_by (script_turn worker call.now place) made answer.now) trace.old) }
{
    if !is_told(made.as_slice(), answer) {
        return Ok(());
    }
    let call = copied_call(alloc, call)?;
    let reply = reply_of(alloc, answer)?;
    trace.note(TraceItem {
        worker,
        call: Some(call),
        index: Some(place),
        made,
        reply,
    })
}

/// Tells of a worker's turn of the `done` behind its script.
#[cold]
#[inline(never)]
fn tell_closing_turn(
    trace: &mut Notes<TraceItem>,
    worker: u32,
    made: Seq<Item>,
    answer: &Answer,
) -> Result<(), AllocError>
    ensures { OnOk result (trace.new ≡ noted (told_by (λ made reply. closing_turn worker made) made answer.now) trace.old) }
{
    if !is_told(made.as_slice(), answer) {
        return Ok(());
    }
    trace.note(TraceItem {
        worker,
        call: None,
        index: None,
        made,
        reply: None,
    })
}

/// Notes a worker's turn of the call at a place of its script, where all is noted.
#[inline(always)]
pub(crate) fn note_script_turn(
    alloc: Global,
    trace: &mut Notes<TraceItem>,
    worker: u32,
    call: &Call,
    place: usize,
    made: Notes<Item>,
    answer: &Answer,
) -> Result<(), AllocError>
    ensures { OnOk result (trace.new ≡ noted_of (λ made. told_by (script_turn worker call.now place) made answer.now) made trace.old) }
{
    match made {
        Notes::Nothing => Ok(()),
        Notes::All(made) => tell_script_turn(alloc, trace, worker, call, place, made, answer),
    }
}

/// Notes a worker's turn of the `done` behind its script, where all is noted.
#[inline(always)]
pub(crate) fn note_closing_turn(
    trace: &mut Notes<TraceItem>,
    worker: u32,
    made: Notes<Item>,
    answer: &Answer,
) -> Result<(), AllocError>
    ensures { OnOk result (trace.new ≡ noted_of (λ made. told_by (λ made reply. closing_turn worker made) made answer.now) made trace.old) }
{
    match made {
        Notes::Nothing => Ok(()),
        Notes::All(made) => tell_closing_turn(trace, worker, made, answer),
    }
}
