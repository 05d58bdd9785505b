//! The item that a line of a record's text says, beside its front.
ghost use Rattle.std.specs.Prelude.{◌≡◌, ◌<◌, ◌+◌, ◌^◌};
ghost use Rattle.run_check.specs.ToldItems.{along_behind, entered, may_be_of, sketch_told, speaker_of, sum_in};

use crate::told::along::Along;
use crate::told::deeds::{Speaker, deed_told};
use crate::told::placing::{asked_by, ranged_by, script_call, speaker_of};
use crate::told::replies::{int64_told, reply_told};
use record_text::{AnswerWord, EventWord, PlacedReply, Said};
use run_record::{ObjectEvent, ObjectReply};
use sync_model::{Deed, SharedCall, SharedReply};
use workload::Workload;

/// What a line says of an item beside its front.
#[derive(Clone, Copy, Drop)]
pub enum Sketch {
    /// A call on a map or an atomic, or a step of a cursor, at its place.
    Shared(SharedCall, SharedReply, u64),
    /// An entry of the journal of an object, with its number there.
    Entered(usize, u64, Deed<ObjectEvent, ObjectReply>),
}

// The sum that a reply is.
fn sum_in(reply: PlacedReply) -> i64
    ensures { result ≡ sum_in reply }
{
    match reply {
        PlacedReply::Number(word) => int64_told(word).unwrap_or(0),
        _ => 0,
    }
}

/// What stands before the next line of a list, behind this one.
pub fn along_behind(along: Along, said: Said) -> Along
    requires { along.calls + 1 < 2 ^ 64 }
    ensures { result ≡ along_behind along said }
{
    match said {
        Said::Call { place: _, reply } => Along {
            calls: along.calls + 1,
            begin: along.begin,
            sum: sum_in(reply),
        },
        Said::Begin { .. } => Along {
            calls: along.calls + 1,
            begin: along.calls,
            sum: along.sum,
        },
        Said::Next { .. } => Along {
            calls: along.calls + 1,
            begin: along.begin,
            sum: along.sum,
        },
        Said::Entered { .. } => along,
    }
}

// A halt is of no call.
fn may_be_of(index: Option<usize>, event: EventWord) -> bool
    ensures { result ≡ may_be_of index event }
{
    match (index, event) {
        (Some(_), EventWord::Halt(_)) => false,
        _ => true,
    }
}

// An entry of the journal of an object.
fn entered(
    speaker: Speaker,
    object: usize,
    number: u64,
    event: EventWord,
    answer: AnswerWord,
) -> Option<Sketch>
    ensures { result ≡ entered speaker object number event answer }
{
    match deed_told(speaker, event, answer) {
        None => None,
        Some(deed) => Some(Sketch::Entered(object, number, deed)),
    }
}

// How an object speaks in a worker's list, where this stood before.
fn speaker_along(
    workload: &Workload,
    kept: &[(usize, i64)],
    object: usize,
    worker: u32,
    along: Along,
) -> Speaker
    ensures { result ≡ speaker_of workload.now kept.now object worker along.sum }
{
    speaker_of(workload, kept, object, worker, along.sum)
}

/// What a line of a worker's list says of an item. Nothing, where the script's call has no such item, or the object no such entry.
pub fn sketch_told(
    workload: &Workload,
    kept: &[(usize, i64)],
    worker: u32,
    along: Along,
    index: Option<usize>,
    said: Said,
) -> Option<Sketch>
    requires { worker < workload.now.workers }
    ensures { result ≡ sketch_told workload.now kept.now worker along index said }
{
    match said {
        Said::Call { place, reply } => {
            let call = script_call(workload, worker, index);
            match asked_by(workload, call) {
                None => None,
                Some(asked) => match reply_told(asked.kind, &asked.call, reply) {
                    None => None,
                    Some(answer) => Some(Sketch::Shared(asked.call, answer, place)),
                },
            }
        }
        Said::Begin { reach } => {
            let call = script_call(workload, worker, index);
            match ranged_by(workload, call) {
                None => None,
                Some(map) => Some(Sketch::Shared(
                    SharedCall::Begin { map },
                    SharedReply::Begun,
                    reach,
                )),
            }
        }
        Said::Next { reach, shown } => Some(Sketch::Shared(
            SharedCall::Next { begin: along.begin },
            SharedReply::Shown(shown),
            reach,
        )),
        Said::Entered {
            object,
            number,
            event,
            answer,
        } => {
            if may_be_of(index, event) {
                let speaker = speaker_along(workload, kept, object, worker, along);
                entered(speaker, object, number, event, answer)
            } else {
                None
            }
        }
    }
}
