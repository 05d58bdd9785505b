//! The line of a completed call: `WORKER.INDEX CALL -> REPLY`.
ghost use Rattle.std.specs.Prelude.{◌≡◌, ◌≤◌, true, vec_capacity};
ghost use Rattle.workload.specs.declared.limits.TheConstants.{MAX_KEYS};
ghost use Rattle.script_calls.specs.Outcome.{has_pairs_to};
ghost use Rattle.workload_text.specs.ReportLines.{completed_line};

use crate::call_words::push_call;
use crate::line::{LINE_ROOM, push, push_number};
use crate::reply::push_reply;
use script_calls::{Call, Reply};
use workload::Workload;

/// Makes the line of a completed call.
pub fn set_completed_line(
    line: &mut Vec<u8>,
    workload: &Workload,
    worker: u32,
    index: usize,
    call: &Call,
    reply: &Reply<u32>,
)
    requires room { LINE_ROOM ≤ vec_capacity line.old }
    requires pairs { has_pairs_to MAX_KEYS reply.now ≡ true }
    ensures line { line.new.items ≡ completed_line workload.now worker index call.now reply.now }
    ensures room { vec_capacity line.old ≤ vec_capacity line.new }
{
    line.clear();
    push_number(line, u64::from(worker));
    push(line, b".");
    push_number(line, index as u64);
    push_call(line, workload.objects(), call);
    push(line, b" -> ");
    push_reply(line, workload.keys().names(), reply);
    push(line, b"\n");
}
