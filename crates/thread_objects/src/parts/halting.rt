//! Halting an object by a misuse.
ghost use Rattle.std.specs.Prelude.{IsTrue};
ghost use Rattle.ruled_object.specs.Growth.{KeepsNote};
ghost use Rattle.run_record.specs.declared.entered.ObjectEvent.{ObjectEvent};
ghost use Rattle.run_record.specs.declared.entered.ObjectReply.{ObjectReply};
ghost use Rattle.thread_objects.specs.HaltOne.{Halts};
ghost use Rattle.thread_objects.specs.Own.{own_as};
ghost use Rattle.thread_objects.specs.Seats.{IsSeat};

use crate::parts::worker::Worker;
use call_loop::halt;
use protocols::Protocol;
use ruled_object::{Object, PassOf};
use std::sync::Wait;
use sync_model::{Note, Worded};
use sync_outside::Clock;
use sync_types::Misuse;

/// Halts an object by a misuse, and wakes all who sleep at it. It is one entry more of the worker, and has a
/// number as each event has.
pub fn halt_one<P: Protocol + Worded, N: Note, C: Clock, R: Wait>(
    rt: &R,
    _worker: &Worker<N, C>,
    object: &Object<P, N>,
    pass: &mut PassOf<P, N>,
    note: &mut N,
    misuse: Misuse,
)
    requires halts { IsTrue P.HALTS }
    requires seat { IsSeat P.begins P.out P.stands N.at _worker.now.at.home.now _worker.now.workers _worker.now.number object.now pass.old }
    ensures seat { IsSeat P.begins P.out P.stands N.at _worker.now.at.home.now _worker.now.workers _worker.now.number object.now pass.new }
    ensures note { KeepsNote N.at N.own N.front note.old note.new }
    ensures halted { (event : P.Event → ObjectEvent) (reply : P.Reply → ObjectReply) → Halts misuse (N.front note.old) (N.front note.new) (own_as event reply pass.old) (own_as event reply pass.new) }
{
    halt(object, rt, pass, note, misuse);
}
