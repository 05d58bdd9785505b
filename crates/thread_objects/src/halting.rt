//! Halting an object of a run by a misuse.
ghost use Rattle.ruled_object.specs.Growth.{KeepsNote};
ghost use Rattle.thread_objects.specs.ByKind.{own_of};
ghost use Rattle.thread_objects.specs.Halting.{AreHalted};
ghost use Rattle.thread_objects.specs.Passes.{IsSeatAt};

use crate::by_kind::{all_kinds, arms, by_kind, with_kinds};
use crate::object::AnyObject;
use crate::parts::{Worker, halt_one};
use crate::pass::AnyPass;
use std::sync::Wait;
use sync_model::Note;
use sync_outside::Clock;
use sync_types::Misuse;

/// Halts an object of whatever kind by a misuse, and wakes all who sleep at it. A map and an atomic are left as they are.
pub fn halt_any<N: Note, C: Clock, R: Wait>(
    rt: &R,
    worker: &Worker<N, C>,
    object: &AnyObject<N>,
    pass: &mut AnyPass<N>,
    note: &mut N,
    misuse: Misuse,
)
    requires seat { IsSeatAt N.at worker.now.at.home.now worker.now.workers worker.now.number object.now pass.old }
    ensures seat { IsSeatAt N.at worker.now.at.home.now worker.now.workers worker.now.number object.now pass.new }
    ensures note { KeepsNote N.at N.own N.front note.old note.new }
    ensures halted { AreHalted object.now misuse (N.front note.old) (N.front note.new) (own_of pass.old) (own_of pass.new) }
{
    by_kind!(
        object,
        AnyPass(pass),
        {},
        |object, pass| halt_one(rt, worker, object, pass, note, misuse)
    )
}
