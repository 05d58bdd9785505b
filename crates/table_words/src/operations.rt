//! Operations on the words of atomics.
ghost use Rattle.std.specs.Prelude.{◌≡◌, Some, slice_get};
ghost use Rattle.sync_types.specs.declared.atomic_object.AtomicKind.{AtomicKind};
ghost use Rattle.table_rule.specs.Operations.{IsOperation, Operates};
ghost use Rattle.table_words.specs.Seats.{begin_of, IsSeatOf};
ghost use Rattle.table_rule.specs.Walking.{IsFree};
ghost use Rattle.table_rule.specs.WordSteps.{word_after};

use crate::laws::history_laws;
use crate::words::TableWords;
use atomic_table::Seat;
use stamps::Stamp;
use std::marker::Brand;
use sync_types::AtomicCall;
use table_rule::operations::Operate;
use table_rule::subject::{Operation, Timed};
use table_rule::view::View;
use table_rule::word_step::WordStep;

impl TableWords {
    /// A seat makes an operation on an atomic's word, in one atomic step, and tells the word as it was before. The step places
    /// the call of the seat's first caller, whose last event has this number.
    #[inline(always)]
    pub fn operate(
        &self,
        seat: &mut Seat<(), View>,
        atomic: u32,
        call: AtomicCall,
        step: WordStep,
        _time: Stamp,
    ) -> u64
        requires table { IsSeatOf self.now seat.old }
        requires free { IsFree (begin_of self.now) seat.old.me }
        requires operation { (kind : AtomicKind) × (slice_get (begin_of self.now).kinds atomic ≡ Some kind) × IsOperation kind call (word_after step) }
        ensures table { seat.new.table_id ≡ seat.old.table_id }
        ensures operated { Operates atomic call _time.time seat.old.me result seat.new.me }
    {
        self.operate_as::<Brand>(seat, atomic, call, step, _time)
    }

    // The same, as a call that is told by a type.
    #[inline(always)]
    fn operate_as<O: Operation + Timed>(
        &self,
        seat: &mut Seat<(), View>,
        atomic: u32,
        _call: AtomicCall,
        step: WordStep,
        _time: Stamp,
    ) -> u64
        requires table { IsSeatOf self.now seat.old }
        requires free { IsFree (begin_of self.now) seat.old.me }
        requires told { O.atomic ≡ atomic }
        requires operation { (kind : AtomicKind) × (slice_get (begin_of self.now).kinds atomic ≡ Some kind) × IsOperation kind O.call (word_after step) }
        ensures table { seat.new.table_id ≡ seat.old.table_id }
        ensures operated { Operates O.atomic O.call O.time seat.old.me result seat.new.me }
    {
        history_laws();
        let word = 1 + atomic as usize;
        let shared = &self.table.shared;
        match step {
            WordStep::Load => shared.load::<Operate<O>>(seat, word),
            WordStep::Swap { new } => shared.swap::<Operate<O>>(seat, word, new),
            WordStep::Add { operand } => shared.fetch_add::<Operate<O>>(seat, word, operand),
            WordStep::And { operand } => shared.fetch_and::<Operate<O>>(seat, word, operand),
            WordStep::Or { operand } => shared.fetch_or::<Operate<O>>(seat, word, operand),
            WordStep::CompareExchange { old, new } => {
                shared.compare_exchange::<Operate<O>>(seat, word, old, new)
            }
        }
    }
}
