//! A call on an atomic of a shared table.
ghost use Rattle.std.specs.Prelude.{◌≡◌, true, Some, slice_get};
ghost use Rattle.sync_model.specs.Note.{SameHome};
ghost use Rattle.sync_types.specs.declared.atomic_object.Number.{Number};
ghost use Rattle.sync_types.specs.Replies.{atomic_form};
ghost use Rattle.sync_types.specs.SequentialAtomic.{is_atomic_call, is_of};
ghost use Rattle.sync_model.specs.Shared.{Called, IsCallerAt, state_of};
ghost use Rattle.shared_table.specs.Notes.{front_by, own_by, seen_by, IsLawfulFor, IsNoteOf};
ghost use Rattle.shared_table.specs.Tables.{kinds_of, first_of};
ghost use Rattle.table_rule.specs.Operations.{IsAtEnd};

use shared_table::{SharedNote, SharedTable, WordStep};
use sync_model::{Caller, SharedCall, SharedReply};
use sync_types::laws::words::steps_on_words;
use sync_types::{AtomicCall, AtomicKind, AtomicReply, of_word, to_word};

/// Makes a call on atomic number `atomic`, which is of this type. It is one atomic step on the atomic's word, where it is
/// placed; it waits for nobody, can't be refused, and takes no memory.
#[inline(always)]
pub fn atomic_call(
    table: &SharedTable,
    caller: &mut Caller<SharedNote>,
    atomic: u32,
    kind: AtomicKind,
    call: AtomicCall,
) -> AtomicReply
    requires caller { IsCallerAt IsNoteOf own_by table.now caller.old }
    requires kind { slice_get (kinds_of table.now) atomic ≡ Some kind }
    requires call { is_atomic_call kind call ≡ true }
    ensures caller { IsCallerAt IsNoteOf own_by table.now caller.new }
    ensures form { atomic_form call result ≡ true }
    ensures held { (number : Number) → result ≡ AtomicReply.Held number → is_of kind number ≡ true }
    ensures home { SameHome IsNoteOf caller.old.note caller.new.note }
    ensures called { Called (first_of table.now) (SharedCall.Atomic atomic call) (SharedReply.Atomic result) 0 (state_of own_by front_by seen_by caller.old.note) (state_of own_by front_by seen_by caller.new.note) }
    ensures lawful { IsLawfulFor table.now caller.new.note }
    ensures last { IsAtEnd (state_of own_by front_by seen_by caller.new.note) }
{
    steps_on_words();
    let note = &mut caller.note;
    match call {
        AtomicCall::Load => {
            let found = table.operate(note, atomic, call, WordStep::Load);
            AtomicReply::Held(of_word(kind, found))
        }
        AtomicCall::Store { value } => {
            let new = to_word(value);
            table.operate(note, atomic, call, WordStep::Swap { new });
            AtomicReply::Done
        }
        AtomicCall::Swap { value } => {
            let new = to_word(value);
            let found = table.operate(note, atomic, call, WordStep::Swap { new });
            AtomicReply::Held(of_word(kind, found))
        }
        AtomicCall::Add { operand } => {
            let added = to_word(operand);
            let found = table.operate(note, atomic, call, WordStep::Add { operand: added });
            AtomicReply::Held(of_word(kind, found.wrapping_add(added)))
        }
        AtomicCall::And { operand } => {
            let bits = to_word(operand);
            let found = table.operate(note, atomic, call, WordStep::And { operand: bits });
            AtomicReply::Held(of_word(kind, found))
        }
        AtomicCall::Or { operand } => {
            let bits = to_word(operand);
            let found = table.operate(note, atomic, call, WordStep::Or { operand: bits });
            AtomicReply::Held(of_word(kind, found))
        }
        AtomicCall::CompareAndSwap { old, new } => {
            let old = to_word(old);
            let new = to_word(new);
            let found = table.operate(note, atomic, call, WordStep::CompareExchange { old, new });
            AtomicReply::Compared(found == old)
        }
    }
}
