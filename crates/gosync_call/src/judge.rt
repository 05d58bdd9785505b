//! The verdict on the record of a file.
ghost use Rattle.std.specs.Prelude.{◌≡◌, ℕ, List, ◌+◌, ◌≤◌, IfErr, OnErr, OnOk, MatchResult};
ghost use Rattle.sync_outside.specs.Bytes.{Appends, AppendsFront};
ghost use Rattle.sync_outside.specs.Faults.{Rose};
ghost use Rattle.record_text.specs.declared.limits.TheConstants.{MAX_RECORD};
ghost use Rattle.gosync_call.specs.Checks.{IsJudged, IsNoRecord, JudgesTo, clause_word, verdict_line};
ghost use Rattle.gosync_call.specs.Front.{IsOfAllBytes, IsRefusal};
ghost use Rattle.gosync_call.specs.Input.{IsWhollyReadTo, ReadFailed};
ghost use Rattle.gosync_call.specs.declared.status.Status.TheVariants as statuses;
ghost use Rattle.gosync_call.specs.declared.status.Unread.TheVariants as unreads;
ghost use Rattle.gosync_call.specs.declared.status.Fault.TheVariants as faults;

use crate::input::{InputFault, read_input};
use crate::status::{Fault, Status, Unread};
use record_clauses::{Clause, Verdict};
use record_text::CheckFault;
use record_text::laws::a_text_is_refused_once;
use record_text::limits::MAX_RECORD;
use run_check::check;
use run_report::pieces::write_pieces;
use std::alloc::Global;
use sync_outside::{Failed, Sink, Sources};

// The name of a clause.
fn clause_word(clause: Clause) -> &'static [u8]
    ensures { result.now ≡ clause_word clause }
{
    match clause {
        Clause::Spell => b"spell",
        Clause::Legal => b"legal",
        Clause::Front => b"front",
        Clause::Range => b"range",
        Clause::Machine => b"machine",
        Clause::Edge => b"edge",
        Clause::End => b"end",
        Clause::Stop => b"stop",
        Clause::Report => b"report",
    }
}

// Writes the line of a verdict.
fn write_verdict<O: Sink>(out: &mut O, verdict: Verdict) -> Result<(), Failed>
    ensures ok { OnOk result (Appends (O.contents out.old) (O.contents out.new) (verdict_line verdict)) }
    ensures err { OnErr result (AppendsFront (O.contents out.old) (O.contents out.new) (verdict_line verdict)) }
    ensures failed { OnErr result (Rose (O.faults out.old) (O.faults out.new)) }
    ensures faults { O.faults out.old ≤ O.faults out.new }
{
    match verdict {
        Verdict::Yes => out.write(b"yes\n"),
        Verdict::No(clause) => write_pieces(out, &[b"no ", clause_word(clause), b"\n"]),
    }
}

// Reads the record of a file, and judges it.
fn verdict_of<S: Sources>(alloc: Global, file: &str, src: &mut S) -> Result<Verdict, Unread>
    ensures judged { MatchResult result (IsJudged (S.contents src.old file.now)) (IsNoRecord (S.contents src.old file.now)) }
    ensures whole { MatchResult result (λ _. IsWhollyReadTo MAX_RECORD (S.contents src.old file.now) (S.remaining src.new)) (λ why. IsRefusal why → IsWhollyReadTo MAX_RECORD (S.contents src.old file.now) (S.remaining src.new)) }
    ensures cannot_read { IfErr result (λ why. why ≡ unreads.CannotRead → ReadFailed (S.open_faults src.old file.now) (S.open_faults src.new file.now) (S.read_faults src.old) (S.read_faults src.new)) }
    ensures reads { S.reads src.new ≤ S.reads src.old + (MAX_RECORD + 1) }
    ensures read_faults { S.read_faults src.old ≤ S.read_faults src.new }
    ensures open_faults { (name : List ℕ) → S.open_faults src.old name ≤ S.open_faults src.new name }
{
    a_text_is_refused_once();
    let bytes = match read_input(alloc, MAX_RECORD, file, src) {
        Ok(bytes) => bytes,
        Err(InputFault::Failed) => return Err(Unread::CannotRead),
        Err(InputFault::Memory) => return Err(Unread::Memory),
    };
    match check(alloc, &bytes) {
        Ok(verdict) => Ok(verdict),
        Err(CheckFault::Refused { line, reason }) => Err(Unread::NoRecord { line, reason }),
        Err(CheckFault::Memory) => Err(Unread::Memory),
    }
}

/// Judges the record of a file, and writes the verdict.
pub fn judge<S: Sources, O: Sink>(alloc: Global, file: &str, src: &mut S, out: &mut O) -> Status
    ensures judges { JudgesTo (S.contents src.old file.now) (O.contents out.old) (O.contents out.new) result }
    ensures whole { IsOfAllBytes result → IsWhollyReadTo MAX_RECORD (S.contents src.old file.now) (S.remaining src.new) }
    ensures cannot_read { result ≡ statuses.Unread unreads.CannotRead → ReadFailed (S.open_faults src.old file.now) (S.open_faults src.new file.now) (S.read_faults src.old) (S.read_faults src.new) }
    ensures cannot_write { result ≡ statuses.Failed faults.CannotWrite → Rose (O.faults out.old) (O.faults out.new) }
    ensures reads { S.reads src.new ≤ S.reads src.old + (MAX_RECORD + 1) }
    ensures read_faults { S.read_faults src.old ≤ S.read_faults src.new }
    ensures open_faults { (name : List ℕ) → S.open_faults src.old name ≤ S.open_faults src.new name }
    ensures out_faults { O.faults out.old ≤ O.faults out.new }
{
    match verdict_of(alloc, file, src) {
        Ok(verdict) => match write_verdict(out, verdict) {
            Ok(()) => Status::Judged(verdict),
            Err(_) => Status::Failed(Fault::CannotWrite),
        },
        Err(why) => Status::Unread(why),
    }
}
