//! What the program does before any thread is started.
ghost use Rattle.std.specs.Prelude.{◌≡◌, ◌≢◌, ◌⊎◌, ◌+◌, ◌≤◌, ℕ, false, List, map, string_bytes};
ghost use Rattle.sync_outside.specs.Faults.{Rose};
ghost use Rattle.record_text.specs.declared.limits.TheConstants.{MAX_RECORD};
ghost use Rattle.workload.specs.declared.limits.TheConstants.{MAX_INPUT};
ghost use Rattle.gosync_call.specs.Checks.{JudgesTo};
ghost use Rattle.workload.specs.Dialect.{has_variables};
ghost use Rattle.workload.specs.Plan.{Plan};
ghost use Rattle.gosync_call.specs.Command.{file_in, AreRefused, AskFor, AskToCheck, AskToMake};
ghost use Rattle.gosync_call.specs.Front.{IsFrontOfRun, IsLeftOfAllBytes};
ghost use Rattle.gosync_call.specs.Input.{IsWhollyRead, IsWhollyReadTo, ReadFailed};
ghost use Rattle.gosync_call.specs.Messages.{message_of, WritesOut};
ghost use Rattle.gosync_call.specs.Modes.{ModeComesTo};
ghost use Rattle.gosync_call.specs.declared.status.Front.TheVariants as fronts;
ghost use Rattle.gosync_call.specs.declared.status.Status.{Status};
ghost use Rattle.gosync_call.specs.declared.status.Status.TheVariants as statuses;
ghost use Rattle.gosync_call.specs.declared.status.Unread.TheVariants as unreads;
ghost use Rattle.gosync_call.specs.declared.status.Fault.TheVariants as faults;
ghost use Rattle.gosync_call.specs.declared.words.Mode.{Mode};
ghost use Rattle.gosync_call.specs.declared.words.Mode.TheVariants as modes;

use crate::judge::judge;
use crate::message::say;
use crate::one_thread::on_one_thread;
use crate::read::read_workload;
use crate::status::{Front, Status, Unread};
use crate::words::{Mode, Request, asked};
use command_line::WordsFault;
use std::alloc::Global;
use sync_outside::{Sink, Sources};
use workload::keyword::Dialect;

// Says how the program ends, and ends it.
fn ended<E: Sink>(err: &mut E, file: &str, status: Status) -> Front
    ensures ended { result ≡ fronts.Ended status }
    ensures says { WritesOut (E.contents err.old) (E.contents err.new) (E.faults err.old) (E.faults err.new) (message_of file.now status) }
    ensures faults { E.faults err.old ≤ E.faults err.new }
{
    say(err, file, status);
    Front::Ended(status)
}

/// Does what the words ask for up to the first start of a thread: all of a run on one thread, the verdict on a record, and the
/// reading of the file for a run with threads. A workload that is to be made isn't made yet. It waits for nobody.
pub fn front<S: Sources, O: Sink, E: Sink>(
    alloc: Global,
    words: &[String],
    src: &mut S,
    out: &mut O,
    err: &mut E,
) -> Front
    // What the words ask for, and what the bytes of the file come to.
    ensures usage { result ≡ fronts.Ended statuses.Usage → AreRefused (map string_bytes words.now) }
    ensures refused { AreRefused (map string_bytes words.now) → (result ≡ fronts.Ended statuses.Usage) ⊎ (result ≡ fronts.Ended (statuses.Unread unreads.Memory)) }
    ensures one_thread { (mode : Mode) (file : List ℕ) → AskFor (map string_bytes words.now) mode file → mode ≢ modes.Run → (status : Status) × (result ≡ fronts.Ended status) × ModeComesTo mode (S.contents src.old file) (O.contents out.old) (O.contents out.new) status }
    ensures check { (file : List ℕ) → AskToCheck (map string_bytes words.now) file → (status : Status) × (result ≡ fronts.Ended status) × JudgesTo (S.contents src.old file) (O.contents out.old) (O.contents out.new) status }
    ensures run { (file : List ℕ) → AskFor (map string_bytes words.now) modes.Run file → IsFrontOfRun (S.contents src.old file) result }
    ensures make { (seed : ℕ) → AskToMake (map string_bytes words.now) seed → (result ≡ fronts.Make seed) ⊎ (result ≡ fronts.Ended (statuses.Unread unreads.Memory)) }
    ensures plain { (plan : Plan) → result ≡ fronts.Run plan → has_variables plan ≡ false }
    ensures made { (seed : ℕ) → result ≡ fronts.Make seed → AskToMake (map string_bytes words.now) seed }
    ensures unwritten { ((mode : Mode) (file : List ℕ) → AskFor (map string_bytes words.now) mode file → mode ≡ modes.Run) → ((file : List ℕ) → ¬ AskToCheck (map string_bytes words.now) file) → (O.contents out.new ≡ O.contents out.old) × (O.faults out.new ≡ O.faults out.old) }

    // Where no file is named nothing is read, and where words are refused nothing is written.
    ensures unread { AreRefused (map string_bytes words.now) ⊎ ((seed : ℕ) × AskToMake (map string_bytes words.now) seed) → src.new ≡ src.old }
    ensures unasked { AreRefused (map string_bytes words.now) → out.new ≡ out.old }

    // What is told of a file is told of all its bytes.
    ensures whole { (mode : Mode) (file : List ℕ) → AskFor (map string_bytes words.now) mode file → IsLeftOfAllBytes result → IsWhollyRead (S.contents src.old file) (S.remaining src.new) }
    ensures check_whole { (file : List ℕ) → AskToCheck (map string_bytes words.now) file → IsLeftOfAllBytes result → IsWhollyReadTo MAX_RECORD (S.contents src.old file) (S.remaining src.new) }

    // Whose faults are answered.
    ensures cannot_read { (mode : Mode) (file : List ℕ) → AskFor (map string_bytes words.now) mode file → result ≡ fronts.Ended (statuses.Unread unreads.CannotRead) → ReadFailed (S.open_faults src.old file) (S.open_faults src.new file) (S.read_faults src.old) (S.read_faults src.new) }
    ensures check_cannot_read { (file : List ℕ) → AskToCheck (map string_bytes words.now) file → result ≡ fronts.Ended (statuses.Unread unreads.CannotRead) → ReadFailed (S.open_faults src.old file) (S.open_faults src.new file) (S.read_faults src.old) (S.read_faults src.new) }
    ensures cannot_write { result ≡ fronts.Ended (statuses.Failed faults.CannotWrite) → Rose (O.faults out.old) (O.faults out.new) }
    ensures started { result ≡ fronts.Ended (statuses.Failed faults.CannotStart) → ⊥ }

    // The one line on the error output.
    ensures says { (status : Status) → result ≡ fronts.Ended status → WritesOut (E.contents err.old) (E.contents err.new) (E.faults err.old) (E.faults err.new) (message_of (file_in (map string_bytes words.now)) status) }
    ensures silent { (plan : Plan) → result ≡ fronts.Run plan → (E.contents err.new ≡ E.contents err.old) × (E.faults err.new ≡ E.faults err.old) }
    ensures silent_making { (seed : ℕ) → result ≡ fronts.Make seed → (E.contents err.new ≡ E.contents err.old) × (E.faults err.new ≡ E.faults err.old) }

    // How many reads there are at most, and that no count falls.
    ensures reads { ((file : List ℕ) → ¬ AskToCheck (map string_bytes words.now) file) → S.reads src.new ≤ S.reads src.old + (MAX_INPUT + 1) }
    ensures check_reads { S.reads src.new ≤ S.reads src.old + (MAX_RECORD + 1) }
    ensures read_faults { S.read_faults src.old ≤ S.read_faults src.new }
    ensures open_faults { (name : List ℕ) → S.open_faults src.old name ≤ S.open_faults src.new name }
    ensures out_faults { O.faults out.old ≤ O.faults out.new }
    ensures err_faults { E.faults err.old ≤ E.faults err.new }
{
    match asked(alloc, words) {
        Ok(Request::File(Mode::Run, file)) => {
            match read_workload(alloc, Dialect::Runs, file, src) {
                Ok(workload) => Front::Run(workload),
                Err(why) => ended(err, file, Status::Unread(why)),
            }
        }
        Ok(Request::File(mode, file)) => {
            let status = on_one_thread(alloc, mode, file, src, out);
            ended(err, file, status)
        }
        Ok(Request::Make(seed)) => Front::Make(seed),
        Ok(Request::Check(file)) => {
            let status = judge(alloc, file, src, out);
            ended(err, file, status)
        }
        Err(WordsFault::Refused) => ended(err, "", Status::Usage),
        Err(WordsFault::Memory) => ended(err, "", Status::Unread(Unread::Memory)),
    }
}
