//! What the contracts speak of by name.
ghost use Rattle.std.specs.Prelude.{◌≡◌, pos, false, Contains, Result};
ghost use Rattle.sync_model.specs.declared.answer.Answer.{Answer};
ghost use Rattle.sync_model.specs.declared.journal.Deed.TheVariants.{Event};
ghost use Rattle.wait_cores.specs.declared.once.OnceEvent.TheVariants.{End};
ghost use Rattle.wait_cores.specs.declared.once.OnceReply.{OnceReply};
ghost use Rattle.ruled_object.specs.Standing.{stand_by};
ghost use Rattle.protocols.specs.OnceStages.{once_stands};
ghost use Rattle.go_waits.specs.declared.once_run.OnceRun.{OnceRun};
ghost use Rattle.go_waits.specs.OnceCalls.{OnceDeeds, Gives};
ghost use Rattle.go_waits.specs.OnceRuns.{Runs};
ghost use Rattle.go_waits.specs.Onces.{OnceJournal, waits_by, runs_by};

use crate::group::MAX_START;
use crate::keeps::Keeps;

/// The highest counter that a wait group starts with, by its number.
pub fn limits()
    ensures { MAX_START ≡ pos 10000 }
{}

/// Where a caller of a once stands, by its own entries: whether it waits, and whether it runs the function.
pub fn marks<T: Copy>()
    ensures { (own : OnceJournal T) → stand_by (false, false) once_stands own ≡ (waits_by own, runs_by own) }
{}

/// Each end that a `do_once` makes keeps what the once keeps of a result of its function. So the function has returned before.
pub fn an_end_tells_of_a_return<T: Copy, E, F: FnOnce() -> Result<(), E>>()
where
    T: Keeps<Result<(), E>>,
    ensures { (function : F) (deeds : OnceDeeds T) (answer : Answer (OnceRun E)) → Runs T.kept (F.post function) deeds answer
        → (value : T) (reply : OnceReply T) → Contains deeds (Event (End value) reply) → (outcome : Result Unit E) × F.post function outcome × (value ≡ T.kept outcome) }
{}

/// Each end that a call of a stored function makes keeps a result of the function. So the function has returned before.
pub fn an_end_keeps_a_result<T: Copy, F: FnOnce() -> T>()
    ensures { (function : F) (deeds : OnceDeeds T) (answer : Answer T) → Gives (F.post function) deeds answer
        → (value : T) (reply : OnceReply T) → Contains deeds (Event (End value) reply) → F.post function value }
{}
