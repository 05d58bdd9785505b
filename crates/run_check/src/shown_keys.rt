//! The keys that the cursors of a claim show.
ghost use Rattle.std.specs.Prelude.{◌≡◌, ℕ};
ghost use Rattle.workload.specs.Keys.{keys_in};
ghost use Rattle.run_record.specs.Record.{calls_of};
ghost use Rattle.record_text.specs.Told.{Told};
ghost use Rattle.record_clauses.specs.Account.{Account, Claim, record_of};
ghost use Rattle.record_clauses.specs.Clauses.{HasRanges, IsLegallyPlaced};
ghost use Rattle.record_clauses.specs.PairOrder.{ShowKeys};
ghost use Rattle.run_check.specs.Tells.{Tells};

use sync_types::laws::maps::{calls_leave_other_keys, only_a_clear_has_no_key};
use workload::laws::keys_are_numbered_by_first_appearance;

/// A cursor that keeps the Range law shows no key but the workload's: each call on a map is one of a script, so no map ever has another.
pub(crate) fn a_cursor_shows_the_workloads_keys()
    ensures { (told : Told) (claim : Claim) (account : Account) (worker : ℕ) → Tells told claim → IsLegallyPlaced claim account → HasRanges claim account
        → ShowKeys (keys_in claim.plan.scripts) (calls_of (record_of claim account) worker) }
{
    calls_leave_other_keys::<u32>();
    only_a_clear_has_no_key::<u32>();
    keys_are_numbered_by_first_appearance();
}
