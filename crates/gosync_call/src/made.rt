//! The five lines of a made workload's run.
ghost use Rattle.std.specs.Prelude.{◌≡◌, ◌≤◌, OnOk, OnErr, vec_capacity};
ghost use Rattle.sync_outside.specs.Bytes.{Appends, AppendsFront};
ghost use Rattle.sync_outside.specs.Faults.{Rose};
ghost use Rattle.run_report.specs.Writes.{Wrote, WroteUpTo};
ghost use Rattle.gosync_call.specs.MadeText.{totals_text};

use made_workload::Totals;
use run_report::numbers::{NUMBER_ROOM, write_number_lines};
use sync_outside::{Failed, Sink};

/// Writes the five lines of what a run of a made workload came to, each by one write. It takes no memory: a line is made in the
/// buffer `line`.
pub fn write_totals<O: Sink>(totals: &Totals, line: &mut Vec<u8>, out: &mut O) -> Result<(), Failed>
    requires room { NUMBER_ROOM ≤ vec_capacity line.old }
    ensures ok { OnOk result (Appends (O.contents out.old) (O.contents out.new) (totals_text totals.now)) }
    ensures err { OnErr result (AppendsFront (O.contents out.old) (O.contents out.new) (totals_text totals.now)) }
    ensures writes { OnOk result (Wrote (O.writes out.old) (O.writes out.new) 5) }
    ensures cut { OnErr result (WroteUpTo (O.writes out.old) (O.writes out.new) 5) }
    ensures failed { OnErr result (Rose (O.faults out.old) (O.faults out.new)) }
    ensures faults { O.faults out.old ≤ O.faults out.new }
{
    write_number_lines(
        &[
            (b"workers".as_slice(), totals.workers),
            (b"calls".as_slice(), totals.calls),
            (b"total".as_slice(), totals.total),
            (b"keys".as_slice(), totals.keys),
            (b"sum".as_slice(), totals.sum),
        ],
        line,
        out,
    )
}
