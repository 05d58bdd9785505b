//! What a report and the line on the error output tell together.
ghost use Rattle.workload.specs.Plan.{Plan};
ghost use Rattle.workload.specs.Readable.{IsReadable};
ghost use Rattle.gosync_call.specs.Told.{MessageTellsTheEnding};

use run_report::laws::a_report_tells_what_is_left;

/// A report doesn't tell which of the three endings it was. The line on the error output does, and which misuse: two outcomes of one
/// workload that have one report and one such line are equal.
pub fn a_message_tells_the_ending()
    ensures { (plan : Plan) → IsReadable plan → MessageTellsTheEnding plan }
{
    a_report_tells_what_is_left();
}
