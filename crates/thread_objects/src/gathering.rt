//! The journals of all objects of a run, once its workers have ended.
ghost use Rattle.std.specs.Prelude.{◌≡◌, ℕ, List, [], get_or};
ghost use Rattle.sync_model.specs.Journal.{by, halt_of};
ghost use Rattle.run_record.specs.Record.{ObjectEntry, stop};
ghost use Rattle.thread_objects.specs.AsDeclared.{AreDeclared};
ghost use Rattle.thread_objects.specs.Rows.{AreColumns, AreJournals, made_on};

use crate::column::AnyColumn;
use crate::crew::Crew;
use crate::first_halt::first_halt;
use crate::object::AnyObject;
use run_record::laws::numbers::parts_have_numbers_of_their_own;
use sync_model::Note;
use sync_types::Misuse;
use workload::Workload;

/// The misuse by which the run was ended: that of the first halt of Stop, and `None` exactly where Stop wasn't halted. It takes
/// all passes to all objects, of which object 0 is Stop, so that no call is under way, and adds no entry. The journals of the
/// objects are then known: each is one of its object as the workload declares it, and its entries are those that the
/// workers' passes have.
pub fn journals<N: Note>(
    crew: &Crew<N>,
    _workload: &Workload,
    objects: &[AnyObject<N>],
    columns: &mut [AnyColumn<N>],
) -> Option<Misuse>
    requires declared { AreDeclared N.at crew.now.home.now _workload.now objects.now }
    requires columns { AreColumns N.at crew.now.home.now crew.now.workers crew.now.workers objects.now columns.old }
    ensures journals { (journals : List (List ObjectEntry)) × AreJournals _workload.now journals × (result ≡ halt_of (get_or journals stop []))
        × ((object worker : ℕ) → made_on columns.old object worker ≡ by worker (get_or journals object [])) }
{
    parts_have_numbers_of_their_own();
    let stopped = first_halt(crew, &objects[0], &mut columns[0]);
    for number in 1..objects.len() {
        first_halt(crew, &objects[number], &mut columns[number]);
    }
    stopped
}
