//! The first halt of an object, once its workers have ended.
ghost use Rattle.thread_objects.specs.Columns.{IsColumnOf, IsFirstHalt};

use crate::by_kind::{all_kinds, arms, by_kind, with_kinds};
use crate::column::AnyColumn;
use crate::crew::Crew;
use crate::object::AnyObject;
use crate::seated::first_of;
use sync_model::Note;
use sync_types::Misuse;

/// The misuse by which an object of whatever kind was halted first, and `None` exactly where it wasn't halted. It takes the
/// passes of all workers, and adds no entry. A map and an atomic have no journal.
pub(crate) fn first_halt<N: Note>(
    crew: &Crew<N>,
    object: &AnyObject<N>,
    column: &mut AnyColumn<N>,
) -> Option<Misuse>
    requires column { IsColumnOf N.at crew.now.home.now crew.now.workers crew.now.workers object.now column.old }
    ensures column { IsColumnOf N.at crew.now.home.now crew.now.workers crew.now.workers object.now column.new }
    ensures history { IsFirstHalt object.now column.old result }
{
    by_kind!(
        object,
        AnyColumn(column),
        None,
        |object, passes| first_of(crew, object, passes)
    )
}
