//! Dealing the passes of an object to its workers, and collecting them.
ghost use Rattle.std.specs.Prelude.{◌≡◌, ◌+◌, ◌<◌, [], ◌∷◌, ◌++◌};
ghost use Rattle.thread_objects.specs.ByKind.{passes_in};
ghost use Rattle.thread_objects.specs.Columns.{IsColumnOf};
ghost use Rattle.thread_objects.specs.Dealing.{Adds, HasLast, HasRoomFor, Takes};
ghost use Rattle.thread_objects.specs.Passes.{IsSeatAt};

use crate::by_kind::{adding_arms, all_kinds, taking_arms, with_kinds};
use crate::column::AnyColumn;
use crate::crew::Crew;
use crate::object::AnyObject;
use crate::pass::AnyPass;
use sync_model::Note;

/// Takes the pass of the last worker that has one here.
pub(crate) fn take_last<N: Note>(
    _crew: &Crew<N>,
    _worker: u32,
    _object: &AnyObject<N>,
    column: &mut AnyColumn<N>,
) -> AnyPass<N>
    requires column { IsColumnOf N.at _crew.now.home.now _crew.now.workers (_worker + 1) _object.now column.old }
    ensures seat { IsSeatAt N.at _crew.now.home.now _crew.now.workers _worker _object.now result }
    ensures column { IsColumnOf N.at _crew.now.home.now _crew.now.workers _worker _object.now column.new }
    ensures passes { passes_in column.old ≡ passes_in column.new ++ result ∷ [] }
{
    take(column)
}

/// Adds the pass of the next worker. It takes no memory.
pub(crate) fn put<N: Note>(
    crew: &Crew<N>,
    _worker: u32,
    _object: &AnyObject<N>,
    column: &mut AnyColumn<N>,
    pass: AnyPass<N>,
)
    requires worker { _worker < crew.now.workers }
    requires column { IsColumnOf N.at crew.now.home.now crew.now.workers _worker _object.now column.old }
    requires seat { IsSeatAt N.at crew.now.home.now crew.now.workers _worker _object.now pass }
    ensures column { IsColumnOf N.at crew.now.home.now crew.now.workers (_worker + 1) _object.now column.new }
    ensures passes { passes_in column.new ≡ passes_in column.old ++ pass ∷ [] }
{
    let _workers = crew.workers;
    add(column, pass);
}

// Takes a column's last pass.
fn take<N: Note>(column: &mut AnyColumn<N>) -> AnyPass<N>
    requires { HasLast column.old }
    ensures taken { Takes column.old column.new result }
    ensures passes { passes_in column.old ≡ passes_in column.new ++ result ∷ [] }
{
    with_kinds!(
        all_kinds,
        taking_arms,
        column,
        |count| {
            *count -= 1;
            AnyPass::None
        },
        |passes| passes.take_last()
    )
}

// Adds a pass to a column.
fn add<N: Note>(column: &mut AnyColumn<N>, pass: AnyPass<N>)
    requires { HasRoomFor column.old pass }
    ensures added { Adds column.old column.new pass }
    ensures passes { passes_in column.new ≡ passes_in column.old ++ pass ∷ [] }
{
    with_kinds!(
        all_kinds,
        adding_arms,
        column,
        pass,
        |count| *count += 1,
        |passes, pass| passes.push_reserved(pass)
    )
}
