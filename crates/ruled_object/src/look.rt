//! Steps that cost one load of the word and leave the table as it is: a copy, and a look.
ghost use Rattle.std.specs.Prelude.{◌≡◌, List, [], Some};
ghost use Rattle.sync_model.specs.declared.journal.Entry.{Entry};
ghost use Rattle.ruled_object.specs.declared.view.Stage.TheVariants.{Idle};
ghost use Rattle.ruled_object.specs.Looks.{copied, looked, Finds, LooksAt, SaysSo};
ghost use Rattle.ruled_object.specs.Steps.{IfBegun, IsSameSeat};

use crate::cell::Cell;
use crate::object::Object;
use crate::rule::Origin;
use crate::turn::{SeatOf, WORD};
use crate::view::View;
use atomic_table::{Play, Split};
use std::marker::PhantomData;
use sync_model::{Note, Worded};

/// A new seat has seen what another has, which stays as it is.
pub(crate) struct Copied;

impl<E, R> Split<View<E, R>> for Copied {
    ghost left = { λ view. view };

    ghost right = { copied };
}

/// A seat has seen all of the history, whoever has it.
pub(crate) struct Look<M, N, K> {
    marker: PhantomData<(M, N, K)>,
}

impl<M: Worded, N: Note, K: Origin<M::State, N>> Play<
    Option<Cell<M::State, N>>,
    View<M::Event, M::Reply>,
> for Look<M, N, K> {
    ghost then = { λ step before found after. IfBegun K.begun (λ begin. LooksAt M.next M.HALTS M.frees M.takes N.front N.at M.tells M.means begin before found after) };
}

impl<M: Worded, N: Note> Object<M, N> {
    // A seat that has seen what this one has, and stands for nobody.
    pub(crate) fn copy_of(&self, seat: &mut SeatOf<M, N>) -> SeatOf<M, N>
        requires seat { seat.old.table_id ≡ self.now.table.shared.table_id }
        ensures seat { IsSameSeat seat.old seat.new × (seat.new.me ≡ seat.old.me) }
        ensures copy { (result.table_id ≡ self.now.table.shared.table_id) × (result.me ≡ (copied seat.old.me.0, [])) }
    {
        self.table.shared.split_seat::<Copied>(seat)
    }

    // The seat, which hasn't it, looks at the word.
    pub(crate) fn look<K: Origin<M::State, N>>(&self, seat: &mut SeatOf<M, N>) -> u64
        requires begun { K.begun ≡ Some self.now.table.shared.key }
        requires seat { (seat.old.table_id ≡ self.now.table.shared.table_id) × (seat.old.me.0.stage ≡ Idle) }
        ensures seat { IsSameSeat seat.old seat.new }
        ensures looked { (journal : List (Entry M.Event M.Reply)) × (seat.new.me ≡ (looked seat.old.me.0 journal, seat.old.me.1)) × Finds M.next M.HALTS M.frees M.takes N.front N.at M.tells M.means self.now.table.shared.key seat.old.me.0 journal × SaysSo M.next M.tells self.now.table.shared.key.state result journal seat.new.me.0 }
    {
        self.table.shared.load::<Look<M, N, K>>(seat, WORD)
    }
}
