//! The word of an object, and its turn: who has the word may make an event, and who has the turn too may change the
//! machine's state.
ghost use Rattle.std.specs.Prelude.{◌≡◌, ◌<◌, ◌^◌, [], Some, length};
ghost use Rattle.ruled_object.specs.declared.view.Stage.TheVariants.{Idle, Taken, Deep};
ghost use Rattle.ruled_object.specs.Steps.{gave, deepened, raised, HasCell, MayGive, TakesRest, IsSameSeat};

use crate::cell::Cell;
use crate::object::Object;
use crate::rule::{Deepen, Give, Origin, Raise, Take, TakeRest, Told};
use crate::view::View;
use atomic_table::Seat;
use std::sync::Wait;
use std::thread;
use sync_model::{Deed, HELD, Machine, Note, Worded};

/// A seat at the table of an object.
pub(crate) type SeatOf<M, N> = Seat<
    Option<Cell<<M as Machine>::State, N>>,
    View<<M as Machine>::Event, <M as Machine>::Reply>,
>;

/// The word that tells of the machine's state. Its bit `HELD` is set while a seat has it.
pub(crate) const WORD: usize = 0;

/// The word that counts the steps that take the turn and give it back. No other step is made on it, so it only rises: one
/// that lowered it would undo a turn, which the rule, a fact about one moment, can't refuse.
const TURN: usize = 1;

/// The slot of the cell.
pub(crate) const SLOT: usize = 0;

impl<M: Worded, N: Note> Object<M, N> {
    // What the word may be while nobody has it: what it was just now, without its highest bit.
    #[inline(always)]
    fn guess(&self) -> u64
        ensures { result < 2 ^ 63 }
    {
        if !M::TELLS {
            return 0;
        }
        self.table.shared.peek(WORD) % HELD
    }

    // Waits for the word, and gives what it told. The seat then has the slot, and the cell stays where it lies.
    #[inline(always)]
    pub(crate) fn take_word<K: Origin<M::State, N>, R: Wait>(
        &self,
        rt: &R,
        seat: &mut SeatOf<M, N>,
    ) -> u64
        requires begun { K.begun ≡ Some self.now.table.shared.key }
        requires seat { (seat.old.table_id ≡ self.now.table.shared.table_id) × (seat.old.me.1 ≡ []) × (0 < length seat.old.me.0.owns) }
        ensures seat { IsSameSeat seat.old seat.new }
        ensures takes { TakesRest M.next M.HALTS M.frees M.takes N.front N.at M.tells M.means self.now.table.shared.key result seat.old.me seat.new.me }
    {
        let shared = &self.table.shared;
        for _ in rt.forever() {
            let word = self.guess();
            if shared.compare_exchange::<Take<M, N, K>>(seat, WORD, word, word + HELD) == word {
                return word;
            }
            thread::yield_now();
        }
        unreachable!()
    }

    // Takes the word for a seat that stands for all callers, so that nobody has it, and gives what it told.
    pub(crate) fn take_rest<K: Origin<M::State, N>>(&self, seat: &mut SeatOf<M, N>) -> u64
        requires begun { K.begun ≡ Some self.now.table.shared.key }
        requires seat { (seat.old.table_id ≡ self.now.table.shared.table_id) × (seat.old.me.1 ≡ []) }
        requires all { (seat.old.me.0.stage ≡ Idle) × (seat.old.me.0.number ≡ 0) × (length seat.old.me.0.owns ≡ self.now.table.shared.key.callers) }
        ensures seat { IsSameSeat seat.old seat.new }
        ensures takes { TakesRest M.next M.HALTS M.frees M.takes N.front N.at M.tells M.means self.now.table.shared.key result seat.old.me seat.new.me }
    {
        self.table
            .shared
            .swap::<TakeRest<M, N, K>>(seat, WORD, HELD)
    }

    // Takes the turn, which nobody else has, since the seat has the word. Its first caller counts it.
    #[inline(always)]
    pub(crate) fn take_turn(&self, seat: &mut SeatOf<M, N>)
        requires seat { (seat.old.table_id ≡ self.now.table.shared.table_id) × (seat.old.me.0.stage ≡ Taken) × (0 < length seat.old.me.0.owns) }
        ensures seat { IsSameSeat seat.old seat.new }
        ensures took { seat.new.me ≡ (deepened seat.old.me.0, seat.old.me.1) }
    {
        self.table.shared.fetch_add::<Deepen>(seat, TURN, 1);
    }

    // Gives the turn back. The seat has the word still.
    #[inline(always)]
    pub(crate) fn give_turn(&self, seat: &mut SeatOf<M, N>)
        requires seat { (seat.old.table_id ≡ self.now.table.shared.table_id) × (seat.old.me.0.stage ≡ Deep) × (0 < length seat.old.me.0.owns) }
        ensures seat { IsSameSeat seat.old seat.new }
        ensures gave { seat.new.me ≡ (raised seat.old.me.0, seat.old.me.1) }
    {
        self.table.shared.fetch_add::<Raise>(seat, TURN, 1);
    }

    // Gives the word back with this value, and with it the slot and the cell that lies in it. The entry that this adds is
    // picked by the caller.
    #[inline(always)]
    pub(crate) fn give_word<T: Told<M::Event, M::Reply>>(&self, seat: &mut SeatOf<M, N>, word: u64)
        requires seat { (seat.old.table_id ≡ self.now.table.shared.table_id) × (seat.old.me.0.stage ≡ Taken) × (0 < length seat.old.me.0.owns) }
        requires free { word < 2 ^ 63 }
        requires may { HasCell seat.old.me (MayGive M.next M.HALTS M.frees M.takes N.front N.at M.tells M.means self.now.table.shared.key seat.old.me.0 T.entry word) }
        ensures seat { IsSameSeat seat.old seat.new }
        ensures gave { seat.new.me ≡ (gave seat.old.me.0 T.entry, []) }
    {
        self.table.shared.store::<Give<T>>(seat, WORD, word);
    }

    // The same, with all that the entry is made of, from which the caller picks it.
    #[inline(always)]
    pub(crate) fn give_entry<T: Told<M::Event, M::Reply>>(
        &self,
        seat: &mut SeatOf<M, N>,
        word: u64,
        _caller: u32,
        _deed: &Deed<M::Event, M::Reply>,
        _note: &N,
    )
        requires seat { (seat.old.table_id ≡ self.now.table.shared.table_id) × (seat.old.me.0.stage ≡ Taken) × (0 < length seat.old.me.0.owns) }
        requires free { word < 2 ^ 63 }
        requires may { HasCell seat.old.me (MayGive M.next M.HALTS M.frees M.takes N.front N.at M.tells M.means self.now.table.shared.key seat.old.me.0 T.entry word) }
        ensures seat { IsSameSeat seat.old seat.new }
        ensures gave { seat.new.me ≡ (gave seat.old.me.0 T.entry, []) }
    {
        self.give_word::<T>(seat, word);
    }
}
