//! Seats are copied, dealt out and joined, and look at the whole history. Each of these costs one step on a word, and waits for
//! nobody.
ghost use Rattle.std.specs.Prelude.{◌≡◌, ◌+◌, ◌<◌, true, [], length};
ghost use Rattle.sync_model.specs.Front.{AtLeast};
ghost use Rattle.table_words.specs.Seats.{begin_of, IsSeatOf};
ghost use Rattle.table_rule.specs.Views.{copied, dealt, joined, kept, IsIdle, Looks};

use crate::laws::history_laws;
use crate::words::TableWords;
use atomic_table::Seat;
use table_rule::copies::{Copied, Deal, Gather, Look};
use table_rule::view::View;

// The word that a look reads: it is always 0.
pub(crate) const ZERO: usize = 0;

impl TableWords {
    /// A new seat that knows what another knows, and stands for nobody.
    pub fn copy(&self, seat: &mut Seat<(), View>) -> Seat<(), View>
        requires table { IsSeatOf self.now seat.old }
        requires idle { (seat.old.me.0.live ≡ true) × IsIdle seat.old.me.0 }
        ensures seat { (seat.new.table_id ≡ seat.old.table_id) × (seat.new.id ≡ seat.old.id) × (seat.new.me ≡ seat.old.me) }
        ensures copied { IsSeatOf self.now result × (result.me ≡ (copied seat.old.me.0, [])) }
    {
        self.table.shared.split_seat::<Copied>(seat)
    }

    /// A seat of its own for the first caller that a seat stands for. The seat keeps the others.
    pub fn deal(&self, all: &mut Seat<(), View>) -> Seat<(), View>
        requires table { IsSeatOf self.now all.old }
        requires idle { (all.old.me.0.live ≡ true) × IsIdle all.old.me.0 }
        requires some { 0 < length all.old.me.0.owns }
        ensures all { (all.new.table_id ≡ all.old.table_id) × (all.new.me ≡ (kept all.old.me.0, all.old.me.1)) }
        ensures dealt { IsSeatOf self.now result × (result.me ≡ (dealt all.old.me.0, [])) }
    {
        self.table.shared.split_seat::<Deal>(all)
    }

    /// A seat takes in another, and stands for its callers too, which come behind its own. It knows all that both knew.
    pub fn join(&self, seat: &mut Seat<(), View>, other: Seat<(), View>)
        requires table { IsSeatOf self.now seat.old × IsSeatOf self.now other }
        requires live { (seat.old.me.0.live ≡ true) × (other.me.0.live ≡ true) }
        requires idle { IsIdle other.me.0 × (other.me.1 ≡ []) }
        requires next { 0 < length other.me.0.owns → seat.old.me.0.number + length seat.old.me.0.owns ≡ other.me.0.number }
        ensures joined { (seat.new.table_id ≡ seat.old.table_id) × (seat.new.me ≡ (joined seat.old.me.0 other.me.0, seat.old.me.1)) }
        ensures knows { AtLeast seat.new.me.0.front seat.old.me.0.front × AtLeast seat.new.me.0.front other.me.0.front }
    {
        history_laws();
        self.table.shared.join_seat::<Gather>(seat, other);
    }

    /// A seat looks at the whole history.
    pub fn look_at_all(&self, seat: &mut Seat<(), View>)
        requires table { IsSeatOf self.now seat.old }
        requires live { (seat.old.me.0.live ≡ true) × (seat.old.me.0.begin ≡ begin_of self.now) }
        ensures table { seat.new.table_id ≡ seat.old.table_id }
        ensures looks { (seat.new.me.1 ≡ seat.old.me.1) × Looks seat.old.me.0 seat.new.me.0 }
    {
        history_laws();
        self.table.shared.load::<Look>(seat, ZERO);
    }
}
