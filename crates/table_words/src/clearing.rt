//! The steps of a seat that clears a map: it closes the gate of the map's writers, looks whether one is inside, writes a new
//! empty root into the map's root word, and opens the gate. Lookups go on all the while, in the new nodes or in the old ones.
ghost use Rattle.std.specs.Prelude.{◌≡◌, ◌<◌, true, false, None, MatchBool};
ghost use Rattle.table_rule.specs.declared.view.Gate.TheVariants.{Outside, Closed};
ghost use Rattle.table_rule.specs.Clearing.{HasClosed, Clears};
ghost use Rattle.table_rule.specs.Making.{HasUnit};
ghost use Rattle.table_words.specs.Seats.{begin_of, IsSeatOf};
ghost use Rattle.table_rule.specs.Walking.{IsFree};
ghost use Rattle.table_rule.specs.Views.{at_time};
ghost use Rattle.table_rule.specs.Writing.{holding, HasRoomWithin};

use crate::laws::history_laws;
use crate::words::TableWords;
use atomic_table::Seat;
use stamps::Stamp;
use std::marker::Brand;
use std::sync::Wait;
use table_rule::clearing::{Close, LookInside, Open, WriteRoot};
use table_rule::subject::{Timed, Way};
use table_rule::view::View;

// The word of a gate that is closed, where no writer is inside.
const CLOSED: u64 = 1 << 32;

impl TableWords {
    /// Tries to close the map's gate, for a caller whose last event has this number. It doesn't where another has closed it, or passed it just then. Only a call that may wait
    /// closes it, so no load does.
    pub fn try_close<R: Wait>(
        &self,
        _rt: &R,
        seat: &mut Seat<(), View>,
        map: u32,
        _time: Stamp,
    ) -> bool
        requires table { IsSeatOf self.now seat.old }
        requires free { IsFree (begin_of self.now) seat.old.me }
        requires map { map < (begin_of self.now).maps }
        ensures table { seat.new.table_id ≡ seat.old.table_id }
        ensures slots { seat.new.me.1 ≡ seat.old.me.1 }
        ensures closed { MatchBool result (seat.new.me.0 ≡ holding (at_time seat.old.me.0 _time.time) (Closed map false) None None) (seat.new.me.0 ≡ seat.old.me.0) }
    {
        self.close_as::<Brand>(seat, map, _time)
    }

    // The same, at a map that is told by a type.
    fn close_as<W: Way + Timed>(&self, seat: &mut Seat<(), View>, map: u32, _time: Stamp) -> bool
        requires table { IsSeatOf self.now seat.old }
        requires free { IsFree (begin_of self.now) seat.old.me }
        requires map { map < (begin_of self.now).maps }
        requires told { W.map ≡ map }
        ensures table { seat.new.table_id ≡ seat.old.table_id }
        ensures slots { seat.new.me.1 ≡ seat.old.me.1 }
        ensures closed { MatchBool result (seat.new.me.0 ≡ holding (at_time seat.old.me.0 W.time) (Closed map false) None None) (seat.new.me.0 ≡ seat.old.me.0) }
    {
        history_laws();
        let word = self.gate_word(map);
        let shared = &self.table.shared;
        let writers = shared.peek(word);
        if writers >= CLOSED {
            return false;
        }
        shared.compare_exchange::<Close<W>>(seat, word, writers, writers + CLOSED) == writers
    }

    /// Whether no writer is inside the gate that the seat has closed.
    pub fn look_inside(&self, seat: &mut Seat<(), View>, map: u32) -> bool
        requires table { IsSeatOf self.now seat.old }
        requires closed { HasClosed (begin_of self.now) seat.old.me map false }
        requires map { map < (begin_of self.now).maps }
        ensures table { seat.new.table_id ≡ seat.old.table_id }
        ensures slots { seat.new.me.1 ≡ seat.old.me.1 }
        ensures alone { MatchBool result (seat.new.me.0 ≡ holding seat.old.me.0 (Closed map true) None None) (seat.new.me.0 ≡ seat.old.me.0) }
    {
        self.look_inside_as::<Brand>(seat, map)
    }

    // The same, at a map that is told by a type.
    fn look_inside_as<W: Way>(&self, seat: &mut Seat<(), View>, map: u32) -> bool
        requires table { IsSeatOf self.now seat.old }
        requires closed { HasClosed (begin_of self.now) seat.old.me map false }
        requires map { map < (begin_of self.now).maps }
        requires told { W.map ≡ map }
        ensures table { seat.new.table_id ≡ seat.old.table_id }
        ensures slots { seat.new.me.1 ≡ seat.old.me.1 }
        ensures alone { MatchBool result (seat.new.me.0 ≡ holding seat.old.me.0 (Closed map true) None None) (seat.new.me.0 ≡ seat.old.me.0) }
    {
        history_laws();
        let word = self.gate_word(map);
        self.table.shared.load::<LookInside<W>>(seat, word) == CLOSED
    }

    /// Writes a new empty root of the map, in the caller's own room, where nothing is drafted.
    pub fn replace_root(&self, seat: &mut Seat<(), View>, map: u32, next: u64)
        requires table { IsSeatOf self.now seat.old }
        requires closed { HasClosed (begin_of self.now) seat.old.me map true }
        requires unit { HasUnit seat.old.me.0.owns next }
        requires map { map < (begin_of self.now).maps }
        ensures table { seat.new.table_id ≡ seat.old.table_id }
        ensures cleared { Clears map seat.old.me seat.new.me }
    {
        self.replace_root_as::<Brand>(seat, map, next)
    }

    // The same, at a map that is told by a type.
    fn replace_root_as<W: Way>(&self, seat: &mut Seat<(), View>, map: u32, next: u64)
        requires table { IsSeatOf self.now seat.old }
        requires closed { HasClosed (begin_of self.now) seat.old.me map true }
        requires unit { HasUnit seat.old.me.0.owns next }
        requires map { map < (begin_of self.now).maps }
        requires told { W.map ≡ map }
        ensures table { seat.new.table_id ≡ seat.old.table_id }
        ensures cleared { Clears map seat.old.me seat.new.me }
    {
        history_laws();
        let word = self.root_word(map);
        self.table.shared.store::<WriteRoot<W>>(seat, word, next);
    }

    /// Opens the gate that the seat has closed, where no writer is inside.
    pub fn open(&self, seat: &mut Seat<(), View>, map: u32)
        requires table { IsSeatOf self.now seat.old }
        requires closed { HasClosed (begin_of self.now) seat.old.me map true }
        requires map { map < (begin_of self.now).maps }
        ensures table { seat.new.table_id ≡ seat.old.table_id }
        ensures opened { (seat.new.me.1 ≡ seat.old.me.1) × (seat.new.me.0 ≡ holding seat.old.me.0 Outside None None) }
        ensures room { HasRoomWithin seat.old.me.0 }
    {
        history_laws();
        let word = self.gate_word(map);
        self.table.shared.store::<Open>(seat, word, 0);
    }
}
