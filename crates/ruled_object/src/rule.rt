//! The rule of an object's table, and what each step on it tells.
ghost use Rattle.std.specs.Prelude.{◌≡◌, [], Option, None};
ghost use Rattle.sync_model.specs.declared.journal.Entry.{Entry};
ghost use Rattle.ruled_object.specs.declared.rule.Begin.{Begin};
ghost use Rattle.ruled_object.specs.Rule.{Kept};
ghost use Rattle.ruled_object.specs.Steps.{first_view, blank, made, deepened, raised, gave, dealt, kept, joined, TakesWord, TakesRest, IfBegun};

use crate::cell::Cell;
use crate::view::View;
use atomic_table::{Join, Play, Split, TableRule};
use std::marker::{Brand, PhantomData};
use sync_model::{Note, Worded};

/// How an object began.
#[derive(Drop)]
pub struct Begin<S, N> {
    pub state: S,
    pub note: N,
    pub callers: u32,
}

/// The rule of the objects of a machine.
pub struct Turns<M, N> {
    marker: PhantomData<(M, N)>,
}

impl<M: Worded, N: Note> TableRule<
    Option<Cell<M::State, N>>,
    View<M::Event, M::Reply>,
    Begin<M::State, N>,
> for Turns<M, N> {
    ghost holds = { Kept M.next M.HALTS M.frees M.takes N.front N.at M.tells M.means };

    ghost first = { λ begin. first_view begin.callers };
}

/// How the object began, for proofs: a step can't read it off the table. A call at `Brand` picks it.
pub(crate) trait Origin<S, N> {
    ghost begun: { Option (Begin S N) };
}

impl<S, N> Origin<S, N> for Brand {
    ghost begun = { None };
}

/// The entry that a step adds to the history, for proofs. A call at `Brand` picks it.
pub(crate) trait Told<E, R> {
    ghost entry: { Option (Entry E R) };
}

impl<E, R> Told<E, R> for Brand {
    ghost entry = { None };
}

/// The word goes back with no entry.
pub(crate) struct Silent;

impl<E, R> Told<E, R> for Silent {
    ghost entry = { None };
}

/// The making seat takes the empty slot.
pub(crate) struct Make;

impl<S, N, E, R> Play<Option<Cell<S, N>>, View<E, R>> for Make {
    ghost then = { λ step before found after. made before after };
}

/// A seat takes the word, and the cell, where nobody has it.
pub(crate) struct Take<M, N, K> {
    marker: PhantomData<(M, N, K)>,
}

impl<M: Worded, N: Note, K: Origin<M::State, N>> Play<
    Option<Cell<M::State, N>>,
    View<M::Event, M::Reply>,
> for Take<M, N, K> {
    ghost then = { λ step before found after. IfBegun K.begun (λ begin. TakesWord M.next M.HALTS M.frees M.takes N.front N.at M.tells M.means begin step.first before found after) };
}

/// The seat that stands for all callers takes the word, which nobody has.
pub(crate) struct TakeRest<M, N, K> {
    marker: PhantomData<(M, N, K)>,
}

impl<M: Worded, N: Note, K: Origin<M::State, N>> Play<
    Option<Cell<M::State, N>>,
    View<M::Event, M::Reply>,
> for TakeRest<M, N, K> {
    ghost then = { λ step before found after. IfBegun K.begun (λ begin. TakesRest M.next M.HALTS M.frees M.takes N.front N.at M.tells M.means begin found before after) };
}

/// A seat that has the word takes the turn, and counts it.
pub(crate) struct Deepen;

impl<S, N, E, R> Play<Option<Cell<S, N>>, View<E, R>> for Deepen {
    ghost then = { λ step before found after. after ≡ (deepened before.0, before.1) };
}

/// A seat gives the turn back, and has the word still.
pub(crate) struct Raise;

impl<S, N, E, R> Play<Option<Cell<S, N>>, View<E, R>> for Raise {
    ghost then = { λ step before found after. after ≡ (raised before.0, before.1) };
}

/// A seat gives the word and the cell back. This step places the event.
pub(crate) struct Give<T> {
    marker: PhantomData<T>,
}

impl<S, N, E, R, T: Told<E, R>> Play<Option<Cell<S, N>>, View<E, R>> for Give<T> {
    ghost then = { λ step before found after. after ≡ (gave before.0 T.entry, []) };
}

/// A new seat knows nothing.
pub(crate) struct Come;

impl<S, N, E, R> Play<Option<Cell<S, N>>, View<E, R>> for Come {
    ghost then = { λ step before found after. after.0 ≡ blank };
}

/// A seat lets the first of its callers go to a seat of its own.
pub(crate) struct Deal;

impl<E, R> Split<View<E, R>> for Deal {
    ghost left = { kept };

    ghost right = { dealt };
}

/// A seat takes in the callers of another.
pub(crate) struct Gather;

impl<E, R> Join<View<E, R>> for Gather {
    ghost both = { joined };

    ghost spent = { blank };
}
