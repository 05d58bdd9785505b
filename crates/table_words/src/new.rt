//! New tables.
ghost use Rattle.std.specs.Prelude.{◌≡◌, ◌+◌, ◌^◌, ◌<◌, [], IfOk, sum};
ghost use Rattle.table_words.specs.Blank.{IsBlank};
ghost use Rattle.table_rule.specs.Layout.{first_room, IsBegin};
ghost use Rattle.table_words.specs.Seats.{begin_of, IsSeatOf};
ghost use Rattle.table_rule.specs.Views.{first_view};

use crate::laws::history_laws;
use crate::words::TableWords;
use atomic_table::{Seat, Table};
use std::alloc::{AllocError, Global};
use table_rule::begin::Begin;
use table_rule::view::View;
use trie_nodes::UNIT_WORDS;

impl TableWords {
    /// The words of empty maps and of atomics that are 0 or false, and one seat for all callers. While they are made they stand
    /// in memory twice.
    pub fn new(alloc: Global, begin: Begin) -> Result<(Self, Seat<(), View>), AllocError>
        requires begin { IsBegin begin }
        ensures begin { IfOk result (λ made. begin_of made.0 ≡ begin) }
        ensures seat { IfOk result (λ made. IsSeatOf made.0 made.1 × (made.1.me ≡ (first_view begin, []))) }
    {
        history_laws();
        let words = first_words(alloc, &begin)?;
        let (table, all) = Table::of_words(alloc, words.as_slice(), &begin)?;
        Ok((TableWords { table, begin }, all))
    }

    /// How many units of room each caller has at the start.
    pub fn spare_units(&self) -> &[u32]
        ensures { result.now ≡ (begin_of self.now).spares }
    {
        self.begin.spares.as_slice()
    }

    /// What the hash of a key is made with.
    pub fn seed(&self) -> u32
        ensures { result ≡ (begin_of self.now).seed }
    {
        self.begin.seed
    }

    /// Where the callers' rooms begin.
    pub fn room_start(&self) -> u64
        ensures { result ≡ first_room (begin_of self.now) }
    {
        self.begin.layout().first_room() as u64
    }
}

// How many units all callers have.
fn units_of(spares: &[u32]) -> u32
    requires { sum spares.now < 2 ^ 32 }
    ensures { result ≡ sum spares.now }
{
    spares.iter().sum()
}

// The words of a new table.
fn first_words(alloc: Global, begin: &Begin) -> Result<Vec<u64>, AllocError>
    requires begin { IsBegin begin.now }
    ensures { IfOk result (λ words. IsBlank begin.now words.items) }
{
    let layout = begin.layout();
    let units = units_of(begin.spares.as_slice());
    let mut words = Vec::from_elem(alloc, 0, layout.first_room() + UNIT_WORDS * units as usize)?;
    for map in 0..begin.maps {
        words[layout.root_word(map)] = layout.first_root(map) as u64;
    }
    Ok(words)
}
