//! What one line of a text says.
ghost use Rattle.std.specs.Prelude.{◌≡◌};

use crate::object::ObjectLine;
use crate::turn::Turn;
use script_calls::Call;
use std::marker::Model;
use sync_types::{Name, Seq};

/// A name where it stands in the text, which takes no memory.
#[derive(Drop)]
pub struct NameWord<'a> {
    bytes: &'a [u8],
}

impl<'a> Model for NameWord<'a> {
    ghost use Rattle.std.specs.Prelude.{ℕ, List};

    ghost Value = { List ℕ };

    ghost view = { λ word. word.bytes.now };
}

impl<'a> NameWord<'a> {
    /// The name with these bytes.
    pub fn new(bytes: &'a [u8]) -> Self
        ensures { result ≡ bytes.now }
    {
        NameWord { bytes }
    }
}

/// What a line behind the `workers` line says.
#[derive(Drop)]
pub enum Line<'a> {
    /// Declares an object, with the name of the object to which it refers, if it does.
    Object(ObjectLine, Option<Name>),
    /// This worker waits to be started.
    Dormant(u32),
    /// The calls that follow are this worker's.
    Worker(u32),
    /// More items of the schedule.
    Schedule(Seq<Turn>),
    /// The next call of the worker named last, with the name of its object and that of a second one, if it names one.
    Call(NameWord<'a>, Option<Name>, Call),
}
