//! The note of a caller of plain maps and atomics: its own pass, which has seen what the caller knows.
ghost use Rattle.shared_plain.specs.Marks.{front_by, own_by, IsMarkOf};
ghost use Rattle.shared_plain.specs.Counting.{is_counted};

use crate::machine::PlainMachine;
use crate::plain::Plain;
use ruled_object::PassOf;
use stamps::Stamp;
use sync_model::{CallerNote, NoNote, Note};

/// What a caller knows of all shared calls: as much of the one history as it has seen.
#[derive(Drop)]
pub struct Mark {
    pub(crate) pass: PassOf<PlainMachine, NoNote>,
    pub(crate) callers: u32,
    pub(crate) spare: u32,
    pub(crate) stamp: Stamp,
    // How many shared calls the caller made; it stays at the type's last value.
    pub(crate) done: u64,
}

impl Note for Mark {
    type Home = Plain;

    ghost front = { front_by };

    ghost own = { own_by };

    ghost at = { IsMarkOf };

    fn copy(&mut self, home: &Plain) -> Self {
        Mark {
            pass: home.object.copy(&mut self.pass),
            callers: self.callers,
            spare: 0,
            stamp: self.stamp.same(),
            done: 0,
        }
    }

    fn merge(&mut self, home: &Plain, other: Self) {
        let Mark { pass, .. } = other;
        home.object.merge(&mut self.pass, pass);
    }

    fn meet(&mut self, other: &mut Self) {
        self.stamp.meet(&mut other.stamp);
    }

    ghost counted = { is_counted };
}

impl CallerNote for Mark {
    fn number(&self) -> u32 {
        self.pass.number()
    }

    fn spare(&self) -> u32 {
        self.spare
    }
}
