//! Runs of a machine by the rows of a table: each is an event of a caller, and what should come of it. What is answered
//! is the number of the first row that comes otherwise.
use sync_model::{Callers, Machine};

/// An event of a caller, and what it should be answered.
pub type Row<E, R> = (u32, E, R);

/// An event of a caller, and whom it should let go on, from the lowest number up.
pub type WakeRow<E> = (u32, E, [Option<u32>; 3]);

/// Nobody is let go on.
pub const NOBODY: [Option<u32>; 3] = [None, None, None];

/// The first event that is answered otherwise than its row says.
pub fn first_other<M: Machine>(
    state: &mut M::State,
    rows: &[Row<M::Event, M::Reply>],
) -> Option<usize>
where
    M::Reply: PartialEq,
{
    for (at, &(caller, event, reply)) in rows.iter().enumerate() {
        if M::step(state, caller, event) != reply {
            return Some(at);
        }
    }
    None
}

// The three callers of lowest number.
fn lowest(callers: Callers) -> [Option<u32>; 3] {
    let mut callers = callers;
    [
        callers.take_first(),
        callers.take_first(),
        callers.take_first(),
    ]
}

/// The first event that lets others go on than its row says.
pub fn first_other_wake<M: Machine>(
    state: &mut M::State,
    rows: &[WakeRow<M::Event>],
) -> Option<usize> {
    for (at, &(caller, event, woken)) in rows.iter().enumerate() {
        let reply = M::step(state, caller, event);
        if lowest(M::wakes(state, &event, &reply)) != woken {
            return Some(at);
        }
    }
    None
}
