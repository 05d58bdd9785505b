//! The list of ends that a report shows.
ghost use Rattle.std.specs.Prelude.{◌≡◌, ◌+◌, ◌*◌, ◌≤◌, ◌++◌, length, map, zip, flat_map, vec_len, vec_capacity};
ghost use Rattle.sync_types.specs.Ends.{number_end};
ghost use Rattle.sync_model.specs.EndsOfHistory.{ends_by, pair_ends_by};
ghost use Rattle.shared_plain.specs.PlainMachine.{contents_of};
ghost use Rattle.shared_plain.specs.Slots.{map_of};

use crate::slots::Slots;
use crate::state::PlainState;
use sync_types::{End, Number};

impl PlainState {
    /// Adds what a report shows of the atomics and the maps to a list that has room for it: first each atomic's number, and
    /// then, map by map, the keys that are there, in this order of the keys, each with its value. `atomics` and `maps` are
    /// the places of their objects in the workload. It takes no memory.
    ///
    /// Where the order has all keys in byte order of their names, this is what a report shows
    /// (`sync_model::laws::ends::ends_are_in_name_order`).
    pub fn push_ends(&self, atomics: &[usize], maps: &[usize], order: &[u32], ends: &mut Vec<End>)
        requires room { vec_len ends.old + length atomics.now + length maps.now * length order.now ≤ vec_capacity ends.old }
        ensures ends { ends.new.items ≡ ends.old.items ++ ends_by order.now atomics.now maps.now (contents_of self.now) }
        ensures room { vec_capacity ends.new ≡ vec_capacity ends.old }
    {
        push_numbers(ends, atomics, &self.numbers);
        push_maps(ends, maps, order, &self.maps);
    }
}

// Adds the numbers of atomics whose objects have these places.
fn push_numbers(ends: &mut Vec<End>, places: &[usize], numbers: &[Number])
    requires { vec_len ends.old + length places.now ≤ vec_capacity ends.old }
    ensures ends { ends.new.items ≡ ends.old.items ++ map number_end (zip places.now numbers.now) }
    ensures count { vec_len ends.new ≤ vec_len ends.old + length places.now }
    ensures room { vec_capacity ends.new ≡ vec_capacity ends.old }
{
    for (object, number) in places.iter().zip(numbers) {
        ends.push_reserved(End::Number {
            object: *object,
            number: *number,
        });
    }
}

// Adds the keys of maps whose objects have these places.
fn push_maps(ends: &mut Vec<End>, places: &[usize], order: &[u32], maps: &[Slots])
    requires { vec_len ends.old + length places.now * length order.now ≤ vec_capacity ends.old }
    ensures ends { ends.new.items ≡ ends.old.items ++ flat_map (pair_ends_by order.now) (zip places.now (map map_of maps.now)) }
    ensures room { vec_capacity ends.new ≡ vec_capacity ends.old }
{
    for (object, slots) in places.iter().zip(maps) {
        push_map(ends, *object, order, slots);
    }
}

// Adds the keys of a map whose object has this place.
fn push_map(ends: &mut Vec<End>, object: usize, order: &[u32], slots: &Slots)
    requires { vec_len ends.old + length order.now ≤ vec_capacity ends.old }
    ensures ends { ends.new.items ≡ ends.old.items ++ pair_ends_by order.now (object, map_of slots.now) }
    ensures count { vec_len ends.new ≤ vec_len ends.old + length order.now }
    ensures room { vec_capacity ends.new ≡ vec_capacity ends.old }
{
    for key in order {
        if let Some(value) = slots.value(*key) {
            ends.push_reserved(End::Pair {
                object,
                key: *key,
                value,
            });
        }
    }
}
