//! The list of ends that a report shows.
ghost use Rattle.std.specs.Prelude.{◌≡◌, ◌+◌, ◌*◌, ◌<◌, ◌≤◌, ◌++◌, length, map, zip, flat_map, vec_len, vec_capacity};
ghost use Rattle.sync_types.specs.Ends.{number_end};
ghost use Rattle.sync_model.specs.SharedHistory.{map_at};
ghost use Rattle.table_words.specs.EndContents.{contents_of};
ghost use Rattle.sync_model.specs.EndsOfHistory.{ends_by, pair_ends_by};

use crate::ended::TableEnds;
use sync_types::End;

impl TableEnds {
    /// Adds what a report shows of the atomics and the maps to a list that has room for it: first each atomic's number, and
    /// then, map by map, the keys that are there, in this order of the keys, each with its value. `atomics` and `maps` are
    /// the places of their objects in the workload. It takes no memory.
    pub fn push_ends(&self, atomics: &[usize], maps: &[usize], order: &[u32], ends: &mut Vec<End>)
        requires room { vec_len ends.old + length atomics.now + length maps.now * length order.now ≤ vec_capacity ends.old }
        ensures ends { ends.new.items ≡ ends.old.items ++ ends_by order.now atomics.now maps.now (contents_of self.now) }
        ensures room { vec_capacity ends.new ≡ vec_capacity ends.old }
    {
        self.push_numbers(atomics, ends);
        self.push_maps(maps, order, ends);
    }

    // Adds the numbers of atomics whose objects have these places.
    fn push_numbers(&self, places: &[usize], ends: &mut Vec<End>)
        requires { vec_len ends.old + length places.now ≤ vec_capacity ends.old }
        ensures ends { ends.new.items ≡ ends.old.items ++ map number_end (zip places.now (contents_of self.now).numbers) }
        ensures count { vec_len ends.new ≤ vec_len ends.old + length places.now }
        ensures room { vec_capacity ends.new ≡ vec_capacity ends.old }
    {
        for (atomic, object) in places.iter().enumerate() {
            if atomic >= self.kinds.len() {
                return;
            }
            if let Some(number) = self.number(atomic as u32) {
                ends.push_reserved(End::Number {
                    object: *object,
                    number,
                });
            }
        }
    }

    // Adds the keys of maps whose objects have these places.
    fn push_maps(&self, places: &[usize], order: &[u32], ends: &mut Vec<End>)
        requires { vec_len ends.old + length places.now * length order.now ≤ vec_capacity ends.old }
        ensures ends { ends.new.items ≡ ends.old.items ++ flat_map (pair_ends_by order.now) (zip places.now (contents_of self.now).maps) }
        ensures room { vec_capacity ends.new ≡ vec_capacity ends.old }
    {
        for (map, object) in places.iter().enumerate() {
            if map >= self.maps as usize {
                return;
            }
            self.push_map(*object, map as u32, order, ends);
        }
    }

    // Adds the keys of a map whose object has this place.
    fn push_map(&self, object: usize, map: u32, order: &[u32], ends: &mut Vec<End>)
        requires map { map < length (contents_of self.now).maps }
        requires room { vec_len ends.old + length order.now ≤ vec_capacity ends.old }
        ensures ends { ends.new.items ≡ ends.old.items ++ pair_ends_by order.now (object, map_at (contents_of self.now) map) }
        ensures count { vec_len ends.new ≤ vec_len ends.old + length order.now }
        ensures room { vec_capacity ends.new ≡ vec_capacity ends.old }
    {
        for key in order {
            if let Some(value) = self.value(map, *key) {
                ends.push_reserved(End::Pair {
                    object,
                    key: *key,
                    value,
                });
            }
        }
    }
}
