//! Values by place, of which most have none.
ghost use Rattle.std.specs.Prelude.{◌≡◌, ℕ, ◌==◌, ◌<◌, ◌^◌, [], Option, None, Some, cond, length, OnOk};
ghost use Rattle.std.specs.Option.{option_copied};
ghost use Rattle.race_clocks.specs.Places.{at};

use std::alloc::{AllocError, Global};
use std::marker::Model;

/// What stands at a place, by its number. Contracts see a list, behind whose end nothing stands.
#[derive(Drop)]
pub(crate) struct ByPlace<T> {
    values: Vec<Option<T>>,
}

impl<T> Model for ByPlace<T> {
    ghost use Rattle.std.specs.Prelude.{List, Option};

    ghost Value = { List (Option T) };

    ghost view = { λ p. p.values.items };
}

/// Adds places at the end, of which none has a value, until this one is there.
fn grow<T: Drop>(values: &mut Vec<Option<T>>, place: usize) -> Result<(), AllocError>
    ensures there { OnOk result (place < length values.new.items) }
    ensures same { OnOk result ((other : ℕ) → at values.new.items other ≡ at values.old.items other) }
{
    while values.len() <= place {
        values.push(None)?;
    }
    Ok(())
}

impl<T: Drop> ByPlace<T> {
    /// Nothing stands anywhere, which takes no memory.
    pub(crate) fn new(alloc: Global) -> Self
        ensures { result ≡ [] }
    {
        ByPlace {
            values: Vec::new(alloc),
        }
    }

    /// Takes away what stands at a place.
    pub(crate) fn take(&mut self, place: usize) -> Option<T>
        ensures taken { result ≡ at self.old place }
        ensures rest { (other : ℕ) → at self.new other ≡ cond (place == other) None (at self.old other) }
    {
        match self.values.get_mut(place) {
            Some(value) => value.take(),
            None => None,
        }
    }

    /// Puts a value at a place.
    pub(crate) fn put(&mut self, place: usize, value: T) -> Result<(), AllocError>
        ensures { OnOk result ((other : ℕ) → at self.new other ≡ cond (place == other) (Some value) (at self.old other)) }
    {
        grow(&mut self.values, place)?;
        self.values[place] = Some(value);
        Ok(())
    }
}

impl<T> ByPlace<T> {
    /// What stands at a place, as it stands there.
    pub(crate) fn get_ref(&self, place: usize) -> Option<&T>
        ensures { option_copied result ≡ at self.now place }
    {
        match self.values.get(place) {
            Some(value) => value.as_ref(),
            None => None,
        }
    }
}

impl<T: Copy> ByPlace<T> {
    /// What stands at a place.
    pub(crate) fn get(&self, place: usize) -> Option<T>
        ensures { result ≡ at self.now place }
    {
        match self.values.get(place) {
            Some(value) => *value,
            None => None,
        }
    }
}
