//! What the objects hold when every script has ended.
ghost use Rattle.std.specs.Prelude.{◌≡◌, ◌++◌, map, IfOk, OnOk};
ghost use Rattle.std.specs.List.{flat_map};
ghost use Rattle.sync_types.specs.Ends.{number_end, pair_ends};
ghost use Rattle.workload.specs.Keys.{key_number};
ghost use Rattle.step_runner.specs.Ends.{numbers_from, maps_from, scheduled_ends, variables_from, variables_behind};

use crate::numbering::number_of;
use crate::turns::ObjectState;
use script_calls::Ending;
use std::alloc::{AllocError, Global};
use sync_types::{ByName, End, Seq};
use workload::{Keys, Workload};

/// What a plain variable holds at the end.
#[derive(Clone, Copy, PartialEq, Eq, Debug, Drop)]
pub struct VariableEnd {
    /// The variable's place among the workload's objects.
    pub object: usize,
    pub value: u64,
}

/// Adds the number of each atomic, in order of declaration.
fn push_numbers(ends: &mut Seq<End>, objects: &[ObjectState]) -> Result<(), AllocError>
    ensures { OnOk result (ends.new ≡ ends.old ++ map number_end (numbers_from 0 objects.now)) }
{
    for (object, held) in objects.iter().enumerate() {
        match held {
            ObjectState::Atomic(number) => ends.push(End::Number {
                object,
                number: *number,
            })?,
            _ => {}
        }
    }
    Ok(())
}

/// Adds the keys of a map, in byte order.
fn push_map(
    alloc: Global,
    keys: &Keys,
    ends: &mut Seq<End>,
    object: usize,
    map: &ByName<u64>,
) -> Result<(), AllocError>
    ensures { OnOk result (ends.new ≡ ends.old ++ pair_ends (key_number keys.now) (object, map.now)) }
{
    for (key, value) in map.entries(alloc)?.into_vec() {
        let key = number_of(keys, &key);
        ends.push(End::Pair { object, key, value })?;
    }
    Ok(())
}

/// Adds the keys of each map, in order of declaration.
fn push_pairs(
    alloc: Global,
    keys: &Keys,
    ends: &mut Seq<End>,
    objects: &[ObjectState],
) -> Result<(), AllocError>
    ensures { OnOk result (ends.new ≡ ends.old ++ flat_map (pair_ends (key_number keys.now)) (maps_from 0 objects.now)) }
{
    for (object, held) in objects.iter().enumerate() {
        match held {
            ObjectState::Map(map) => push_map(alloc, keys, ends, object, map)?,
            _ => {}
        }
    }
    Ok(())
}

/// What the objects hold, in the order of the report: the number of each atomic in order of declaration,
/// and then the pairs of each map in order of declaration. Keys have their numbers in the workload.
pub fn ends(
    alloc: Global,
    workload: &Workload,
    objects: &[ObjectState],
) -> Result<Seq<End>, AllocError>
    ensures { IfOk result (λ ends. ends ≡ scheduled_ends workload.now objects.now) }
{
    let mut ends = Seq::new(alloc);
    push_numbers(&mut ends, objects)?;
    push_pairs(alloc, workload.keys(), &mut ends, objects)?;
    Ok(ends)
}

/// What the plain variables hold, in order of declaration.
fn variables(alloc: Global, objects: &[ObjectState]) -> Result<Seq<VariableEnd>, AllocError>
    ensures { IfOk result (λ ends. ends ≡ variables_from 0 objects.now) }
{
    let mut ends = Seq::new(alloc);
    for (object, held) in objects.iter().enumerate() {
        match held {
            ObjectState::Var(value) => ends.push(VariableEnd {
                object,
                value: *value,
            })?,
            _ => {}
        }
    }
    Ok(ends)
}

/// What the plain variables hold behind a run that ends so: none unless it is done.
pub fn variables_behind(
    alloc: Global,
    objects: &[ObjectState],
    ending: Ending,
) -> Result<Seq<VariableEnd>, AllocError>
    ensures { IfOk result (λ ends. ends ≡ variables_behind objects.now ending) }
{
    match ending {
        Ending::Done => variables(alloc, objects),
        Ending::Misused(_) | Ending::Deadlocked => Ok(Seq::new(alloc)),
    }
}
