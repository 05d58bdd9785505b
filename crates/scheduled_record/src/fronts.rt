//! Fronts: for each worker how many of its calls on maps and atomics are known.
ghost use Rattle.std.specs.Prelude.{◌≡◌, ◌+◌, true, max, cond, replicate, slice_get, IfOk};
ghost use Rattle.std.specs.List.{list_all};
ghost use Rattle.std.specs.Option.{option_map_or};
ghost use Rattle.record_text.specs.Numbers.{has_64_bits};
ghost use Rattle.kept_record.specs.Keeping.{joined, counted};

use std::alloc::{AllocError, Global};
use sync_types::Seq;

/// One more. There are fewer than 2^64, for which no memory would do.
pub(crate) fn one_more(count: u64) -> Result<u64, AllocError>
    ensures { IfOk result (λ more. more ≡ count + 1) }
{
    match count.checked_add(1) {
        Some(more) => Ok(more),
        None => Err(AllocError),
    }
}

/// A front that counts nothing.
pub(crate) fn none_known(alloc: Global, workers: u32) -> Result<Seq<u64>, AllocError>
    ensures { IfOk result (λ front. front ≡ replicate workers 0) }
{
    let mut front = Vec::new(alloc);
    for _ in 0..workers {
        front.push(0)?;
    }
    Ok(Seq::from_vec(front))
}

/// The same front. Its numbers have 64 bits, as those of a program have.
pub(crate) fn copied(alloc: Global, front: &[u64]) -> Result<Seq<u64>, AllocError>
    ensures same { IfOk result (λ copy. copy ≡ front.now) }
    ensures fits { IfOk result (λ copy. list_all has_64_bits copy ≡ true) }
{
    let mut copy = Seq::new(alloc);
    copy.extend_from_slice(front)?;
    Ok(copy)
}

/// The front with one more call of a worker.
pub(crate) fn counted(alloc: Global, worker: u32, front: &[u64]) -> Result<Seq<u64>, AllocError>
    ensures { IfOk result (λ more. more ≡ counted worker front.now) }
{
    let mut more = Vec::new(alloc);
    more.extend_from_slice(front)?;
    if let Some(count) = more.get_mut(worker as usize) {
        *count = one_more(*count)?;
    }
    Ok(Seq::from_vec(more))
}

/// The greater of a count and what stands at a place, if anything does.
fn at_least(count: u64, other: &[u64], place: usize) -> u64
    ensures { result ≡ option_map_or (max count) (slice_get other.now place) count }
{
    match other.get(place) {
        Some(other) => count.max(*other),
        None => count,
    }
}

/// What is known by two fronts together.
fn joined(alloc: Global, front: &[u64], other: &[u64]) -> Result<Seq<u64>, AllocError>
    ensures { IfOk result (λ both. both ≡ joined front.now other.now) }
{
    let mut both = Vec::new(alloc);
    for place in 0..front.len() {
        both.push(at_least(front[place], other, place))?;
    }
    if front.len() < other.len() {
        both.extend_from_slice(&other[front.len()..])?;
    }
    Ok(Seq::from_vec(both))
}

/// The front with what another one knows, where it is taken in.
pub(crate) fn joined_if(
    alloc: Global,
    takes: bool,
    front: &[u64],
    other: &[u64],
) -> Result<Seq<u64>, AllocError>
    ensures { IfOk result (λ both. both ≡ cond takes (joined front.now other.now) front.now) }
{
    if takes {
        joined(alloc, front, other)
    } else {
        copied(alloc, front)
    }
}
