//! The front of a line: a number for each worker, joined by commas.
ghost use Rattle.std.specs.Prelude.{◌<◌, IfOk};
ghost use Rattle.record_text.specs.Numbers.{front_word, is_front};
ghost use Rattle.record_text.specs.Reading.{IsRead};

use crate::cut::cut;
use crate::number::read_number;
use std::alloc::{AllocError, Global};
use sync_types::Seq;

/// The front of so many workers that a word is.
#[tactic(auto, using(crate::proofs::Fronts::no_front, crate::proofs::Fronts::other_front, crate::proofs::Fronts::a_front, crate::proofs::Fronts::more_read))]
pub fn read_front(
    alloc: Global,
    word: &[u8],
    workers: usize,
) -> Result<Option<Seq<u64>>, AllocError>
    requires { 0 < workers }
    ensures { IfOk result (IsRead (is_front workers) front_word word.now) }
{
    let mut front: Vec<u64> = Vec::with_capacity(alloc, workers)?;
    let mut rest = Some(word);
    while let Some((part, behind)) = cut(rest, b',') {
        match read_number(part) {
            None => return Ok(None),
            Some(count) => front.push(count)?,
        }
        rest = behind;
    }
    if front.len() != workers {
        return Ok(None);
    }
    Ok(Some(Seq::from_vec(front)))
}
