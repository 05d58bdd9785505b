//! The text of the workload that a seed gives.
ghost use Rattle.std.specs.Prelude.{◌≡◌, ◌++◌, IfOk, OnOk};
ghost use Rattle.std.specs.Fmt.{decimal};
ghost use Rattle.rand_core.specs.Steps.{first_words};
ghost use Rattle.rand_pcg.specs.Lcg.{advance};
ghost use Rattle.rand_pcg.specs.Pcg.{multiplier_64, pcg32};
ghost use Rattle.workload.specs.Reads.{Reads};
ghost use Rattle.made_workload.specs.Generated.{key_of, generated_plan, generated_text};
ghost use Rattle.made_workload.specs.Written.{call_text, round_text, rounds_text, worker_text, workers_text};

use itoa::Buffer;
use rand_core::utils::NextWord;
use rand_pcg::Lcg64Xsh32;
use std::alloc::{AllocError, Global};
use workload::laws::canonical_reads;

/// How many workers there are.
const WORKERS: u32 = 8;

/// How many rounds each of them has.
const ROUNDS: u32 = 500;

/// Writes a number.
fn put_number(text: &mut Vec<u8>, number: u32) -> Result<(), AllocError>
    ensures { OnOk result (text.new.items ≡ text.old.items ++ decimal number) }
{
    let mut digits = Buffer::new();
    text.extend_from_slice(digits.format(number).as_bytes())
}

/// Writes a call's words, and behind them a key of a worker.
fn put_key(text: &mut Vec<u8>, words: &[u8], worker: u32, number: u32) -> Result<(), AllocError>
    ensures { OnOk result (text.new.items ≡ text.old.items ++ (words.now ++ key_of worker number)) }
{
    text.extend_from_slice(words)?;
    text.push(b'k')?;
    put_number(text, worker)?;
    text.push(b'_')?;
    put_number(text, number)
}

/// Writes the call on the map that a drawn word says.
fn put_call(text: &mut Vec<u8>, worker: u32, word: u32) -> Result<(), AllocError>
    ensures { OnOk result (text.new.items ≡ text.old.items ++ call_text worker word) }
{
    let number = word / 4 % 64;
    match word % 4 {
        0 | 1 => {
            put_key(text, b"store t ", worker, number)?;
            text.push(b' ')?;
            put_number(text, word / 256)
        }
        2 => put_key(text, b"load t ", worker, number),
        _ => put_key(text, b"delete t ", worker, number),
    }
}

/// Writes the four lines of a round that draws these words.
fn put_round(text: &mut Vec<u8>, worker: u32, first: u32, second: u32) -> Result<(), AllocError>
    ensures { OnOk result (text.new.items ≡ text.old.items ++ round_text worker (first, second)) }
{
    text.extend_from_slice(b"lock m\nadd total ")?;
    put_number(text, first % 1000)?;
    text.extend_from_slice(b"\nunlock m\n")?;
    put_call(text, worker, second)?;
    text.push(b'\n')?;
    Ok(())
}

/// Writes the lines of a worker's rounds, each of which draws two words.
fn put_rounds(text: &mut Vec<u8>, worker: u32, generator: &mut Lcg64Xsh32) -> Result<(), AllocError>
    ensures text { OnOk result (text.new.items ≡ text.old.items ++ rounds_text worker (first_words pcg32 1000 generator.old)) }
    ensures generator { OnOk result (generator.new ≡ advance 64 multiplier_64 1000 generator.old) }
{
    for _round in 0..ROUNDS {
        let first = generator.next_word();
        let second = generator.next_word();
        put_round(text, worker, first, second)?;
    }
    Ok(())
}

/// Writes the lines of a worker.
fn put_worker(text: &mut Vec<u8>, worker: u32, generator: &mut Lcg64Xsh32) -> Result<(), AllocError>
    ensures text { OnOk result (text.new.items ≡ text.old.items ++ worker_text worker (first_words pcg32 1000 generator.old)) }
    ensures generator { OnOk result (generator.new ≡ advance 64 multiplier_64 1000 generator.old) }
{
    text.extend_from_slice(b"worker ")?;
    put_number(text, worker)?;
    text.push(b'\n')?;
    put_rounds(text, worker, generator)
}

/// Writes the lines of all workers, whose words the generator of the seed draws.
fn put_workers(text: &mut Vec<u8>, seed: u64) -> Result<(), AllocError>
    ensures { OnOk result (text.new.items ≡ text.old.items ++ workers_text seed 0 8) }
{
    let mut generator = Lcg64Xsh32::new(seed, 0);
    for worker in 0..WORKERS {
        put_worker(text, worker, &mut generator)?;
    }
    Ok(())
}

/// The text of the workload that a seed gives: eight workers, each with 500 rounds of four calls on a
/// mutex, an int64 and a map (`docs/generator.md`). What the rounds do is drawn by PCG's generator XSH RR
/// 64/32 from the seed on, at stream 0. Every seed has a text: it is canonical, and is read as the seed's
/// workload. An `Err` is want of memory.
pub fn generate(alloc: Global, seed: u64) -> Result<Vec<u8>, AllocError>
    ensures text { IfOk result (λ text. text.items ≡ generated_text seed) }
    ensures read { IfOk result (λ text. Reads text.items (generated_plan seed)) }
{
    canonical_reads();
    let mut text = Vec::new(alloc);
    text.extend_from_slice(b"workers 8\nmutex m\nint64 total\nmap t\n")?;
    put_workers(&mut text, seed)?;
    Ok(text)
}
