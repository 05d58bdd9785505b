//! Four threads count the words of a text in one map, a line each. Then each word is printed with its count.
use go_sync::{MapCaller, map_callers, new_map};
use std::alloc::{AllocError, Global};
use std::io;
use std::sync::Wait;
use std::thread::{Threads, map_vec};

/// What is counted.
const TEXT: [&str; 4] = [
    "the lock is held by one and the map is read by all",
    "one map and one lock and all the words of a text",
    "the words of a line are read by one thread",
    "a word is counted in the map and not under a lock",
];

/// How many calls each thread may make that may change the map.
const ROOM: u32 = 1_000;

/// What one thread works with: its caller of the map, and the keys of its words.
#[derive(Drop)]
struct Worker<'a> {
    counts: MapCaller<'a>,
    keys: Vec<u32>,
}

impl Worker<'_> {
    // Counts its words. False where the map had no room for one.
    fn work<R: Wait>(&mut self, rt: &R) -> bool {
        let counts = &mut self.counts;
        self.keys.iter().all(|key| add(rt, counts, *key))
    }
}

// One more for this key: Go's loop round `CompareAndSwap`. It ends, since each try takes room.
fn add<R: Wait>(rt: &R, counts: &mut MapCaller, key: u32) -> bool {
    for _ in 0..ROOM {
        let Some((was, found)) = counts.load_or_store(rt, key, 1) else {
            return false;
        };
        if !found {
            return true;
        }
        if was < 1_000_000 && counts.compare_and_swap(rt, key, was, was + 1) == Some(true) {
            return true;
        }
    }
    false
}

// The words in the order of their first appearance.
fn words_of(alloc: Global, text: &[&'static str]) -> Result<Vec<&'static str>, AllocError> {
    let mut words = Vec::new(alloc);
    for word in text.iter().flat_map(|line| line.split_whitespace()) {
        if !words.contains(&word) {
            words.push(word)?;
        }
    }
    Ok(words)
}

// A word's key in the map: its place in the list.
fn key_of(words: &[&'static str], word: &str) -> Option<u32> {
    let place = words.iter().position(|known| *known == word)?;
    u32::try_from(place).ok()
}

fn keys_of(alloc: Global, words: &[&'static str], line: &str) -> Result<Vec<u32>, AllocError> {
    let mut keys = Vec::new(alloc);
    for word in line.split_whitespace() {
        if let Some(key) = key_of(words, word) {
            keys.push(key)?;
        }
    }
    Ok(keys)
}

fn show<R: Wait + Print>(rt: &R, counts: &mut MapCaller, words: &[&'static str]) -> io::Result<()> {
    for (key, word) in (0u32..).zip(words) {
        let count = counts.get(rt, key).unwrap_or(0);
        println!(rt; "{word} {count}")?;
    }
    Ok(())
}

/// Counts, and prints each word with its count.
pub fn run<R: Threads + Wait + Print + Sync>(rt: &R, alloc: Global) -> io::Result<()> {
    let words = words_of(alloc, &TEXT)?;
    // Four threads, and this one.
    let (table, callers) = new_map(alloc, 5, ROOM)?;
    let mut callers = map_callers(alloc, &table, 0, callers)?;
    let mut workers = Vec::new(alloc);
    for line in TEXT {
        if let Some(counts) = callers.pop() {
            let keys = keys_of(alloc, &words, line)?;
            workers.push(Worker { counts, keys })?;
        }
    }
    let counted = map_vec(rt, workers, &|mut worker: Worker| worker.work(rt))?;
    match callers.pop() {
        Some(mut counts) if counted.iter().all(|all| *all) => show(rt, &mut counts, &words),
        _ => println!(rt; "the map had no room left"),
    }
}
