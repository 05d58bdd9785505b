//! The lines of a text: those before the line `record`, and those behind it.
ghost use Rattle.std.specs.Prelude.{◌≡◌, ◌+◌, ◌++◌, ◌∷◌, [], ◌≤◌, ◌<◌, ◌^◌, ◌⊎◌, true, drop, length, MatchOption};
ghost use Rattle.std.specs.List.{list_all};
ghost use Rattle.workload.specs.Lines.{lines_of};
ghost use Rattle.record_text.specs.RecordLines.{IsFound};
ghost use Rattle.record_text.specs.Refused.{FirstLong};
ghost use Rattle.record_text.specs.Told.{are_before, is_record_line, is_short_line};

use crate::line_reading::is_short_line;
use memchr::memchr;

/// The first line of a text that isn't empty, and the text behind its line feed.
pub fn split_line(text: &[u8]) -> (&[u8], &[u8])
    requires { 0 < length text.now }
    ensures line { lines_of text.now ≡ result.0.now ∷ lines_of result.1.now }
    ensures less { length result.1.now < length text.now }
    ensures whole { (text.now ≡ result.0.now ++ 10 ∷ result.1.now) ⊎ (result.1.now ≡ []) }
{
    match memchr(b'\n', text) {
        None => (text, &[]),
        Some(end) => (&text[..end], &text[end + 1..]),
    }
}

/// How many lines a text has.
pub fn count_lines(text: &[u8]) -> u32
    requires { length text.now < 2 ^ 32 }
    ensures { result ≡ length (lines_of text.now) }
{
    let mut count: u32 = 0;
    let mut rest = text;
    while !rest.is_empty() {
        let (_, behind) = split_line(rest);
        rest = behind;
        count += 1;
    }
    count
}

/// The number of the first line of a report that has more than 400 bytes; its first line has this number.
pub fn first_long(report: &[u8], first: u32) -> Option<u32>
    requires { first + length report.now < 2 ^ 32 }
    ensures { MatchOption result (list_all is_short_line (lines_of report.now) ≡ true) (FirstLong (lines_of report.now) first) }
{
    let mut next = first;
    let mut rest = report;
    while !rest.is_empty() {
        let (line, behind) = split_line(rest);
        if !is_short_line(line) {
            return Some(next);
        }
        rest = behind;
        next += 1;
    }
    None
}

/// Whether a line is the one between the workload and the items.
fn is_record_line(line: &[u8]) -> bool
    ensures { result ≡ is_record_line line.now }
{
    line == b"record".as_slice()
}

/// The text from an index on.
fn text_from(text: &[u8], start: usize) -> &[u8]
    requires { start ≤ length text.now }
    ensures { result.now ≡ drop start text.now }
{
    &text[start..]
}

/// What stands before the first line `record` of a text, what stands behind it, and the number of the line behind it.
#[tactic(auto, using(crate::proofs::WalkLemmas::none_passed, crate::proofs::WalkLemmas::pass_on, crate::proofs::WalkLemmas::found_here, crate::proofs::WalkLemmas::none_found))]
pub fn find_record(bytes: &[u8]) -> Option<(&[u8], &[u8], u32)>
    requires { length bytes.now < 2 ^ 31 }
    ensures { MatchOption result (are_before (lines_of bytes.now) ≡ true) (λ found. IsFound bytes.now found.0.now found.1.now found.2) }
{
    let mut start: usize = 0;
    let mut next: u32 = 2;
    while start < bytes.len() {
        let (line, behind) = split_line(text_from(bytes, start));
        if is_record_line(line) {
            return Some((&bytes[..start], behind, next));
        }
        start = bytes.len() - behind.len();
        next += 1;
    }
    None
}
