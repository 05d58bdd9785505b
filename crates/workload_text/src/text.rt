//! The lines of a text and the words of a line.
ghost use Rattle.std.specs.Prelude.{◌≡◌, ◌≢◌, ℕ, ◌+◌, ◌<◌, ◌≤◌, ◌∷◌, map, length, slice_index, OnOk};
ghost use Rattle.workload.specs.Lines.{lines_of, is_short, is_clean, words_of, is_significant};

use memchr::memchr;
use std::alloc::AllocError;
use workload::limits::MAX_LINE;

/// The index of the first line feed, or the text's length.
fn line_end(text: &[u8]) -> usize
    ensures within { result ≤ length text.now }
    ensures before { (k : ℕ) → k < result → slice_index text.now k ≢ 10 }
    ensures found { result < length text.now → slice_index text.now result ≡ 10 }
{
    memchr(b'\n', text).unwrap_or(text.len())
}

/// The first line of a text that isn't empty, and the text behind its line feed.
pub fn split_line(text: &[u8]) -> (&[u8], &[u8])
    requires { 0 < length text.now }
    ensures line { lines_of text.now ≡ result.0.now ∷ lines_of result.1.now }
    ensures rest { length result.1.now < length text.now }
{
    let end = line_end(text);
    if end < text.len() {
        (&text[..end], &text[end + 1..])
    } else {
        (text, &text[end..])
    }
}

/// Whether a line has at most 200 bytes.
pub fn is_short(line: &[u8]) -> bool
    ensures { result ≡ is_short line.now }
{
    line.len() <= MAX_LINE
}

/// Whether each byte is a space to a tilde. It looks at all of them, many at once.
pub fn is_clean(line: &[u8]) -> bool
    ensures { result ≡ is_clean line.now }
{
    let mut clean = true;
    for byte in line {
        clean = clean & (b' ' <= *byte) & (*byte <= b'~');
    }
    clean
}

/// Sets a list to the runs of bytes other than space, in the room that it has, where that suffices.
pub fn split_words<'a>(words: &mut Vec<&'a [u8]>, line: &'a [u8]) -> Result<(), AllocError>
    ensures { OnOk result (map (λ word. word.now) words.new.items ≡ words_of line.now) }
{
    words.clear();
    words.extend(
        line.split(|byte| *byte == b' ')
            .filter(|word| !word.is_empty()),
    )
}

/// Whether a line is significant: it has words, and the first doesn't begin with `#`.
pub fn is_significant(line: &[u8]) -> bool
    ensures { result ≡ is_significant (words_of line.now) }
{
    for byte in line {
        if *byte != b' ' {
            return *byte != b'#';
        }
    }
    false
}
