//! A line or a word, part by part.
ghost use Rattle.std.specs.Prelude.{◌≡◌, ◌==◌, ◌∷◌, [], MatchOption};
ghost use Rattle.std.specs.List.{slice_split};
ghost use Rattle.record_text.specs.Cuts.{parts_in};

use memchr::memchr;

/// The first part of a text that is cut at a byte, and what is left behind it: nothing, where it is the only part.
fn cut_text(text: &[u8], separator: u8) -> (&[u8], Option<&[u8]>)
    ensures { slice_split (λ byte. byte == separator) text.now ≡ result.0.now ∷ parts_in separator result.1 }
{
    match memchr(separator, text) {
        None => (text, None),
        Some(end) => (&text[..end], Some(&text[end + 1..])),
    }
}

/// The next part of what is left of a text, and what is left behind it.
pub fn cut(rest: Option<&[u8]>, separator: u8) -> Option<(&[u8], Option<&[u8]>)>
    ensures { MatchOption result (parts_in separator rest.entry ≡ []) (λ cut. parts_in separator rest.entry ≡ cut.0.now ∷ parts_in separator cut.1) }
{
    match rest {
        None => None,
        Some(text) => Some(cut_text(text, separator)),
    }
}

/// The next word of what is left of a line.
pub fn cut_word(rest: Option<&[u8]>) -> Option<(&[u8], Option<&[u8]>)>
    ensures { MatchOption result (parts_in 32 rest.entry ≡ []) (λ cut. parts_in 32 rest.entry ≡ cut.0.now ∷ parts_in 32 cut.1) }
{
    cut(rest, b' ')
}
