//! What stands between elements: whitespace and comments; and what the bytes at the front of a text begin.
ghost use Rattle.std.specs.Prelude.{◌≡◌, ◌≤◌, length, IsTrue};
ghost use Rattle.ref_edn.specs.Fronts.{may_be_blank as front_may_be_blank};
ghost use Rattle.ref_edn.specs.Grammar.{from_newline};
ghost use Rattle.ref_edn.specs.ReadParts.{after_spaces as after_spaces_of, front_is_discard, front_opens_set};

use crate::bytes::{after, is_space};
use memchr::memchr;

#[tactic(auto, using(crate::proofs::Spaces::after_spaces_at))]
pub(crate) fn after_spaces(text: &[u8]) -> &[u8]
    ensures value { result.now ≡ after_spaces_of text.now }
    ensures shorter { length result.now ≤ length text.now }
{
    for i in 0..text.len() {
        if !is_space(text[i]) {
            return after(text, i);
        }
    }
    after(text, text.len())
}

// The newline that ends a comment, and all behind it.
pub(crate) fn line_end(text: &[u8]) -> &[u8]
    ensures value { result.now ≡ from_newline text.now }
    ensures shorter { length result.now ≤ length text.now }
{
    match memchr(b'\n', text) {
        Some(i) => after(text, i),
        None => after(text, text.len()),
    }
}

// Whether a blank may begin here.
#[inline(always)]
pub(crate) fn may_be_blank(text: &[u8]) -> bool
    ensures { result ≡ front_may_be_blank text.now }
{
    match text {
        [] => false,
        [b, ..] => is_space(*b) || *b == b';' || *b == b'#',
    }
}

pub(crate) fn is_discard(text: &[u8]) -> bool
    ensures value { result ≡ front_is_discard text.now }
    ensures two { IsTrue result → 2 ≤ length text.now }
{
    match text {
        [b, c, ..] => *b == b'#' && *c == b'_',
        _ => false,
    }
}

pub(crate) fn opens_set(text: &[u8]) -> bool
    ensures value { result ≡ front_opens_set text.now }
    ensures two { IsTrue result → 2 ≤ length text.now }
{
    match text {
        [b, c, ..] => *b == b'#' && *c == b'{',
        _ => false,
    }
}
