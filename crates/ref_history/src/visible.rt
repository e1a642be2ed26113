//! Text for people: a terminal and a page show it, and do nothing else.
ghost use Rattle.std.specs.Prelude.{◌≡◌, ◌++◌, ◌||◌, ◌&&◌, Ok, IfOk, OnOk, true, string_bytes};
ghost use Rattle.std.specs.Int.{is_in_range};
ghost use Rattle.std.specs.List.{list_all};
ghost use Rattle.ref_history.specs.Visible.{is_blank, is_control, is_hidden, is_mark, is_none, is_printable, line, visible, visible_char};

use std::alloc::{AllocError, Global};

/// The character that is shown of this one: itself, a blank for a tab or the end of a line, or a question mark for what moves the
/// cursor, turns the direction of writing, is invisible, or may not stand in HTML.
#[tactic(auto, unfolding(crate::specs::Visible::visible_char))]
pub fn visible_char(c: char) -> char
    ensures { result ≡ visible_char c }
{
    let code = c as u32;
    if is_blank(code) {
        ' '
    } else if is_hidden(code) {
        '?'
    } else {
        c
    }
}

fn is_blank(code: u32) -> bool
    ensures { result ≡ is_blank code }
{
    code == 9 || code == 10 || code == 13
}

fn is_hidden(code: u32) -> bool
    ensures { result ≡ is_hidden code }
{
    code < 32 || (code >= 0x7F && (is_control(code) || is_mark(code) || is_none(code)))
}

fn is_control(code: u32) -> bool
    ensures { result ≡ is_control code }
{
    is_between(0x7F, 0x9F, code) || code == 0xAD || code == 0x61C || code == 0x180E
}

fn is_mark(code: u32) -> bool
    ensures { result ≡ is_mark code }
{
    is_between(0x200B, 0x200F, code)
        || is_between(0x2028, 0x202E, code)
        || is_between(0x2060, 0x206F, code)
        || code == 0xFEFF
        || is_between(0xFFF9, 0xFFFD, code)
        || is_between(0xE0000, 0xE007F, code)
}

fn is_none(code: u32) -> bool
    ensures { result ≡ is_none code }
{
    is_between(0xD800, 0xDFFF, code)
        || is_between(0xFDD0, 0xFDEF, code)
        || code % 0x10000 >= 0xFFFE
        || code > 0x10FFFF
}

fn is_between(first: u32, last: u32, code: u32) -> bool
    ensures { result ≡ is_in_range first last code }
{
    first <= code && code <= last
}

/// A text with each of its characters as it is shown. Linear in the text.
pub fn visible_text(alloc: Global, text: &[u8]) -> Result<String, AllocError>
    ensures { IfOk result (λ shown. string_bytes shown ≡ visible text.now) }
{
    let whole = String::from_utf8_lossy(alloc, text)?;
    let mut shown = String::new(alloc);
    for c in whole.as_str().chars() {
        shown.push(visible_char(c))?;
    }
    Ok(shown)
}

/// The room that a line gets at once, in bytes. Most lines need no more.
pub(crate) const ROOM_OF_LINE: usize = 128;

/// Appends a text in a line of its own.
pub(crate) fn append_visible_line(
    alloc: Global,
    text: &[u8],
    out: &mut Vec<u8>,
) -> Result<(), AllocError>
    ensures { OnOk result (out.new.items ≡ out.old.items ++ line text.now) }
{
    append_visible(alloc, text, out)?;
    out.extend_from_slice(b"\n")
}

// Most texts are shown as they are: a look at their bytes says so.
#[tactic(auto, using(crate::proofs::Characters::printable_visible))]
fn append_visible(alloc: Global, text: &[u8], out: &mut Vec<u8>) -> Result<(), AllocError>
    ensures { OnOk result (out.new.items ≡ out.old.items ++ visible text.now) }
{
    if are_printable(text) {
        return out.extend_from_slice(text);
    }
    out.extend_from_slice(visible_text(alloc, text)?.as_bytes())
}

fn are_printable(bytes: &[u8]) -> bool
    ensures { result ≡ list_all is_printable bytes.now }
{
    bytes.iter().all(|byte| is_printable(*byte))
}

fn is_printable(byte: u8) -> bool
    ensures { result ≡ is_printable byte }
{
    0x20 <= byte && byte <= 0x7E
}
