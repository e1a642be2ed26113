//! Strings and their escapes.
ghost use Rattle.std.specs.Prelude.{◌≡◌, ◌<◌, ℕ, ◌++◌, length, drop, Ok, IfOk, IfSome, IfNone, IsUtf8, OnOk, encode_utf8};
ghost use Rattle.std.specs.Char.{digit_value};
ghost use Rattle.std.specs.Option.{SomeIff};
ghost use Rattle.ref_value.specs.Edn.{nesting, string as string_of};
ghost use Rattle.ref_edn.specs.Faults.{Gives};
ghost use Rattle.ref_edn.specs.Grammar.{NamesChar};
ghost use Rattle.ref_value.specs.Lawful.{IsLawful};
ghost use Rattle.ref_edn.specs.ReadTokens.{escape_of, hex_at, escape_at, body_at, string_at};

use crate::bytes::after;
use crate::faults::{Flaw, ReadError};
use crate::interner::Interner;
use memchr::memchr2;
use ref_value::{Node, Value};
use std::alloc::{AllocError, Global};

// What a letter behind a backslash stands for.
fn unescape(letter: u8) -> Option<u8>
    ensures { result ≡ escape_of letter }
{
    match letter {
        b't' => Some(b'\t'),
        b'r' => Some(b'\r'),
        b'n' => Some(b'\n'),
        b'\\' => Some(b'\\'),
        b'"' => Some(b'"'),
        b'b' => Some(b'\x08'),
        b'f' => Some(b'\x0c'),
        _ => None,
    }
}

fn hex_digit(b: u8) -> Option<u32>
    ensures { SomeIff result (digit_value b < 16) (digit_value b) }
{
    char::from(b).to_digit(16)
}

// The character that four hexadecimal digits name, if they are digits and it is no surrogate.
fn char_of_digits(h: u8, i: u8, j: u8, k: u8) -> Option<char>
    ensures some { IfSome result (NamesChar h i j k) }
    ensures none { IfNone result ((c : ℕ) → ¬ NamesChar h i j k c) }
{
    let first = hex_digit(h)?;
    let second = hex_digit(i)?;
    let third = hex_digit(j)?;
    let fourth = hex_digit(k)?;
    char::from_u32(((first * 16 + second) * 16 + third) * 16 + fourth)
}

// The character of an escape by its number, and what follows it, where `text` is what follows the letter, and `at`
// begins with the backslash.
#[tactic(auto, using(crate::proofs::Strings::hex_again, crate::proofs::Strings::hex_unnamed), unfolding(crate::specs::ReadTokens::hex_at))]
fn unicode<'a>(at: &[u8], text: &'a [u8]) -> Result<(char, &'a [u8]), ReadError>
    ensures value { Gives (λ r. (encode_utf8 r.0, r.1.now)) result (hex_at at.now text.now) }
    ensures shorter { IfOk result (λ r. length r.1.now < length text.now) }
{
    match text {
        [h, i, j, k, rest @ ..] => match char_of_digits(*h, *i, *j, *k) {
            Some(c) => Ok((c, rest)),
            None => Err(ReadError::at(Flaw::BadEscape, at)),
        },
        _ => Err(ReadError::at(Flaw::EndsEarly, &[])),
    }
}

// The character of the escape at the front, and what follows it.
fn escape(at: &[u8]) -> Result<(char, &[u8]), ReadError>
    ensures value { Gives (λ r. (encode_utf8 r.0, r.1.now)) result (escape_at at.now (drop 1 at.now)) }
    ensures shorter { IfOk result (λ r. length r.1.now < length at.now) }
{
    match at {
        [_, b'u', digits @ ..] => unicode(at, digits),
        [_, letter, rest @ ..] => match unescape(*letter) {
            Some(b) => Ok((char::from(b), rest)),
            None => Err(ReadError::at(Flaw::BadEscape, at)),
        },
        _ => Err(ReadError::at(Flaw::EndsEarly, &[])),
    }
}

fn push_char(bytes: &mut Vec<u8>, c: char) -> Result<(), AllocError>
    ensures { OnOk result (bytes.new.items ≡ bytes.old.items ++ encode_utf8 c) }
{
    let mut buffer = [0; 4];
    bytes.extend_from_slice(c.encode_utf8(&mut buffer).as_bytes())
}

// The bytes of a string behind its opening quote, and what follows its closing quote. What stands between escapes is
// copied at once, so a string without escapes costs one copy.
fn body(alloc: Global, text: &[u8]) -> Result<(Vec<u8>, &[u8]), ReadError>
    ensures value { Gives (λ r. (r.0.items, r.1.now)) result (body_at text.now) }
    ensures shorter { IfOk result (λ r. length r.1.now < length text.now) }
{
    let mut bytes = Vec::new(alloc);
    let mut rest = text;
    while let Some(i) = memchr2(b'"', b'\\', rest) {
        bytes.extend_from_slice(&rest[..i])?;
        let at = after(rest, i);
        if at[0] == b'"' {
            return Ok((bytes, after(at, 1)));
        }
        let (c, behind) = escape(at)?;
        push_char(&mut bytes, c)?;
        rest = behind;
    }
    Err(ReadError::at(Flaw::EndsEarly, &[]))
}

// The content of a string without escapes, behind its opening quote, and what follows its closing quote.
fn plain(text: &[u8]) -> Option<(&[u8], &[u8])>
    ensures value { IfSome result (λ r. body_at text.now ≡ Ok (r.0.now, r.1.now)) }
    ensures shorter { IfSome result (λ r. length r.1.now < length text.now) }
{
    let i = memchr2(b'"', b'\\', text)?;
    let at = after(text, i);
    if at[0] == b'"' {
        Some((&text[..i], after(at, 1)))
    } else {
        None
    }
}

// The string of a content that has no escapes, where it is UTF-8.
fn plain_string(
    alloc: Global,
    interner: &mut Interner,
    content: &[u8],
) -> Result<Option<Value>, AllocError>
    ensures some { IfOk result (λ found. IfSome found (λ v. v ≡ string_of content.now)) }
    ensures lawful { IfOk result (λ found. IfSome found IsLawful) }
    ensures none { IfOk result (λ found. IfNone found (¬ IsUtf8 content.now)) }
{
    if let Some(value) = interner.string(content)? {
        return Ok(Some(value));
    }
    match str::from_utf8(content) {
        Ok(text) => {
            let value = Value::of_lawful(Node::string(alloc, text)?);
            Ok(Some(interner.kept(content, value)?))
        }
        Err(_) => Ok(None),
    }
}

/// The value of the string at the front of a text, and what follows it.
///
/// The bytes of a string in a text in UTF-8 are UTF-8, so that it is no fault then.
#[tactic(auto, using(crate::proofs::Strings::utf8_tested), unfolding(crate::specs::ReadTokens::string_at))]
pub(crate) fn string<'a>(
    alloc: Global,
    interner: &mut Interner,
    text: &'a [u8],
) -> Result<(Value, &'a [u8]), ReadError>
    requires { 0 < length text.now }
    ensures value { Gives (λ r. (r.0, r.1.now)) result (string_at text.now) }
    ensures shorter { IfOk result (λ r. length r.1.now < length text.now) }
    ensures depth { IfOk result (λ r. nesting r.0 ≡ 0) }
{
    let inside = after(text, 1);
    if let Some((content, rest)) = plain(inside) {
        return match plain_string(alloc, interner, content)? {
            Some(value) => Ok((value, rest)),
            None => Err(ReadError::at(Flaw::NotUtf8, text)),
        };
    }
    let (bytes, rest) = body(alloc, inside)?;
    match String::from_utf8(bytes) {
        Ok(content) => {
            let node = Node::string_of(alloc, content)?;
            Ok((Value::of_lawful(node), rest))
        }
        Err(_) => Err(ReadError::at(Flaw::NotUtf8, text)),
    }
}
