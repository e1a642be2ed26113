//! The printer of EDN text.
ghost use Rattle.std.specs.Prelude.{◌≡◌, ◌≤◌, ◌++◌, ◌∷◌, ◌==◌, [], if◌then◌else◌, OnOk, OnErr, MatchOption, length, take};
ghost use Rattle.std.specs.Fmt.{signed_decimal};
ghost use Rattle.ref_value.specs.Edn.{Edn, items_of, entries_of};
ghost use Rattle.ref_edn.specs.Grammar.{IsText};
ghost use Rattle.ref_value.specs.Lawful.{IsLawful};
ghost use Rattle.ref_edn.specs.Printed.{printed, escaped, escaped_byte, items_text, entries_text};

use crate::bytes::after;
use itoa::Buffer;
use ref_value::maps::Iter;
use ref_value::{Elements, Entries, Items, Node, Value};
use std::alloc::{AllocError, Global};

// How many keys of a map are looked at in one go.
const AHEAD: usize = 16;

/// Appends the text of a value.
///
/// Each value has one text; docs/EDN.md says what it is. It takes time in proportion to that text, and the native stack
/// holds at most 64 levels.
pub fn print(alloc: Global, value: &Value, out: &mut Vec<u8>) -> Result<(), AllocError>
    ensures ok { OnOk result (out.new.items ≡ out.old.items ++ printed value.now) }
    ensures err { OnErr result (out.new.items ≡ out.old.items) }
{
    // The text grows by the allocator of `out`.
    let _alloc = alloc;
    let before = out.len();
    let appended = append(value, out);
    if appended.is_err() {
        out.truncate(before);
    }
    appended
}

// Where memory is refused, this function and those below leave the front of a text behind.
#[cycle(append)]
fn append(value: &Value, out: &mut Vec<u8>) -> Result<(), AllocError>
    ensures ok { OnOk result (out.new.items ≡ out.old.items ++ printed value.now) }
    ensures kept { take (length out.old.items) out.new.items ≡ out.old.items }
{
    match value.node() {
        Node::Nil => out.extend_from_slice(b"nil"),
        Node::Bool(true) => out.extend_from_slice(b"true"),
        Node::Bool(false) => out.extend_from_slice(b"false"),
        Node::Int(n) => append_int(*n, out),
        Node::Str(s) => append_string(s.as_bytes(), out),
        Node::Keyword(s) => append_keyword(s.as_bytes(), out),
        Node::Symbol(s) => out.extend_from_slice(s.as_bytes()),
        Node::ShortStr(s) => append_string(s.as_bytes(), out),
        Node::ShortKeyword(s) => append_keyword(s.as_bytes(), out),
        Node::ShortSymbol(s) => out.extend_from_slice(s.as_bytes()),
        Node::Vector(items) => append_vector(items, out),
        Node::Map(entries) => append_map(entries, out),
        Node::Set(elements) => append_set(elements, out),
    }
}

fn append_int(n: i64, out: &mut Vec<u8>) -> Result<(), AllocError>
    ensures ok { OnOk result (out.new.items ≡ out.old.items ++ signed_decimal n) }
    ensures kept { take (length out.old.items) out.new.items ≡ out.old.items }
{
    out.extend_from_slice(Buffer::new().format(n).as_bytes())
}

fn append_keyword(name: &[u8], out: &mut Vec<u8>) -> Result<(), AllocError>
    ensures ok { OnOk result (out.new.items ≡ out.old.items ++ 58 ∷ name.now) }
    ensures kept { take (length out.old.items) out.new.items ≡ out.old.items }
{
    out.push(b':')?;
    out.extend_from_slice(name)
}

// The letter that stands for a byte behind a backslash.
fn letter_of(b: u8) -> Option<u8>
    ensures { MatchOption result (escaped_byte b ≡ b ∷ []) (λ letter. escaped_byte b ≡ 92 ∷ letter ∷ []) }
{
    // Most bytes of a string are letters.
    if b > b'\\' {
        return None;
    }
    match b {
        b'"' | b'\\' => Some(b),
        b'\n' => Some(b'n'),
        b'\r' => Some(b'r'),
        b'\t' => Some(b't'),
        8 => Some(b'b'),
        12 => Some(b'f'),
        _ => None,
    }
}

// How many bytes at the front of a string stand as they are.
#[tactic(auto, using(crate::proofs::PrintedParts::plain_more))]
fn plain_len(s: &[u8]) -> usize
    ensures bound { result ≤ length s.now }
    ensures plain { escaped (take result s.now) ≡ take result s.now }
{
    for (i, b) in s.iter().enumerate() {
        if letter_of(*b).is_some() {
            return i;
        }
    }
    s.len()
}

fn append_byte(b: u8, out: &mut Vec<u8>) -> Result<(), AllocError>
    ensures ok { OnOk result (out.new.items ≡ out.old.items ++ escaped_byte b) }
    ensures kept { take (length out.old.items) out.new.items ≡ out.old.items }
{
    match letter_of(b) {
        Some(letter) => out.extend_from_slice(&[b'\\', letter]),
        None => out.extend_from_slice(&[b]),
    }
}

#[tactic(auto, using(crate::proofs::PrintedParts::escaped_all, crate::proofs::PrintedParts::kept_then))]
fn append_escaped(s: &[u8], out: &mut Vec<u8>) -> Result<(), AllocError>
    ensures ok { OnOk result (out.new.items ≡ out.old.items ++ escaped s.now) }
    ensures kept { take (length out.old.items) out.new.items ≡ out.old.items }
{
    let mut rest = s;
    loop {
        let run = plain_len(rest);
        out.extend_from_slice(&rest[..run])?;
        let Some(b) = rest.get(run) else {
            return Ok(());
        };
        append_byte(*b, out)?;
        rest = after(rest, run + 1);
    }
}

fn append_string(s: &[u8], out: &mut Vec<u8>) -> Result<(), AllocError>
    ensures ok { OnOk result (out.new.items ≡ out.old.items ++ 34 ∷ (escaped s.now ++ 34 ∷ [])) }
    ensures kept { take (length out.old.items) out.new.items ≡ out.old.items }
{
    out.push(b'"')?;
    append_escaped(s, out)?;
    out.push(b'"')?;
    Ok(())
}

// What stands between elements goes before each but the first.
fn append_gap(later: bool, gap: &[u8], out: &mut Vec<u8>) -> Result<(), AllocError>
    ensures ok { OnOk result (out.new.items ≡ out.old.items ++ (if later then gap.now else [])) }
    ensures kept { take (length out.old.items) out.new.items ≡ out.old.items }
{
    if !later {
        return Ok(());
    }
    out.extend_from_slice(gap)
}

#[cycle(append)]
fn append_element(later: bool, x: &Value, out: &mut Vec<u8>) -> Result<(), AllocError>
    ensures ok { OnOk result (out.new.items ≡ out.old.items ++ ((if later then 32 ∷ [] else []) ++ printed x.now)) }
    ensures kept { take (length out.old.items) out.new.items ≡ out.old.items }
{
    append_gap(later, b" ", out)?;
    append(x, out)
}

#[cycle(append)]
fn append_entry(later: bool, key: &Value, x: &Value, out: &mut Vec<u8>) -> Result<(), AllocError>
    ensures ok { OnOk result (out.new.items ≡ out.old.items
        ++ ((if later then 44 ∷ 32 ∷ [] else []) ++ (printed key.now ++ 32 ∷ printed x.now))) }
    ensures kept { take (length out.old.items) out.new.items ≡ out.old.items }
{
    append_gap(later, b", ", out)?;
    append(key, out)?;
    out.push(b' ')?;
    append(x, out)
}

#[cycle(append)]
fn append_vector(items: &Items, out: &mut Vec<u8>) -> Result<(), AllocError>
    ensures ok { OnOk result (out.new.items ≡ out.old.items ++ 91 ∷ items_text 93 (items_of items.now) []) }
    ensures kept { take (length out.old.items) out.new.items ≡ out.old.items }
{
    out.push(b'[')?;
    let mut later = false;
    for x in items {
        append_element(later, x, out)?;
        later = true;
    }
    out.push(b']')?;
    Ok(())
}

#[cycle(append)]
fn append_set(elements: &Elements, out: &mut Vec<u8>) -> Result<(), AllocError>
    ensures ok { OnOk result (out.new.items ≡ out.old.items ++ 35 ∷ 123 ∷ items_text 125 (items_of elements.now) []) }
    ensures kept { take (length out.old.items) out.new.items ≡ out.old.items }
{
    out.extend_from_slice(b"#{")?;
    let mut later = false;
    for x in elements {
        append_element(later, x, out)?;
        later = true;
    }
    out.push(b'}')?;
    Ok(())
}

// How many bytes a text has that stands for itself; 0 for any other value.
fn text_len(value: &Value) -> usize {
    value.node().text().len()
}

// Asks, at each 16th entry, for room for the keys of the next 16. A key's text lies anywhere in memory, and the processor
// fetches those of 16 keys at the same time, where one after the other would be waited for.
fn make_room(ahead: &mut Iter<'_>, i: usize, out: &mut Vec<u8>) -> Result<(), AllocError>
    ensures { out.new.items ≡ out.old.items }
{
    if i % AHEAD != 0 {
        return Ok(());
    }
    let mut room = 0usize;
    for _ in 0..AHEAD {
        let Some((key, _)) = ahead.next() else {
            break;
        };
        room = room.saturating_add(text_len(key));
    }
    out.reserve(room)
}

#[cycle(append)]
fn append_map(entries: &Entries, out: &mut Vec<u8>) -> Result<(), AllocError>
    ensures ok { OnOk result (out.new.items ≡ out.old.items ++ 123 ∷ entries_text (entries_of entries.now) []) }
    ensures kept { take (length out.old.items) out.new.items ≡ out.old.items }
{
    out.push(b'{')?;
    let mut ahead = entries.iter();
    let mut i = 0usize;
    let mut later = false;
    for (key, x) in entries {
        make_room(&mut ahead, i, out)?;
        append_entry(later, key, x, out)?;
        i = i.wrapping_add(1);
        later = true;
    }
    out.push(b'}')?;
    Ok(())
}

/// What is printed of a value belongs to that value, so it is read back as an equal one.
pub fn reads_back()
    ensures { (v : Edn) → IsLawful v → IsText (printed v) v }
{}
