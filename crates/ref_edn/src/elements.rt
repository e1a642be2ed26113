//! Elements and discards, by recursive descent.
//!
//! Each function takes the bytes from a place on and gives those behind what it read. `room` is how many more
//! collections and discards may be open, so that the calls are at most 64 levels deep.
//!
//! The members of a map and a set are stored in the order of reading, each with its place, and sorted at the closing
//! bracket or at a fault. Then equals stand side by side, so that the first one that is there already is known.
ghost use Rattle.std.specs.Prelude.{◌≡◌, ◌<◌, ◌≤◌, [], ◌∷◌, ◌++◌, length, IsTrue, IfOk};
ghost use Rattle.ref_value.specs.Edn.{items_of, entries_of};
ghost use Rattle.ref_edn.specs.Faults.{Gives};
ghost use Rattle.ref_edn.specs.Marks.{Falls, elements_of, first_twice, keys_of, pairs_of};
ghost use Rattle.ref_value.specs.Order.{elements_ascend, keys_ascend};
ghost use Rattle.ref_edn.specs.Sorting.{inserts, inserts_entries};
ghost use Rattle.ref_edn.specs.ReadParts.{single_at, discarded_at, vector_at, mapping_at, collection_at, items_at, set_at, map_at, next_at, value_at};
ghost use Rattle.ref_edn.specs.Reading.{skip as skip_of, read as read_of};
ghost use Rattle.ref_value.specs.Limits.{most_nested};

use crate::blanks::{after_spaces, is_discard, line_end, may_be_blank, opens_set};
use crate::bytes::{after, is_close, starts_token};
use crate::faults::{Flaw, ReadError};
use crate::members::{into_pairs, into_values, sort_elements, sort_entries};
use crate::scratch::Scratch;
use crate::sort_keys::Keyed;
use crate::string_reader::string;
use crate::token_reader::token;
use ref_value::{Elements, Entries, Items, Node, Value};
use std::alloc::Global;
use std::cmp::Reverse;

// The element at the front, where it is no collection.
#[inline(always)]
#[tactic(auto, unfolding(crate::specs::ReadParts::single_at))]
fn single<'a>(
    alloc: Global,
    scratch: &mut Scratch,
    text: &'a [u8],
) -> Result<(Value, &'a [u8]), ReadError>
    requires { 0 < length text.now }
    ensures value { Gives (λ r. (r.0, r.1.now)) result (single_at text.now) }
    ensures shorter { IfOk result (λ r. length r.1.now < length text.now) }
{
    let first = text[0];
    if first == b'"' {
        string(alloc, &mut scratch.interner, text)
    } else if starts_token(first) {
        token(alloc, &mut scratch.interner, text)
    } else if is_close(first) {
        Err(ReadError::at(Flaw::WrongClose, text))
    } else if first == b'#' || first == b'\\' {
        Err(ReadError::at(Flaw::LeftOut, text))
    } else {
        Err(ReadError::at(Flaw::BadByte, text))
    }
}

// What stands behind whitespace, comments and discards. Most often there is none, or one space.
#[inline(always)]
#[cycle(read)]
#[tactic(auto, using(crate::proofs::Turns::skips_none))]
pub(crate) fn skip<'a>(
    alloc: Global,
    scratch: &mut Scratch,
    text: &'a [u8],
    room: u8,
) -> Result<&'a [u8], ReadError>
    requires { room ≤ most_nested }
    ensures value { Gives (λ r. r.now) result (skip_of room text.now) }
    ensures shorter { IfOk result (λ r. length r.now ≤ length text.now) }
{
    if !may_be_blank(text) {
        return Ok(text);
    }
    if let [b' ', rest @ ..] = text {
        if !may_be_blank(rest) {
            return Ok(rest);
        }
    }
    pass(alloc, scratch, text, room)
}

// The same, turn by turn.
#[inline(never)]
#[cycle(read)]
fn pass<'a>(
    alloc: Global,
    scratch: &mut Scratch,
    text: &'a [u8],
    room: u8,
) -> Result<&'a [u8], ReadError>
    requires { room ≤ most_nested }
    ensures value { Gives (λ r. r.now) result (skip_of room text.now) }
    ensures shorter { IfOk result (λ r. length r.now ≤ length text.now) }
{
    let mut rest = after_spaces(text);
    while !rest.is_empty() {
        if rest[0] == b';' {
            rest = after_spaces(line_end(rest));
        } else if is_discard(rest) {
            rest = after_spaces(discarded(alloc, scratch, rest, room)?);
        } else {
            return Ok(rest);
        }
    }
    Ok(rest)
}

// What stands behind a discard, which is at the front, and its element.
#[cycle(read)]
#[tactic(auto, unfolding(crate::specs::ReadParts::discarded_at))]
fn discarded<'a>(
    alloc: Global,
    scratch: &mut Scratch,
    text: &'a [u8],
    room: u8,
) -> Result<&'a [u8], ReadError>
    requires room { room ≤ most_nested }
    requires two { 2 ≤ length text.now }
    ensures value { Gives (λ r. r.now) result (discarded_at room text.now) }
    ensures shorter { IfOk result (λ r. length r.now < length text.now) }
{
    if room == 0 {
        return Err(ReadError::at(Flaw::TooDeep, text));
    }
    let start = skip(alloc, scratch, after(text, 2), room - 1)?;
    let (_, rest) = read(alloc, scratch, start, room - 1)?;
    Ok(rest)
}

// The element at the front.
#[cycle(read)]
#[tactic(auto, using(crate::proofs::Turns::read_is), unfolding(crate::specs::Reading::read_with, crate::specs::ReadParts::single_at))]
pub(crate) fn read<'a>(
    alloc: Global,
    scratch: &mut Scratch,
    text: &'a [u8],
    room: u8,
) -> Result<(Value, &'a [u8]), ReadError>
    requires { room ≤ most_nested }
    ensures value { Gives (λ r. (r.0, r.1.now)) result (read_of room text.now) }
    ensures shorter { IfOk result (λ r. length r.1.now < length text.now) }
{
    match text {
        [] => Err(ReadError::at(Flaw::EndsEarly, text)),
        [b'[', ..] => vector(alloc, scratch, text, room, b']'),
        [b'(', ..] => vector(alloc, scratch, text, room, b')'),
        [b'{', ..] => mapping(alloc, scratch, text, room),
        [b'#', ..] => {
            if opens_set(text) {
                collection(alloc, scratch, text, room)
            } else {
                single(alloc, scratch, text)
            }
        }
        [_, ..] => single(alloc, scratch, text),
    }
}

#[cycle(read)]
#[tactic(auto, unfolding(crate::specs::ReadParts::vector_at, crate::specs::ReadParts::items_at, crate::specs::Reading::vector_with))]
fn vector<'a>(
    alloc: Global,
    scratch: &mut Scratch,
    text: &'a [u8],
    room: u8,
    close: u8,
) -> Result<(Value, &'a [u8]), ReadError>
    requires room { room ≤ most_nested }
    requires some { 0 < length text.now }
    ensures value { Gives (λ r. (r.0, r.1.now)) result (vector_at room close text.now) }
    ensures shorter { IfOk result (λ r. length r.1.now < length text.now) }
{
    if room == 0 {
        return Err(ReadError::at(Flaw::TooDeep, text));
    }
    let (mut list, rest) = items(alloc, scratch, after(text, 1), room - 1, close)?;
    if list.is_empty() {
        scratch.give_back(list);
        return Ok((scratch.interner.empty_vector(alloc)?, rest));
    }
    let items = Items::drained(alloc, &mut list)?;
    scratch.give_back(list);
    let _deepest = items.deepest();
    Ok((Value::of_lawful(Node::Vector(items)), rest))
}

#[cycle(read)]
#[tactic(auto, unfolding(crate::specs::ReadParts::mapping_at, crate::specs::ReadParts::map_at, crate::specs::Reading::mapping_with))]
fn mapping<'a>(
    alloc: Global,
    scratch: &mut Scratch,
    text: &'a [u8],
    room: u8,
) -> Result<(Value, &'a [u8]), ReadError>
    requires room { room ≤ most_nested }
    requires some { 0 < length text.now }
    ensures value { Gives (λ r. (r.0, r.1.now)) result (mapping_at room text.now) }
    ensures shorter { IfOk result (λ r. length r.1.now < length text.now) }
{
    if room == 0 {
        return Err(ReadError::at(Flaw::TooDeep, text));
    }
    let (pairs, rest) = entries(alloc, scratch, after(text, 1), room - 1)?;
    if pairs.is_empty() {
        return Ok((scratch.interner.empty_map(alloc)?, rest));
    }
    let entries = Entries::built(alloc, pairs)?;
    let _deepest = entries.deepest();
    Ok((Value::of_lawful(Node::Map(entries)), rest))
}

#[cycle(read)]
#[tactic(auto, unfolding(crate::specs::ReadParts::collection_at, crate::specs::ReadParts::set_at, crate::specs::Reading::collection_with))]
fn collection<'a>(
    alloc: Global,
    scratch: &mut Scratch,
    text: &'a [u8],
    room: u8,
) -> Result<(Value, &'a [u8]), ReadError>
    requires room { room ≤ most_nested }
    requires two { 2 ≤ length text.now }
    ensures value { Gives (λ r. (r.0, r.1.now)) result (collection_at room text.now) }
    ensures shorter { IfOk result (λ r. length r.1.now < length text.now) }
{
    if room == 0 {
        return Err(ReadError::at(Flaw::TooDeep, text));
    }
    let (values, rest) = elements(alloc, scratch, after(text, 2), room - 1)?;
    if values.is_empty() {
        return Ok((scratch.interner.empty_set(alloc)?, rest));
    }
    let elements = Elements::built(alloc, values)?;
    let _deepest = elements.deepest();
    Ok((Value::of_lawful(Node::Set(elements)), rest))
}

// Where the next element of a collection begins, the element, and what is behind it. Where the closing bracket stands
// there, it is that, nothing, and what is behind it.
#[inline(always)]
#[cycle(read)]
#[tactic(auto, unfolding(crate::specs::ReadParts::next_at, crate::specs::ReadParts::next_step))]
fn next<'a>(
    alloc: Global,
    scratch: &mut Scratch,
    text: &'a [u8],
    room: u8,
    close: u8,
) -> Result<(&'a [u8], Option<Value>, &'a [u8]), ReadError>
    requires { room ≤ most_nested }
    ensures value { Gives (λ r. (r.0.now, r.1, r.2.now)) result (next_at room close text.now) }
    ensures shorter { IfOk result (λ r. length r.2.now < length r.0.now) }
    ensures start { IfOk result (λ r. length r.0.now ≤ length text.now) }
{
    let start = skip(alloc, scratch, text, room)?;
    if start.is_empty() {
        return Err(ReadError::at(Flaw::EndsEarly, start));
    }
    if start[0] == close {
        return Ok((start, None, after(start, 1)));
    }
    let (value, rest) = read(alloc, scratch, start, room)?;
    Ok((start, Some(value), rest))
}

// The value of a key that has just been read.
#[cycle(read)]
#[tactic(auto, unfolding(crate::specs::ReadParts::value_at, crate::specs::Reading::value_step))]
fn value<'a>(
    alloc: Global,
    scratch: &mut Scratch,
    text: &'a [u8],
    room: u8,
) -> Result<(Value, &'a [u8]), ReadError>
    requires { room ≤ most_nested }
    ensures value { Gives (λ r. (r.0, r.1.now)) result (value_at room text.now) }
    ensures shorter { IfOk result (λ r. length r.1.now < length text.now) }
{
    let start = skip(alloc, scratch, text, room)?;
    if start.is_empty() {
        return Err(ReadError::at(Flaw::EndsEarly, start));
    }
    if start[0] == b'}' {
        return Err(ReadError::at(Flaw::OddMap, start));
    }
    read(alloc, scratch, start, room)
}

// The elements up to what closes them.
#[cycle(read)]
fn items<'a>(
    alloc: Global,
    scratch: &mut Scratch,
    text: &'a [u8],
    room: u8,
    close: u8,
) -> Result<(Vec<Value>, &'a [u8]), ReadError>
    requires { room ≤ most_nested }
    ensures value { Gives (λ r. (r.0.items, r.1.now)) result (items_at room close text.now) }
    ensures shorter { IfOk result (λ r. length r.1.now < length text.now) }
{
    let mut found = scratch.list(alloc);
    let mut rest = text;
    loop {
        let (_, item, behind) = next(alloc, scratch, rest, room, close)?;
        let Some(item) = item else {
            return Ok((found, behind));
        };
        found.push(item)?;
        rest = behind;
    }
}

// Appends the elements of a set in the order of reading, each with how many bytes were left where it began, up to the
// first fault, and gives what follows the closing bracket.
#[cycle(read)]
fn marked_elements<'a>(
    alloc: Global,
    scratch: &mut Scratch,
    text: &'a [u8],
    room: u8,
    found: &mut Vec<(Keyed, Reverse<usize>)>,
) -> Result<&'a [u8], ReadError>
    requires room { room ≤ most_nested }
    requires empty { found.old.items ≡ [] }
    ensures falls { Falls found.new.items }
    ensures twice { 0 < first_twice [] found.new.items
        → set_at room text.now ≡ Err (record { kind = Flaw.Duplicate; left = first_twice [] found.new.items }) }
    ensures once { first_twice [] found.new.items ≡ 0
        → Gives (λ rest. (inserts [] (elements_of found.new.items), rest.now)) result (set_at room text.now) }
    ensures shorter { IfOk result (λ rest. length rest.now < length text.now) }
{
    let mut rest = text;
    loop {
        let (start, element, behind) = next(alloc, scratch, rest, room, b'}')?;
        let Some(element) = element else {
            return Ok(behind);
        };
        found.push((Keyed::of(element), Reverse(start.len())))?;
        rest = behind;
    }
}

// The elements of a set in value order.
#[cycle(read)]
fn elements<'a>(
    alloc: Global,
    scratch: &mut Scratch,
    text: &'a [u8],
    room: u8,
) -> Result<(Vec<Value>, &'a [u8]), ReadError>
    requires { room ≤ most_nested }
    ensures value { Gives (λ r. (r.0.items, r.1.now)) result (set_at room text.now) }
    ensures ascends { IfOk result (λ r. IsTrue (elements_ascend (items_of r.0.items))) }
    ensures shorter { IfOk result (λ r. length r.1.now < length text.now) }
{
    let mut found = Vec::new(alloc);
    let end = marked_elements(alloc, scratch, text, room, &mut found);
    let left = sort_elements(&mut found);
    if left > 0 {
        return Err(ReadError::duplicate(left));
    }
    let rest = end?;
    Ok((into_values(alloc, found)?, rest))
}

// Appends the entries of a map in the order of reading, each with how many bytes were left where its key began, up to
// the first fault, and gives what follows the closing bracket. A key whose value is at fault has nil in its place.
#[cycle(read)]
fn marked_entries<'a>(
    alloc: Global,
    scratch: &mut Scratch,
    text: &'a [u8],
    room: u8,
    found: &mut Vec<((Keyed, Reverse<usize>), Value)>,
) -> Result<&'a [u8], ReadError>
    requires room { room ≤ most_nested }
    requires empty { found.old.items ≡ [] }
    ensures falls { Falls (keys_of found.new.items) }
    ensures twice { 0 < first_twice [] (keys_of found.new.items)
        → map_at room text.now
        ≡ Err (record { kind = Flaw.Duplicate; left = first_twice [] (keys_of found.new.items) }) }
    ensures once { first_twice [] (keys_of found.new.items) ≡ 0
        → Gives (λ rest. (inserts_entries [] (pairs_of found.new.items), rest.now)) result (map_at room text.now) }
    ensures shorter { IfOk result (λ rest. length rest.now < length text.now) }
{
    let mut rest = text;
    loop {
        let (start, key, behind) = next(alloc, scratch, rest, room, b'}')?;
        let Some(key) = key else {
            return Ok(behind);
        };
        let key = (Keyed::of(key), Reverse(start.len()));
        match value(alloc, scratch, behind, room) {
            Ok((value, behind)) => {
                found.push((key, value))?;
                rest = behind;
            }
            Err(error) => {
                found.push((key, Value::of_lawful(Node::Nil)))?;
                return Err(error);
            }
        }
    }
}

// The entries of a map in value order.
#[cycle(read)]
fn entries<'a>(
    alloc: Global,
    scratch: &mut Scratch,
    text: &'a [u8],
    room: u8,
) -> Result<(Vec<(Value, Value)>, &'a [u8]), ReadError>
    requires { room ≤ most_nested }
    ensures value { Gives (λ r. (r.0.items, r.1.now)) result (map_at room text.now) }
    ensures ascends { IfOk result (λ r. IsTrue (keys_ascend (entries_of r.0.items))) }
    ensures shorter { IfOk result (λ r. length r.1.now < length text.now) }
{
    let mut found = Vec::new(alloc);
    let end = marked_entries(alloc, scratch, text, room, &mut found);
    let left = sort_entries(&mut found);
    if left > 0 {
        return Err(ReadError::duplicate(left));
    }
    let rest = end?;
    Ok((into_pairs(alloc, found)?, rest))
}
