//! Names and strings that a text has had lately, and its collections without members. What comes again shares the block of the first
//! one, and needs no second look at its bytes: most texts write a few names many times, as the keys of their maps.
ghost use Rattle.std.specs.Prelude.{◌≡◌, ◌<◌, [], IfOk, IfSome, IsTrue, IsUtf8};
ghost use Rattle.ref_value.specs.Edn.{Edn, no_items, no_entries, keyword as keyword_of, string as string_of, symbol as symbol_of, vector as vector_of, map as map_of, set as set_of};
ghost use Rattle.ref_value.specs.Lawful.{IsLawful};

use ref_value::{Elements, Entries, Items, Node, Value};
use std::alloc::{AllocError, Global};

// How many names and strings are known at a time. No contract speaks of it.
const MOST_KNOWN: usize = 128;

// From how many bytes on a text may have enough names to look for them among the known ones.
const LONG: usize = 4_096;

// So many that aren't known pass before one is stored, so that those which don't come again cost little, and drive out few that do.
const MOST_PASSED: u8 = 7;

// How often one is shared before it gets a block of its own again, so that threads which go on with the parts of a text don't
// count the owners of one and the same block.
const MOST_SHARED: u8 = 200;

// A value, and how often it was shared.
#[derive(Drop)]
struct Known {
    value: Value,
    shared: u8,
}

/// Some of the names and strings that were read, each at the place that its bytes give, how many came since the last one was stored, and
/// the vector, the map and the set without members, once there was one.
#[derive(Drop)]
pub(crate) struct Interner {
    known: Vec<Known>,
    passed: u8,
    vector: Known,
    map: Known,
    set: Known,
}

// The place of a name or a string.
fn place_of(text: &[u8]) -> usize
    ensures { result < 128 }
{
    let n = text.len();
    if n == 0 {
        return 0;
    }
    let first = usize::from(text[0]);
    let middle = usize::from(text[n / 2]);
    let last = usize::from(text[n - 1]);
    (first + middle * 7 + last * 31 + n % MOST_KNOWN * 5) % MOST_KNOWN
}

// No value yet: none that is asked for is nil.
fn unknown() -> Known {
    Known {
        value: Value::of_lawful(Node::Nil),
        shared: 0,
    }
}

impl Known {
    // A value that may come again.
    fn of(value: &Value) -> Result<Known, AllocError>
        ensures { IfOk result (λ known. known.value ≡ value.now) }
    {
        Ok(Known {
            value: value.share()?,
            shared: 0,
        })
    }

    fn is_keyword(&self, name: &[u8]) -> bool
        ensures { IsTrue result → self.now.value ≡ keyword_of name.now }
    {
        match self.value.node() {
            Node::Keyword(text) => text.as_bytes() == name,
            Node::ShortKeyword(text) => text.as_bytes() == name,
            _ => false,
        }
    }

    fn is_symbol(&self, name: &[u8]) -> bool
        ensures { IsTrue result → self.now.value ≡ symbol_of name.now }
    {
        match self.value.node() {
            Node::Symbol(text) => text.as_bytes() == name,
            Node::ShortSymbol(text) => text.as_bytes() == name,
            _ => false,
        }
    }

    fn is_string(&self, content: &[u8]) -> bool
        ensures value { IsTrue result → self.now.value ≡ string_of content.now }
        ensures utf8 { IsTrue result → IsUtf8 content.now }
    {
        match self.value.node() {
            Node::Str(text) => text.as_bytes() == content,
            Node::ShortStr(text) => text.as_bytes() == content,
            _ => false,
        }
    }

    fn is_empty_vector(&self) -> bool
        ensures { IsTrue result → self.now.value ≡ vector_of no_items }
    {
        match self.value.node() {
            Node::Vector(items) => items.is_empty(),
            _ => false,
        }
    }

    fn is_empty_map(&self) -> bool
        ensures { IsTrue result → self.now.value ≡ map_of no_entries }
    {
        match self.value.node() {
            Node::Map(entries) => entries.is_empty(),
            _ => false,
        }
    }

    fn is_empty_set(&self) -> bool
        ensures { IsTrue result → self.now.value ≡ set_of no_items }
    {
        match self.value.node() {
            Node::Set(elements) => elements.is_empty(),
            _ => false,
        }
    }

    // Whether a further owner is counted. What lies in the node is copied.
    fn is_counted(&self) -> bool {
        !matches!(
            self.value.node(),
            Node::ShortStr(_) | Node::ShortKeyword(_) | Node::ShortSymbol(_)
        )
    }

    // The value once more, unless that was too often.
    fn again(&mut self) -> Result<Option<Value>, AllocError>
        ensures value { IfOk result (λ found. IfSome found (λ v. v ≡ self.old.value)) }
        ensures lawful { IfOk result (λ found. IfSome found IsLawful) }
    {
        if self.is_counted() {
            if self.shared >= MOST_SHARED {
                return Ok(None);
            }
            self.shared += 1;
        }
        let value = self.value.share()?;
        let _node = value.node();
        Ok(Some(value))
    }
}

// Places where no name is known yet.
fn free_places(alloc: Global) -> Result<Vec<Known>, AllocError> {
    let mut known = Vec::with_capacity(alloc, MOST_KNOWN)?;
    for _ in 0..MOST_KNOWN {
        known.push(unknown())?;
    }
    Ok(known)
}

// As many places as a text of this length gets: a short one none, and neither has a text one where there is no memory for that.
fn places_for(alloc: Global, len: usize) -> Vec<Known> {
    if len < LONG {
        return Vec::new(alloc);
    }
    match free_places(alloc) {
        Ok(known) => known,
        Err(_) => Vec::new(alloc),
    }
}

impl Interner {
    /// Nothing is known yet.
    pub(crate) fn for_text(alloc: Global, text: &[u8]) -> Interner {
        Interner {
            known: places_for(alloc, text.len()),
            passed: 0,
            vector: unknown(),
            map: unknown(),
            set: unknown(),
        }
    }

    /// The keyword of this name, where it is known.
    pub(crate) fn keyword(&mut self, name: &[u8]) -> Result<Option<Value>, AllocError>
        ensures value { IfOk result (λ found. IfSome found (λ v. v ≡ keyword_of name.now)) }
        ensures lawful { IfOk result (λ found. IfSome found IsLawful) }
    {
        match self.known.get_mut(place_of(name)) {
            Some(known) => {
                if known.is_keyword(name) {
                    known.again()
                } else {
                    Ok(None)
                }
            }
            None => Ok(None),
        }
    }

    /// The symbol of this name, where it is known.
    pub(crate) fn symbol(&mut self, name: &[u8]) -> Result<Option<Value>, AllocError>
        ensures value { IfOk result (λ found. IfSome found (λ v. v ≡ symbol_of name.now)) }
        ensures lawful { IfOk result (λ found. IfSome found IsLawful) }
    {
        match self.known.get_mut(place_of(name)) {
            Some(known) => {
                if known.is_symbol(name) {
                    known.again()
                } else {
                    Ok(None)
                }
            }
            None => Ok(None),
        }
    }

    /// The string of this content, where it is known.
    pub(crate) fn string(&mut self, content: &[u8]) -> Result<Option<Value>, AllocError>
        ensures value { IfOk result (λ found. IfSome found (λ v. v ≡ string_of content.now)) }
        ensures lawful { IfOk result (λ found. IfSome found IsLawful) }
    {
        match self.known.get_mut(place_of(content)) {
            Some(known) => {
                if known.is_string(content) {
                    known.again()
                } else {
                    Ok(None)
                }
            }
            None => Ok(None),
        }
    }

    /// The vector without elements.
    pub(crate) fn empty_vector(&mut self, alloc: Global) -> Result<Value, AllocError>
        ensures value { IfOk result (λ v. v ≡ vector_of no_items) }
        ensures lawful { IfOk result IsLawful }
    {
        if self.vector.is_empty_vector() {
            if let Some(value) = self.vector.again()? {
                return Ok(value);
            }
        }
        let items = Items::of(alloc, Vec::new(alloc))?;
        let value = Value::of_lawful(Node::Vector(items));
        self.vector = Known::of(&value)?;
        Ok(value)
    }

    /// The map without entries.
    pub(crate) fn empty_map(&mut self, alloc: Global) -> Result<Value, AllocError>
        ensures value { IfOk result (λ v. v ≡ map_of no_entries) }
        ensures lawful { IfOk result IsLawful }
    {
        if self.map.is_empty_map() {
            if let Some(value) = self.map.again()? {
                return Ok(value);
            }
        }
        let entries = Entries::of(alloc, Vec::new(alloc))?;
        let value = Value::of_lawful(Node::Map(entries));
        self.map = Known::of(&value)?;
        Ok(value)
    }

    /// The set without elements.
    pub(crate) fn empty_set(&mut self, alloc: Global) -> Result<Value, AllocError>
        ensures value { IfOk result (λ v. v ≡ set_of no_items) }
        ensures lawful { IfOk result IsLawful }
    {
        if self.set.is_empty_set() {
            if let Some(value) = self.set.again()? {
                return Ok(value);
            }
        }
        let elements = Elements::of(alloc, Vec::new(alloc))?;
        let value = Value::of_lawful(Node::Set(elements));
        self.set = Known::of(&value)?;
        Ok(value)
    }

    /// The value of a name or a string that wasn't known; it may be from now on.
    pub(crate) fn kept(&mut self, text: &[u8], value: Value) -> Result<Value, AllocError>
        ensures { IfOk result (λ v. v ≡ value) }
    {
        if self.passed < MOST_PASSED {
            self.passed += 1;
            return Ok(value);
        }
        self.passed = 0;
        if let Some(known) = self.known.get_mut(place_of(text)) {
            *known = Known::of(&value)?;
        }
        Ok(value)
    }
}
