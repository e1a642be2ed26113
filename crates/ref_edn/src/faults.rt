//! Why a text is no EDN data, and where.
ghost use Rattle.std.specs.Prelude.{◌≡◌, length};
ghost use Rattle.ref_edn.specs.declared.faults.ReadError.TheVariants.{Memory};
ghost use Rattle.ref_edn.specs.Faults.{fault_at, name_of, place_of};

use std::alloc::{AllocError, AllocFailed};
use thiserror::Error;

/// What is wrong with a text, without where.
#[derive(Clone, Copy, Debug, PartialEq, Eq)]
pub(crate) enum Flaw {
    Nothing,
    EndsEarly,
    BadByte,
    BadNumber,
    TooLarge,
    BadEscape,
    BadName,
    WrongClose,
    Duplicate,
    OddMap,
    TooDeep,
    LeftOut,
    NotUtf8,
    Trailing,
}

/// What is wrong, and how many bytes are left from its place on.
#[derive(Clone, Copy, Debug, PartialEq, Eq)]
pub(crate) struct Fault {
    pub kind: Flaw,
    pub left: usize,
}

#[derive(Debug, Drop)]
pub(crate) enum ReadError {
    Memory,
    Fault(Fault),
}

impl ReadError {
    /// The fault at the place from which on these bytes are left.
    pub fn at(kind: Flaw, rest: &[u8]) -> ReadError
        ensures { result ≡ ReadError.Fault (record { kind = kind; left = length rest.now }) }
    {
        ReadError::Fault(Fault {
            kind,
            left: rest.len(),
        })
    }

    /// The fault that a key or an element is there already, where so many bytes were left.
    pub fn duplicate(left: usize) -> ReadError
        ensures { result ≡ ReadError.Fault (record { kind = Flaw.Duplicate; left = left }) }
    {
        ReadError::Fault(Fault {
            kind: Flaw::Duplicate,
            left,
        })
    }
}

impl From<AllocError> for ReadError {
    ghost from_gives = { λ _ e. e ≡ Memory };

    fn from(_e: AllocError) -> ReadError {
        ReadError::Memory
    }
}

impl<T: Drop> From<AllocFailed<T>> for ReadError {
    ghost from_gives = { λ _ e. e ≡ Memory };

    fn from(_e: AllocFailed<T>) -> ReadError {
        ReadError::Memory
    }
}

/// Why a text was not read. The number in each is the place in bytes from the start of the text.
#[derive(Clone, Copy, Debug, PartialEq, Eq, Error)]
pub enum ReadFault {
    /// There is no element; the place is the length of the text.
    #[error("no element before the end, at byte {0}")]
    Nothing(usize),
    /// The text ends in a string or a collection, or behind a discard; the place is the length of the text.
    #[error("the text ends too early, at byte {0}")]
    EndsEarly(usize),
    /// No element begins with this byte.
    #[error("no element begins with this byte, at byte {0}")]
    BadByte(usize),
    #[error("not a number, at byte {0}")]
    BadNumber(usize),
    /// An integer of more than 64 bits.
    #[error("an integer outside 64 bits, at byte {0}")]
    TooLarge(usize),
    #[error("an unknown escape in a string, at byte {0}")]
    BadEscape(usize),
    /// Neither a symbol nor a keyword.
    #[error("not a name, at byte {0}")]
    BadName(usize),
    /// A bracket closes what it doesn't open, or nothing.
    #[error("a closing bracket that closes nothing, at byte {0}")]
    WrongClose(usize),
    /// The second of two equal keys of a map, or elements of a set.
    #[error("a key or an element that is there already, at byte {0}")]
    Duplicate(usize),
    /// The bracket that closes a map whose last key has no value.
    #[error("a key without a value, at byte {0}")]
    OddMap(usize),
    /// More than 64 collections and discards would be open.
    #[error("nested more than 64 deep, at byte {0}")]
    TooDeep(usize),
    /// EDN that this profile leaves out, as a float, a character or a tag.
    #[error("left out of this profile of EDN, at byte {0}")]
    LeftOut(usize),
    #[error("not UTF-8, at byte {0}")]
    NotUtf8(usize),
    /// Something stands behind the one element.
    #[error("more than one element, at byte {0}")]
    Trailing(usize),
    #[error("out of memory")]
    Memory,
}

impl ReadFault {
    /// The name of the fault, as its variant is called.
    pub fn name(&self) -> &'static str
        ensures { result.now ≡ name_of self.now }
    {
        match self {
            ReadFault::Nothing(_) => "Nothing",
            ReadFault::EndsEarly(_) => "EndsEarly",
            ReadFault::BadByte(_) => "BadByte",
            ReadFault::BadNumber(_) => "BadNumber",
            ReadFault::TooLarge(_) => "TooLarge",
            ReadFault::BadEscape(_) => "BadEscape",
            ReadFault::BadName(_) => "BadName",
            ReadFault::WrongClose(_) => "WrongClose",
            ReadFault::Duplicate(_) => "Duplicate",
            ReadFault::OddMap(_) => "OddMap",
            ReadFault::TooDeep(_) => "TooDeep",
            ReadFault::LeftOut(_) => "LeftOut",
            ReadFault::NotUtf8(_) => "NotUtf8",
            ReadFault::Trailing(_) => "Trailing",
            ReadFault::Memory => "Memory",
        }
    }

    /// The place in bytes from the start of the text; `Memory` has none.
    pub fn place(&self) -> Option<usize>
        ensures { result ≡ place_of self.now }
    {
        match self {
            ReadFault::Nothing(place)
            | ReadFault::EndsEarly(place)
            | ReadFault::BadByte(place)
            | ReadFault::BadNumber(place)
            | ReadFault::TooLarge(place)
            | ReadFault::BadEscape(place)
            | ReadFault::BadName(place)
            | ReadFault::WrongClose(place)
            | ReadFault::Duplicate(place)
            | ReadFault::OddMap(place)
            | ReadFault::TooDeep(place)
            | ReadFault::LeftOut(place)
            | ReadFault::NotUtf8(place)
            | ReadFault::Trailing(place) => Some(*place),
            ReadFault::Memory => None,
        }
    }
}

// The fault at a place.
pub(crate) fn fault_at(kind: Flaw, place: usize) -> ReadFault
    ensures { result ≡ fault_at kind place }
{
    match kind {
        Flaw::Nothing => ReadFault::Nothing(place),
        Flaw::EndsEarly => ReadFault::EndsEarly(place),
        Flaw::BadByte => ReadFault::BadByte(place),
        Flaw::BadNumber => ReadFault::BadNumber(place),
        Flaw::TooLarge => ReadFault::TooLarge(place),
        Flaw::BadEscape => ReadFault::BadEscape(place),
        Flaw::BadName => ReadFault::BadName(place),
        Flaw::WrongClose => ReadFault::WrongClose(place),
        Flaw::Duplicate => ReadFault::Duplicate(place),
        Flaw::OddMap => ReadFault::OddMap(place),
        Flaw::TooDeep => ReadFault::TooDeep(place),
        Flaw::LeftOut => ReadFault::LeftOut(place),
        Flaw::NotUtf8 => ReadFault::NotUtf8(place),
        Flaw::Trailing => ReadFault::Trailing(place),
    }
}
