//! Notices for watches.
use ref_value::Value;

/// A reference, by its kind and its number.
#[derive(Clone, Copy, Debug, Drop, PartialEq, Eq)]
pub enum Who {
    Ref(u32),
    Atom(u32),
    Agent(u32),
}

/// What a watch is called with after a change: the reference, the watch's key, and the values before and after.
#[derive(Drop)]
pub struct Notice {
    pub who: Who,
    pub key: Value,
    pub before: Value,
    pub after: Value,
}
