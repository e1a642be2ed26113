//! The values of all references at one point.
use ref_fun::SharedVec;
use ref_value::Value;

/// What a log begins with.
#[derive(Drop)]
pub struct Base {
    /// The base's point. The entries have the points after it, one by one.
    pub point: u64,
    /// The values of the refs, by number.
    pub refs: SharedVec<Value>,
    /// The point of each ref's last change, by number: 0 where the ref was declared at the start and never changed.
    pub last: SharedVec<u64>,
    /// The values of the atoms, by number.
    pub atoms: SharedVec<Value>,
    /// The number of the tally, if there is one, also where it is made by a later entry.
    pub tally: Option<u32>,
    /// How many transactions were committed up to the base.
    pub commits: u64,
    /// How much was added to the tally up to the base.
    pub added: u64,
    /// How much was taken from the tally up to the base.
    pub taken: u64,
}

/// What a replay ends with.
#[derive(Drop)]
pub struct PlainState {
    /// The values of the refs, by number.
    pub refs: SharedVec<Value>,
    /// The values of the atoms, by number.
    pub atoms: SharedVec<Value>,
}
