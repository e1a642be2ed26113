//! What a change of an atom answers.

use ref_log::{Entry, Notice};
use ref_value::Value;

/// What `swap` and `reset` answer: the values before and after, as Clojure's `swap-vals!` and `reset-vals!` do, and
/// the notices for the atom's watches.
#[derive(Drop)]
pub struct Swapped {
    pub old: Value,
    pub new: Value,
    pub notices: Vec<Notice>,
}

/// What `compare_and_set` returns: whether the atom was set, and the notices for its watches.
#[derive(Drop)]
pub struct Cas {
    pub done: bool,
    pub notices: Vec<Notice>,
}

/// A change of the atom of number `a` that was tested: its new value, its entry for a log, and what is answered.
#[derive(Drop)]
pub struct Change {
    pub a: u32,
    pub value: Value,
    pub entry: Entry,
    pub swapped: Swapped,
}
