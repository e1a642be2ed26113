//! What a log is made of.
use crate::operations::{Done, Op};
use crate::sends::Sent;
use ref_fun::{Shareable, SharedVec};
use ref_value::Value;
use std::alloc::AllocError;

/// Who made a commit: the number of the worker, and of the step in its work.
#[derive(Clone, Copy, Debug, Drop, PartialEq, Eq)]
pub struct Stamp {
    pub worker: u32,
    pub step: u32,
}

/// One committed change.
pub enum Entry {
    Trans(Transaction),
    /// An operation on the atom of this number, and the value that the atom got. The operation is a `Set` or an `Alter`.
    Atom(u32, Op, Value),
    /// A ref was made, with the next number and this value.
    MadeRef(Value),
    /// An atom was made, with the next number and this value.
    MadeAtom(Value),
}

// A function of its own, which each place that drops one calls; a derived one would be written out there.
impl Drop for Entry {
    fn drop(self) {
        match self {
            Entry::Trans(_transaction) => {}
            Entry::Atom(_, _op, _answer) => {}
            Entry::MadeRef(_value) | Entry::MadeAtom(_value) => {}
        }
    }
}

/// A committed transaction. All that it read is as of its read point, the point of the last entry before it began.
#[derive(Drop)]
pub struct Transaction {
    pub stamp: Stamp,
    pub read_point: u64,
    /// The operations in the order in which they were made.
    pub dones: SharedVec<Done>,
    /// What it sent to agents, in the order in which it was sent.
    pub sends: SharedVec<Sent>,
}

impl Shareable for Transaction {
    fn share(&self) -> Result<Transaction, AllocError> {
        Ok(Transaction {
            stamp: self.stamp,
            read_point: self.read_point,
            dones: self.dones.share()?,
            sends: self.sends.share()?,
        })
    }
}

impl Shareable for Entry {
    fn share(&self) -> Result<Entry, AllocError> {
        match self {
            Entry::Trans(transaction) => Ok(Entry::Trans(transaction.share()?)),
            Entry::Atom(a, op, answer) => Ok(Entry::Atom(*a, op.share()?, answer.share()?)),
            Entry::MadeRef(value) => Ok(Entry::MadeRef(value.share()?)),
            Entry::MadeAtom(value) => Ok(Entry::MadeAtom(value.share()?)),
        }
    }
}
