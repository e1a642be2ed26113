//! Why a transaction isn't committed.
ghost use Rattle.std.specs.Prelude.{◌≡◌};
ghost use Rattle.ref_refs.specs.declared.faults.CommitFault.TheVariants as commits;

use ref_fun::Cause;
use std::alloc::{AllocError, AllocFailed};
use thiserror::Error;

/// What of a transaction is foreign to the store that should commit it. One that was begun on this store has nothing foreign, if
/// its read point was the present one then; no contract says so, since the caller passes the points. One of another
/// store may have nothing foreign either: where it only commuted, say, it is committed here as if it had been begun here.
#[derive(Clone, Copy, Debug, Drop, PartialEq, Eq, Error)]
pub enum Alien {
    /// There is no ref of this number here.
    #[error("there is no ref {0} here")]
    Ref(u32),
    /// There is no agent of this number here.
    #[error("there is no agent {0} here")]
    Agent(u32),
    /// An operation changes the tally here and isn't `commute` of `+` or `-` with one integer of 0 or more.
    #[error("the tally here can only be added to and taken from")]
    Tally,
    /// The read point comes after the present one.
    #[error("point {0} is still to come")]
    Point(u64),
    /// The ref of this number is protected and unchanged, and began with another value than here.
    #[error("ref {0} had another value here")]
    Value(u32),
}

/// A protected ref that somebody else has changed.
#[derive(Clone, Copy, Debug, Drop, PartialEq, Eq)]
pub struct Conflict {
    /// The ref, the smallest of those in conflict.
    pub r: u32,
    /// The transaction's read point.
    pub read_point: u64,
    /// The point of the ref's last change, which comes after the read point.
    pub changed_at: u64,
}

/// Why a transaction wasn't committed. The store is as it was, and the transaction comes back.
#[derive(Clone, Copy, Debug, Drop, PartialEq, Eq, Error)]
pub enum CommitFault {
    /// The transaction was begun on another store, or at a point that is still to come.
    #[error("a transaction of another store: {0}")]
    Foreign(Alien),
    /// A ref that the transaction set, altered or ensured has changed since its read point. Begun anew, it may succeed.
    #[error("ref {} has changed", .0.r)]
    Conflict(Conflict),
    /// The function of an operation on the ref of this number refuses the latest value.
    #[error("refused at ref {0}: {1}")]
    Refused(u32, Cause),
    /// The rule of the ref of this number doesn't accept its new value.
    #[error("the rule of ref {0} doesn't accept its value")]
    Invalid(u32),
    /// Points end at 2^62.
    #[error("no point is left")]
    PointLimit,
    /// What is added to the tally, or what is taken from it, would pass what its book can hold.
    #[error("a book of the tally is full")]
    BookFull,
    #[error("out of memory")]
    Memory,
    /// The table has no function of this code, which a `commute` names, or no predicate of this code, which a rule names.
    #[error("the table lacks code {0}")]
    NoSuchFun(u32),
}

impl From<AllocError> for CommitFault {
    ghost from_gives = { λ _ f. f ≡ commits.Memory };

    fn from(_e: AllocError) -> CommitFault {
        CommitFault::Memory
    }
}

impl<T: Drop> From<AllocFailed<T>> for CommitFault {
    ghost from_gives = { λ _ f. f ≡ commits.Memory };

    fn from(_e: AllocFailed<T>) -> CommitFault {
        CommitFault::Memory
    }
}
