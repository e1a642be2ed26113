//! Why a log has no replay, and why a store of references refuses what can be asked of each kind.
ghost use Rattle.std.specs.Prelude.{◌≡◌};
ghost use Rattle.ref_log.specs.declared.faults.AuditFault.TheVariants.{Memory};
ghost use Rattle.ref_log.specs.declared.faults.MakeFault.TheVariants as makes;
ghost use Rattle.ref_log.specs.declared.faults.WatchFault.TheVariants as watches;

use std::alloc::{AllocError, AllocFailed};
use thiserror::Error;

/// Why entries have no replay. A point is that of the first entry at fault.
#[derive(Clone, Copy, Debug, Drop, PartialEq, Eq, Error)]
pub enum AuditFault {
    /// The kept answer of an operation isn't the value that it gives.
    #[error("the entry at point {0} keeps a wrong answer")]
    Answer(u64),
    /// The function of an operation refuses.
    #[error("a function refuses in the entry at point {0}")]
    Refuses(u64),
    /// The ref or the atom of an operation isn't there.
    #[error("the entry at point {0} is about a reference that isn't there")]
    NoSuch(u64),
    #[error("out of memory")]
    Memory,
    /// The table has no function of this code, which an operation calls.
    #[error("no function has code {0}")]
    NoSuchFun(u32),
}

/// Why a reference wasn't made. The store is as it was.
#[derive(Clone, Copy, Debug, Drop, PartialEq, Eq, Error)]
pub enum MakeFault {
    /// There are 2^20 of its kind.
    #[error("there are too many references")]
    Full,
    /// There is a tally, or this value isn't an integer of 0 or more. Only a ref can be the tally.
    #[error("a tally has to be the only one, and to start with an integer of 0 or more")]
    BadTally,
    /// The rule doesn't accept the value.
    #[error("the rule doesn't accept the value")]
    Invalid,
    /// Points end at 2^62.
    #[error("no point is left")]
    PointLimit,
    #[error("out of memory")]
    Memory,
    /// The table has no predicate of this code.
    #[error("no predicate has code {0}")]
    NoSuchFun(u32),
}

/// Why a reference wasn't given another rule. The store is as it was.
#[derive(Clone, Copy, Debug, Drop, PartialEq, Eq, Error)]
pub enum RuleFault {
    /// There is no reference of this number.
    #[error("there is no such reference")]
    NoSuch,
    /// The rule doesn't accept the value of the reference.
    #[error("the rule doesn't accept the value")]
    Invalid,
    #[error("out of memory")]
    Memory,
    /// The table has no predicate of this code.
    #[error("no predicate has code {0}")]
    NoSuchFun(u32),
}

/// Why a watch wasn't added. The store is as it was.
#[derive(Clone, Copy, Debug, Drop, PartialEq, Eq, Error)]
pub enum WatchFault {
    /// There is no reference of this number.
    #[error("there is no such reference")]
    NoSuch,
    #[error("out of memory")]
    Memory,
}

impl From<AllocError> for AuditFault {
    ghost from_gives = { λ _ f. f ≡ Memory };

    fn from(_e: AllocError) -> AuditFault {
        AuditFault::Memory
    }
}

impl From<AllocError> for MakeFault {
    ghost from_gives = { λ _ f. f ≡ makes.Memory };

    fn from(_e: AllocError) -> MakeFault {
        MakeFault::Memory
    }
}

impl<T: Drop> From<AllocFailed<T>> for MakeFault {
    ghost from_gives = { λ _ f. f ≡ makes.Memory };

    fn from(_e: AllocFailed<T>) -> MakeFault {
        MakeFault::Memory
    }
}

impl From<AllocError> for WatchFault {
    ghost from_gives = { λ _ f. f ≡ watches.Memory };

    fn from(_e: AllocError) -> WatchFault {
        WatchFault::Memory
    }
}

impl<T: Drop> From<AllocFailed<T>> for WatchFault {
    ghost from_gives = { λ _ f. f ≡ watches.Memory };

    fn from(_e: AllocFailed<T>) -> WatchFault {
        WatchFault::Memory
    }
}
