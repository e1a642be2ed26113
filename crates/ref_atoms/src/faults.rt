//! Why an atom isn't changed.
ghost use Rattle.std.specs.Prelude.{◌≡◌};
ghost use Rattle.ref_atoms.specs.declared.faults.AtomFault.TheVariants.{Memory};

use ref_fun::Cause;
use std::alloc::{AllocError, AllocFailed};
use thiserror::Error;

/// Why an atom isn't changed. The store is as it was.
#[derive(Clone, Copy, Debug, Drop, PartialEq, Eq, Error)]
pub enum AtomFault {
    /// There is no atom of this number.
    #[error("there is no such atom")]
    NoSuchAtom,
    /// The table has no function of this code, or no predicate of this code, which the atom's rule names.
    #[error("the table lacks code {0}")]
    NoSuchFun(u32),
    /// The function refuses the atom's value.
    #[error("refused: {0}")]
    Refused(Cause),
    /// The atom's rule doesn't accept the new value.
    #[error("the rule doesn't accept the value")]
    Invalid,
    /// Points end at 2^62.
    #[error("no point is left")]
    PointLimit,
    #[error("out of memory")]
    Memory,
}

impl From<AllocError> for AtomFault {
    ghost from_gives = { λ _ f. f ≡ Memory };

    fn from(_e: AllocError) -> AtomFault {
        AtomFault::Memory
    }
}

impl<T: Drop> From<AllocFailed<T>> for AtomFault {
    ghost from_gives = { λ _ f. f ≡ Memory };

    fn from(_e: AllocFailed<T>) -> AtomFault {
        AtomFault::Memory
    }
}
