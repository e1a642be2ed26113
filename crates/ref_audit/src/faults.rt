//! Why a world isn't dumped.
ghost use Rattle.std.specs.Prelude.{◌≡◌};

use std::alloc::{AllocError, AllocFailed};
use thiserror::Error;

/// Why no dump of a world was made.
#[derive(Clone, Copy, Debug, Drop, PartialEq, Eq, Error)]
pub enum DumpMakeFault {
    /// The dump would nest deeper than 64, as values do at most.
    #[error("the dump is nested too deep")]
    TooDeep,
    #[error("out of memory")]
    Memory,
    /// The log's sends or the agents' accounts name this code, the least that no function of Core has. This is asked first.
    #[error("no function has code {0}")]
    Unnamed(u32),
}

impl From<AllocError> for DumpMakeFault {
    ghost use Rattle.ref_audit.specs.declared.faults.DumpMakeFault.TheVariants.{Memory};

    ghost from_gives = { λ _ f. f ≡ Memory };

    fn from(_e: AllocError) -> DumpMakeFault {
        DumpMakeFault::Memory
    }
}

impl<T: Drop> From<AllocFailed<T>> for DumpMakeFault {
    ghost use Rattle.ref_audit.specs.declared.faults.DumpMakeFault.TheVariants.{Memory};

    ghost from_gives = { λ _ f. f ≡ Memory };

    fn from(_e: AllocFailed<T>) -> DumpMakeFault {
        DumpMakeFault::Memory
    }
}
