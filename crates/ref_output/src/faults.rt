//! Why an output isn't written to its end.
ghost use Rattle.std.specs.Prelude.{◌≡◌};
ghost use Rattle.ref_output.specs.declared.faults.OutputFault.TheVariants.{Write, Memory};

use ref_edn::Failed;
use std::alloc::{AllocError, AllocFailed};
use thiserror::Error;

/// Why an output wasn't written to its end.
#[derive(Clone, Copy, Debug, Drop, PartialEq, Eq, Error)]
pub enum OutputFault {
    /// The writer failed, or took nothing.
    #[error("the output could not be written")]
    Write,
    #[error("out of memory")]
    Memory,
}

impl From<Failed> for OutputFault {
    ghost from_gives = { λ _ f. f ≡ Write };

    fn from(_e: Failed) -> OutputFault {
        OutputFault::Write
    }
}

impl From<AllocError> for OutputFault {
    ghost from_gives = { λ _ f. f ≡ Memory };

    fn from(_e: AllocError) -> OutputFault {
        OutputFault::Memory
    }
}

impl<T: Drop> From<AllocFailed<T>> for OutputFault {
    ghost from_gives = { λ _ f. f ≡ Memory };

    fn from(_e: AllocFailed<T>) -> OutputFault {
        OutputFault::Memory
    }
}
