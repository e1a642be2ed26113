//! Why a checkpoint is refused.
ghost use Rattle.std.specs.Prelude.{◌≡◌};
ghost use Rattle.ref_world.specs.declared.faults.CheckpointFault.TheVariants.{Memory};

use std::alloc::{AllocError, AllocFailed};
use thiserror::Error;

/// Why a checkpoint wasn't made. The world is as it was.
#[derive(Clone, Copy, Debug, Drop, PartialEq, Eq, Error)]
pub enum CheckpointFault {
    /// The point is before the base's, or after the present one.
    #[error("there is no such point in the log")]
    NoSuchPoint,
    #[error("out of memory")]
    Memory,
    /// The table has no function of this code, which an entry calls that would be folded.
    #[error("no function has code {0}")]
    NoSuchFun(u32),
}

impl From<AllocError> for CheckpointFault {
    ghost from_gives = { λ _ f. f ≡ Memory };

    fn from(_e: AllocError) -> CheckpointFault {
        CheckpointFault::Memory
    }
}

impl<T: Drop> From<AllocFailed<T>> for CheckpointFault {
    ghost from_gives = { λ _ f. f ≡ Memory };

    fn from(_e: AllocFailed<T>) -> CheckpointFault {
        CheckpointFault::Memory
    }
}
