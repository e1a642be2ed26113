//! Why a transaction refuses a call.
ghost use Rattle.std.specs.Prelude.{◌≡◌};
ghost use Rattle.ref_tx.specs.declared.faults.TxFault.TheVariants.{Memory};

use ref_fun::Cause;
use std::alloc::{AllocError, AllocFailed};
use thiserror::Error;

/// Why a call was refused. The transaction is as it was before the call.
#[derive(Clone, Copy, Debug, Drop, PartialEq, Eq, Error)]
pub enum TxFault {
    /// There was no ref of this number when the transaction began.
    #[error("no such ref")]
    NoSuchRef,
    /// The ref was commuted in this transaction, and can't be set in it any more.
    #[error("set after commute")]
    SetAfterCommute,
    /// The ref is the tally, which only `commute` of `+` or `-` with one integer of 0 or more may change.
    #[error("the tally can only be added to and taken from")]
    TallyOnly,
    /// The function refused.
    #[error("refused: {0}")]
    Refused(Cause),
    /// The table has no function of this code.
    #[error("no function has code {0}")]
    NoSuchFun(u32),
    /// When the transaction began there was no agent of this number, or the action carries a send to one that wasn't there.
    #[error("no such agent")]
    NoSuchAgent,
    /// The rule doesn't accept the in-transaction value.
    #[error("the requirement is not met")]
    NotMet,
    #[error("out of memory")]
    Memory,
}

impl From<AllocError> for TxFault {
    ghost from_gives = { λ _ f. f ≡ Memory };

    fn from(_e: AllocError) -> TxFault {
        TxFault::Memory
    }
}

impl<T: Drop> From<AllocFailed<T>> for TxFault {
    ghost from_gives = { λ _ f. f ≡ Memory };

    fn from(_e: AllocFailed<T>) -> TxFault {
        TxFault::Memory
    }
}
