//! Why a call on a shared world is refused.
ghost use Rattle.std.specs.Prelude.{◌≡◌};
ghost use Rattle.ref_shared.specs.declared.faults.GatherFault.TheVariants as gathers;

use ref_agents::JobFault;
use ref_refs::{CommitFault, Conflict};
use std::alloc::{AllocError, AllocFailed};
use std::fmt::Display;
use thiserror::Error;

/// Why a transaction came to no commit. World and share are as they were. E is what the body may answer.
#[derive(Clone, Copy, Debug, Drop, PartialEq, Eq, Error)]
#[error_bound(E: Display)]
pub enum TransactFault<E> {
    /// Each of so many tries was in conflict, the last of them so.
    #[error("given up after {tries} tries: ref {} has changed", .conflict.r)]
    GaveUp { tries: u32, conflict: Conflict },
    /// The body ended the transaction.
    #[error("the body ended it: {0}")]
    Body(E),
    /// The commit was refused, and another try would be too.
    #[error("the commit was refused: {0}")]
    Commit(CommitFault),
    #[error("out of memory")]
    Memory,
}

/// Why a transaction that waits came to no commit. World and share are as they were. E is what the body may return.
#[derive(Clone, Copy, Debug, Drop, PartialEq, Eq, Error)]
#[error_bound(E: Display)]
pub enum WaitFault<E> {
    /// The shared world was closed while the body wasn't ready, and no entry had come since the transaction began.
    #[error("closed before it was ready")]
    Closed,
    /// As of a transaction that doesn't wait.
    #[error("{0}")]
    Transact(TransactFault<E>),
}

/// Why a call that waits for agents returned before all was gone that it waited for. Nothing was changed.
#[derive(Clone, Copy, Debug, Drop, PartialEq, Eq, Error)]
pub enum AwaitFault {
    /// There is no such agent.
    #[error("there is no agent {0}")]
    NoSuchAgent(u32),
    /// An action that was waited for stands behind the failure of this agent. It waits there until a restart.
    #[error("agent {0} is failed")]
    Failed(u32),
    /// The shared world was closed, and not all was gone: nobody need be there who runs it.
    #[error("closed before all was done")]
    Closed,
    #[error("out of memory")]
    Memory,
}

/// Why an action wasn't run to its end.
#[derive(Clone, Copy, Debug, Drop, PartialEq, Eq, Error)]
pub enum WorkFault {
    /// The table lacks this code: of the action's function, or of the predicate that the agent's rule names. The action waits
    /// again.
    #[error("the table lacks code {0}")]
    NoSuchFun(u32),
    /// Where an action was taken, it waits again.
    #[error("out of memory")]
    Memory,
    /// The job that was taken is no job of this world any more. A right program never meets this.
    #[error("the job isn't on its way here")]
    Foreign,
}

impl From<JobFault> for WorkFault {
    ghost use Rattle.ref_shared.specs.Faults.{work_fault_of};

    ghost from_gives = { λ e f. f ≡ work_fault_of e };

    fn from(e: JobFault) -> WorkFault {
        match e {
            JobFault::NoSuchFun(code) => WorkFault::NoSuchFun(code),
            JobFault::Memory => WorkFault::Memory,
        }
    }
}

/// Why the receipts don't fit the log.
#[derive(Clone, Copy, Debug, Drop, PartialEq, Eq, Error)]
pub enum GatherFault {
    /// An entry of a transaction or an atom lacks its receipt, or a receipt its entry.
    #[error("log and receipts differ")]
    ReceiptMissing,
    /// The steps of a worker don't rise along the log, or one of them began before the worker's entry before it was there.
    #[error("the steps of a worker are out of order")]
    OutOfOrder,
    #[error("out of memory")]
    Memory,
}

impl From<AllocError> for GatherFault {
    ghost from_gives = { λ _ f. f ≡ gathers.Memory };

    fn from(_e: AllocError) -> GatherFault {
        GatherFault::Memory
    }
}

impl<T: Drop> From<AllocFailed<T>> for GatherFault {
    ghost from_gives = { λ _ f. f ≡ gathers.Memory };

    fn from(_e: AllocFailed<T>) -> GatherFault {
        GatherFault::Memory
    }
}
