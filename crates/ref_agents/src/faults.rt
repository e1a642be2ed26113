//! Why a call on an agent is refused, and why an agent failed.
ghost use Rattle.std.specs.Prelude.{◌≡◌};

use ref_fun::Cause;
use std::alloc::{AllocError, AllocFailed};
use thiserror::Error;

/// Why an action failed, which fails its agent or not, by the agent's error mode.
#[derive(Clone, Copy, Debug, Drop, PartialEq, Eq, Error)]
pub enum AgentError {
    /// The function refused the state.
    #[error("refused: {0}")]
    Refused(Cause),
    /// The agent's rule doesn't accept the value.
    #[error("the rule doesn't accept the value")]
    Invalid,
}

/// Why the error mode of an agent isn't set. The store is as it was.
#[derive(Clone, Copy, Debug, Drop, PartialEq, Eq, Error)]
pub enum ModeFault {
    /// There is no agent of this number.
    #[error("there is no such agent")]
    NoSuchAgent,
}

/// Why an action isn't queued. The store is as it was.
#[derive(Clone, Copy, Debug, Drop, PartialEq, Eq, Error)]
pub enum SendFault {
    /// There is no agent of this number, or the action carries a send to one that isn't there.
    #[error("there is no such agent")]
    NoSuchAgent,
    /// The agent is failed, and takes no send until it is restarted.
    #[error("the agent is failed")]
    Failed,
    #[error("out of memory")]
    Memory,
}

impl From<AllocError> for SendFault {
    ghost use Rattle.ref_agents.specs.declared.faults.SendFault.TheVariants.{Memory};

    ghost from_gives = { λ _ f. f ≡ Memory };

    fn from(_e: AllocError) -> SendFault {
        SendFault::Memory
    }
}

impl<T: Drop> From<AllocFailed<T>> for SendFault {
    ghost use Rattle.ref_agents.specs.declared.faults.SendFault.TheVariants.{Memory};

    ghost from_gives = { λ _ f. f ≡ Memory };

    fn from(_e: AllocFailed<T>) -> SendFault {
        SendFault::Memory
    }
}

/// Why a job isn't run.
#[derive(Clone, Copy, Debug, Drop, PartialEq, Eq, Error)]
pub enum JobFault {
    /// The table has no function of this code.
    #[error("the table lacks code {0}")]
    NoSuchFun(u32),
    #[error("out of memory")]
    Memory,
}

/// Why a job isn't finished. The store is as it was.
#[derive(Clone, Copy, Debug, Drop, PartialEq, Eq, Error)]
pub enum FinishFault {
    /// No such job is on its way here.
    #[error("no such job is on its way here")]
    Foreign,
    #[error("out of memory")]
    Memory,
    /// The table has no predicate of this code, which the agent's rule names.
    #[error("the table lacks code {0}")]
    NoSuchFun(u32),
}

impl From<AllocError> for FinishFault {
    ghost use Rattle.ref_agents.specs.declared.faults.FinishFault.TheVariants.{Memory};

    ghost from_gives = { λ _ f. f ≡ Memory };

    fn from(_e: AllocError) -> FinishFault {
        FinishFault::Memory
    }
}

/// Why an agent isn't restarted. The store is as it was.
#[derive(Clone, Copy, Debug, Drop, PartialEq, Eq, Error)]
pub enum RestartFault {
    /// There is no agent of this number.
    #[error("there is no such agent")]
    NoSuchAgent,
    /// The agent isn't failed.
    #[error("the agent is not failed")]
    NotFailed,
    /// The agent's rule doesn't accept the new state.
    #[error("the rule doesn't accept the value")]
    Invalid,
    #[error("out of memory")]
    Memory,
    /// The table has no predicate of this code, which the agent's rule names.
    #[error("the table lacks code {0}")]
    NoSuchFun(u32),
}

impl From<AllocError> for RestartFault {
    ghost use Rattle.ref_agents.specs.declared.faults.RestartFault.TheVariants.{Memory};

    ghost from_gives = { λ _ f. f ≡ Memory };

    fn from(_e: AllocError) -> RestartFault {
        RestartFault::Memory
    }
}
