//! Why a function gives no value.
ghost use Rattle.std.specs.Prelude.{◌≡◌};
ghost use Rattle.ref_fun.specs.Calls.{call_fault_of};
ghost use Rattle.ref_fun.specs.declared.faults.FunFault.TheVariants.{Refused, Memory};

use std::alloc::AllocError;
use thiserror::Error;

/// Why a function refuses. A refusal follows from the state and the arguments alone.
#[derive(Clone, Copy, Debug, Drop, PartialEq, Eq, Error)]
pub enum Cause {
    /// The state or an argument is a value of another kind than the function takes.
    #[error("wrong kind of value")]
    WrongKind,
    /// The function doesn't take this number of arguments, or no function has this code.
    #[error("wrong number of arguments")]
    WrongArity,
    /// A number leaves the integers of 64 bits.
    #[error("integer overflow")]
    Overflow,
    /// The value would be nested too deep.
    #[error("nested too deep")]
    TooDeep,
}

/// Why a call gave no value.
#[derive(Clone, Copy, Debug, Drop, PartialEq, Eq, Error)]
pub enum FunFault {
    #[error("refused: {0}")]
    Refused(Cause),
    #[error("out of memory")]
    Memory,
}

impl From<Cause> for FunFault {
    ghost from_gives = { λ c f. f ≡ Refused c };

    fn from(cause: Cause) -> FunFault {
        FunFault::Refused(cause)
    }
}

impl From<AllocError> for FunFault {
    ghost from_gives = { λ _ f. f ≡ Memory };

    fn from(_e: AllocError) -> FunFault {
        FunFault::Memory
    }
}

/// Why a call by a code gave no value.
#[derive(Clone, Copy, Debug, Drop, PartialEq, Eq, Error)]
pub enum CallFault {
    /// The table has no function of this code.
    #[error("no function has code {0}")]
    NoSuchFun(u32),
    #[error("refused: {0}")]
    Refused(Cause),
    #[error("out of memory")]
    Memory,
}

impl From<FunFault> for CallFault {
    ghost from_gives = { λ e f. f ≡ call_fault_of e };

    fn from(fault: FunFault) -> CallFault {
        match fault {
            FunFault::Refused(cause) => CallFault::Refused(cause),
            FunFault::Memory => CallFault::Memory,
        }
    }
}

/// Why a table didn't take a function or a predicate.
#[derive(Clone, Copy, Debug, Drop, PartialEq, Eq, Error)]
pub enum AddFault {
    /// One of its kind has its code.
    #[error("the code is taken")]
    Taken,
    /// The table has 64 of its kind.
    #[error("the table is full")]
    Full,
    #[error("out of memory")]
    Memory,
}
