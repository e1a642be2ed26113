//! Why a value is no list of events.
ghost use Rattle.std.specs.Prelude.{◌≡◌};
ghost use Rattle.ref_events.specs.Reading.{reference_fault_of};
ghost use Rattle.ref_events.specs.declared.faults.ScriptFault.TheVariants.{Memory};

use ref_plan::PlanFault;
use std::alloc::{AllocError, AllocFailed};
use thiserror::Error;

/// Why a value is no list of events, or isn't taken as one: the first reason in the order of the variants, but that the references
/// are looked at one after another, refs before atoms before agents, and then the events one after another.
#[derive(Clone, Copy, Debug, Drop, PartialEq, Eq, Error)]
pub enum ScriptFault {
    /// It is no map, a key is missing or unknown, or a part is of the wrong kind.
    #[error("not a list of events")]
    NotEvents,
    /// The version is an integer other than 1.
    #[error("a version other than 1")]
    BadVersion,
    /// There are too many references of a kind, or events.
    #[error("too many references or events")]
    TooMany,
    /// What is wrong with a reference, as in a workload.
    #[error("{0}")]
    Reference(PlanFault),
    /// The event of this number has a wrong form, an unknown act, too many arguments, or is nested too deep.
    #[error("event {0} is not an event")]
    BadEvent(u32),
    /// The event names a reference that isn't declared, or is of another kind than the act needs.
    #[error("event {0} names an unknown reference")]
    UnknownName(u32),
    /// The event names a function, or a predicate, that isn't there.
    #[error("event {0} names an unknown function")]
    UnknownFun(u32),
    #[error("out of memory")]
    Memory,
}

impl From<AllocError> for ScriptFault {
    ghost from_gives = { λ _ f. f ≡ Memory };

    fn from(_e: AllocError) -> ScriptFault {
        ScriptFault::Memory
    }
}

impl<T: Drop> From<AllocFailed<T>> for ScriptFault {
    ghost from_gives = { λ _ f. f ≡ Memory };

    fn from(_e: AllocFailed<T>) -> ScriptFault {
        ScriptFault::Memory
    }
}

impl From<PlanFault> for ScriptFault {
    ghost from_gives = { λ e f. f ≡ reference_fault_of e };

    fn from(fault: PlanFault) -> ScriptFault {
        match fault {
            PlanFault::Memory => ScriptFault::Memory,
            fault => ScriptFault::Reference(fault),
        }
    }
}
