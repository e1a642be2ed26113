//! Why a value is no workload.
ghost use Rattle.std.specs.Prelude.{◌≡◌};
ghost use Rattle.ref_plan.specs.declared.plan_faults.PlanFault.TheVariants.{Memory};

use ref_log::Who;
use std::alloc::{AllocError, AllocFailed};
use thiserror::Error;

/// Why a value is no workload, or isn't taken as one: the first reason in the order of the variants, but that the references are
/// looked at one after another, refs before atoms before agents, and then the steps one after another, by worker, then step.
#[derive(Clone, Copy, Debug, Drop, PartialEq, Eq, Error)]
pub enum PlanFault {
    /// It is no map, a key is missing or unknown, or a part is of the wrong kind.
    #[error("not a workload")]
    NotWorkload,
    /// The version is an integer other than 1 and 2.
    #[error("a version other than 1 and 2")]
    BadVersion,
    /// There are too many references of a kind, workers, or steps of a worker, or the pool is too small or too large.
    #[error("too many references, workers or steps, or a pool out of range")]
    TooMany,
    /// The reference at this position of its kind has a wrong form, an unknown predicate, too many arguments, or a value that is
    /// nested too deep.
    #[error("{} {} is not a reference", kind_of(.0), position_of(.0))]
    BadReference(Who),
    /// The name of the reference is that of an earlier one, of whatever kind.
    #[error("the name of {} {} is taken", kind_of(.0), position_of(.0))]
    NameTwice(Who),
    /// The ref is declared as the tally, and an earlier one is it already, or its value is no integer of 0 or more.
    #[error("{} {} can't be the tally", kind_of(.0), position_of(.0))]
    BadTally(Who),
    /// The rule of the reference doesn't accept its value.
    #[error("the rule of {} {} doesn't accept its value", kind_of(.0), position_of(.0))]
    StartInvalid(Who),
    /// The step has a wrong form, too many operations or arguments, or a value that is nested too deep.
    #[error("step {step} of worker {worker} is not a step")]
    BadStep { worker: u32, step: u32 },
    /// The step names a reference that isn't declared, or is of another kind than the step needs.
    #[error("step {step} of worker {worker} names an unknown reference")]
    UnknownName { worker: u32, step: u32 },
    /// The step names a function, or a predicate, that isn't there.
    #[error("step {step} of worker {worker} names an unknown function")]
    UnknownFun { worker: u32, step: u32 },
    #[error("out of memory")]
    Memory,
}

fn kind_of(who: &Who) -> &'static str {
    match who {
        Who::Ref(_) => "ref",
        Who::Atom(_) => "atom",
        Who::Agent(_) => "agent",
    }
}

fn position_of(who: &Who) -> u32 {
    match who {
        Who::Ref(n) | Who::Atom(n) | Who::Agent(n) => *n,
    }
}

impl From<AllocError> for PlanFault {
    ghost from_gives = { λ _ f. f ≡ Memory };

    fn from(_e: AllocError) -> PlanFault {
        PlanFault::Memory
    }
}

impl<T: Drop> From<AllocFailed<T>> for PlanFault {
    ghost from_gives = { λ _ f. f ≡ Memory };

    fn from(_e: AllocFailed<T>) -> PlanFault {
        PlanFault::Memory
    }
}
