//! Why a workload isn't run to its end.
ghost use Rattle.std.specs.Prelude.{◌≡◌};
ghost use Rattle.ref_workload.specs.RunFaults.{edn_fault_of, plan_fault_of, stop_fault_of};

use ref_edn::ReadFault;
use ref_plan::PlanFault;
use std::alloc::AllocError;

/// Why a workload wasn't run to its end.
#[derive(Clone, Copy, Debug, Drop, PartialEq, Eq)]
pub enum RunFault {
    /// The reader failed.
    Read,
    /// The input has more than 16,777,216 bytes.
    InputTooLong,
    NotEdn(ReadFault),
    /// The value is no workload.
    Plan(PlanFault),
    /// The writer failed, or took nothing. A part of the output may be written.
    Write,
    /// There is no memory, or a thread can't be made.
    Memory,
    /// What a right program never meets.
    Internal,
}

/// What ends the work of one thread of a run, and the run with it.
#[derive(Clone, Copy, Debug, Drop, PartialEq, Eq)]
pub enum Stop {
    /// There is no memory, or a thread can't be made.
    Memory,
    /// What a right program never meets.
    Internal,
}

impl From<Stop> for RunFault {
    ghost from_gives = { λ s f. f ≡ stop_fault_of s };

    fn from(stop: Stop) -> RunFault {
        match stop {
            Stop::Memory => RunFault::Memory,
            Stop::Internal => RunFault::Internal,
        }
    }
}

impl From<ReadFault> for RunFault {
    ghost from_gives = { λ e f. f ≡ edn_fault_of e };

    fn from(fault: ReadFault) -> RunFault {
        match fault {
            ReadFault::Memory => RunFault::Memory,
            fault => RunFault::NotEdn(fault),
        }
    }
}

impl From<AllocError> for Stop {
    fn from(_e: AllocError) -> Stop {
        Stop::Memory
    }
}

impl From<PlanFault> for RunFault {
    ghost from_gives = { λ e f. f ≡ plan_fault_of e };

    fn from(fault: PlanFault) -> RunFault {
        match fault {
            PlanFault::Memory => RunFault::Memory,
            fault => RunFault::Plan(fault),
        }
    }
}
