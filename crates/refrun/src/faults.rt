//! Why a command wasn't carried out.
ghost use Rattle.std.specs.Prelude.{◌≡◌};
ghost use Rattle.refrun.specs.Auditing.{dump_fault_of, edn_fault_of};

use ref_audit::DumpFault;
use ref_edn::ReadFault;
use ref_events::ScriptFault;
use ref_workload::RunFault;

/// Why a dump wasn't audited or shown.
#[derive(Clone, Copy, Debug, Drop, PartialEq, Eq)]
pub enum AuditRunFault {
    /// The reader failed.
    Read,
    /// The input has more than 16,777,216 bytes.
    InputTooLong,
    NotEdn(ReadFault),
    Dump(DumpFault),
    /// Neither the base of the dump nor an entry has this point.
    NoPoint(u64),
    /// The writer failed, or took nothing. A part of the output may be written.
    Write,
    Memory,
}

impl From<ReadFault> for AuditRunFault {
    ghost from_gives = { λ e f. f ≡ edn_fault_of e };

    fn from(fault: ReadFault) -> AuditRunFault {
        match fault {
            ReadFault::Memory => AuditRunFault::Memory,
            fault => AuditRunFault::NotEdn(fault),
        }
    }
}

impl From<DumpFault> for AuditRunFault {
    ghost from_gives = { λ e f. f ≡ dump_fault_of e };

    fn from(fault: DumpFault) -> AuditRunFault {
        match fault {
            DumpFault::Memory => AuditRunFault::Memory,
            fault => AuditRunFault::Dump(fault),
        }
    }
}

/// Why a command ended early: one that reads a workload, events or EDN, or one that reads a dump.
#[derive(Clone, Copy, Debug, Drop, PartialEq, Eq)]
pub enum Fault {
    Run(RunFault),
    Audit(AuditRunFault),
    /// The value is no list of events.
    Script(ScriptFault),
}
