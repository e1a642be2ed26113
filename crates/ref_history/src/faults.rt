//! Why what is shown of a dump isn't written to its end.
ghost use Rattle.std.specs.Prelude.{◌≡◌};
ghost use Rattle.ref_history.specs.Written.{replay_fault_of};

use ref_log::AuditFault;
use ref_output::OutputFault;

/// Why what is shown of a dump wasn't written to its end.
#[derive(Clone, Copy, Debug, Drop, PartialEq, Eq)]
pub enum LookFault {
    /// The replay comes to this fault, as far as it is needed. Nothing was written.
    Replay(AuditFault),
    /// The writer failed, or there is no memory. A part of the text may be written.
    Output(OutputFault),
}

impl LookFault {
    // The fault for one of the replay.
    pub(crate) fn of_replay(fault: AuditFault) -> LookFault
        ensures { result ≡ replay_fault_of fault }
    {
        match fault {
            AuditFault::Memory => LookFault::Output(OutputFault::Memory),
            fault => LookFault::Replay(fault),
        }
    }
}
