//! Why a list of events isn't played to its end.
ghost use Rattle.std.specs.Prelude.{◌≡◌};
ghost use Rattle.ref_player.specs.Faults.{script_fault_of, text_fault_of};
ghost use Rattle.ref_player.specs.declared.faults.PlayFault.TheVariants.{Run};

use ref_edn::ReadFault;
use ref_events::ScriptFault;
use ref_workload::RunFault;

/// Why a list of events wasn't played to its end.
#[derive(Clone, Copy, Debug, Drop, PartialEq, Eq)]
pub enum PlayFault {
    /// As of a run: of its input, its output or its memory. It is never that a value is no workload.
    Run(RunFault),
    /// The value is no list of events.
    Script(ScriptFault),
}

impl From<RunFault> for PlayFault {
    ghost from_gives = { λ e f. f ≡ Run e };

    fn from(fault: RunFault) -> PlayFault {
        PlayFault::Run(fault)
    }
}

impl From<ReadFault> for PlayFault {
    ghost from_gives = { λ e f. f ≡ text_fault_of e };

    fn from(fault: ReadFault) -> PlayFault {
        PlayFault::Run(RunFault::from(fault))
    }
}

impl From<ScriptFault> for PlayFault {
    ghost from_gives = { λ e f. f ≡ script_fault_of e };

    fn from(fault: ScriptFault) -> PlayFault {
        match fault {
            ScriptFault::Memory => PlayFault::Run(RunFault::Memory),
            fault => PlayFault::Script(fault),
        }
    }
}
