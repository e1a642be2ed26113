//! Why a call of a program was refused.
use ref_agents::{ModeFault, RestartFault, SendFault};
use ref_atoms::AtomFault;
use ref_edn::ReadFault;
use ref_log::{MakeFault, RuleFault, WatchFault, Who};
use ref_refs::{CommitFault, Conflict};
use ref_shared::{AwaitFault, GatherFault, TransactFault, WaitFault, WorkFault};
use ref_tx::TxFault;
use ref_world::CheckpointFault;
use std::alloc::{AllocError, AllocFailed};
use std::{fmt, io};
use thiserror::Error;

/// Why a call was refused, or a program ended early. A `?` makes it of each library's own fault.
#[derive(Clone, Copy, Debug, Drop, Error)]
pub enum Fault {
    #[error("out of memory")]
    Memory,
    /// A call on an open transaction was refused.
    #[error("{0}")]
    Tx(TxFault),
    /// A commit was refused, and another try would be too.
    #[error("{0}")]
    Commit(CommitFault),
    /// Each of so many tries of a transaction was in conflict, the last of them so.
    #[error("given up after {tries} tries: ref {} has changed", .conflict.r)]
    GaveUp { tries: u32, conflict: Conflict },
    /// A call on an atom was refused.
    #[error("{0}")]
    Atom(AtomFault),
    /// An agent took no action.
    #[error("{0}")]
    Send(SendFault),
    /// Not all is done that was waited for.
    #[error("{0}")]
    Await(AwaitFault),
    /// The run ended while a transaction wasn't ready, or a worker or a helper ended early.
    #[error("closed before it was ready")]
    Closed,
    /// A helper couldn't run an action to its end.
    #[error("{0}")]
    Work(WorkFault),
    /// A reference that is declared can't be made.
    #[error("{0:?}: {1}")]
    Make(Who, MakeFault),
    /// A reference that a worker makes can't be made.
    #[error("{0}")]
    NotMade(MakeFault),
    /// There is no such reference.
    #[error("there is no {0:?}")]
    NoSuch(Who),
    /// A reference can't be watched.
    #[error("{0}")]
    Watch(WatchFault),
    /// A reference can't be given another rule.
    #[error("{0}")]
    Rule(RuleFault),
    /// An agent can't be given another error mode.
    #[error("{0}")]
    Mode(ModeFault),
    /// An agent can't be restarted.
    #[error("{0}")]
    Restart(RestartFault),
    #[error("{0}")]
    Checkpoint(CheckpointFault),
    /// The log and what the workers did differ. A right program never meets this.
    #[error("{0}")]
    Gather(GatherFault),
    /// A text is no EDN text.
    #[error("{0}")]
    Read(ReadFault),
    /// A text is no name of a keyword.
    #[error("no name of a keyword")]
    BadName,
    /// A formatter refused.
    #[error("nothing can be written")]
    Unwritten,
    /// A call of input or output failed.
    #[error("nothing can be read or written")]
    Io,
    /// A reason of the program's own.
    #[error("{0}")]
    Own(&'static str),
}

impl From<AllocError> for Fault {
    fn from(_e: AllocError) -> Fault {
        Fault::Memory
    }
}

impl<T: Drop> From<AllocFailed<T>> for Fault {
    fn from(_e: AllocFailed<T>) -> Fault {
        Fault::Memory
    }
}

impl From<fmt::Error> for Fault {
    fn from(_e: fmt::Error) -> Fault {
        Fault::Unwritten
    }
}

impl From<io::Error> for Fault {
    fn from(e: io::Error) -> Fault {
        if e.kind() == io::ErrorKind::OutOfMemory {
            Fault::Memory
        } else {
            Fault::Io
        }
    }
}

impl From<TxFault> for Fault {
    fn from(e: TxFault) -> Fault {
        match e {
            TxFault::Memory => Fault::Memory,
            fault => Fault::Tx(fault),
        }
    }
}

impl From<CommitFault> for Fault {
    fn from(e: CommitFault) -> Fault {
        match e {
            CommitFault::Memory => Fault::Memory,
            fault => Fault::Commit(fault),
        }
    }
}

impl From<AtomFault> for Fault {
    fn from(e: AtomFault) -> Fault {
        match e {
            AtomFault::Memory => Fault::Memory,
            fault => Fault::Atom(fault),
        }
    }
}

impl From<SendFault> for Fault {
    fn from(e: SendFault) -> Fault {
        match e {
            SendFault::Memory => Fault::Memory,
            fault => Fault::Send(fault),
        }
    }
}

impl From<AwaitFault> for Fault {
    fn from(e: AwaitFault) -> Fault {
        match e {
            AwaitFault::Memory => Fault::Memory,
            AwaitFault::Closed => Fault::Closed,
            fault => Fault::Await(fault),
        }
    }
}

impl From<WorkFault> for Fault {
    fn from(e: WorkFault) -> Fault {
        match e {
            WorkFault::Memory => Fault::Memory,
            fault => Fault::Work(fault),
        }
    }
}

impl From<WatchFault> for Fault {
    fn from(e: WatchFault) -> Fault {
        match e {
            WatchFault::Memory => Fault::Memory,
            fault => Fault::Watch(fault),
        }
    }
}

impl From<RuleFault> for Fault {
    fn from(e: RuleFault) -> Fault {
        match e {
            RuleFault::Memory => Fault::Memory,
            fault => Fault::Rule(fault),
        }
    }
}

impl From<ModeFault> for Fault {
    fn from(e: ModeFault) -> Fault {
        Fault::Mode(e)
    }
}

impl From<RestartFault> for Fault {
    fn from(e: RestartFault) -> Fault {
        match e {
            RestartFault::Memory => Fault::Memory,
            fault => Fault::Restart(fault),
        }
    }
}

impl From<MakeFault> for Fault {
    fn from(e: MakeFault) -> Fault {
        match e {
            MakeFault::Memory => Fault::Memory,
            fault => Fault::NotMade(fault),
        }
    }
}

impl From<CheckpointFault> for Fault {
    fn from(e: CheckpointFault) -> Fault {
        match e {
            CheckpointFault::Memory => Fault::Memory,
            fault => Fault::Checkpoint(fault),
        }
    }
}

impl From<GatherFault> for Fault {
    fn from(e: GatherFault) -> Fault {
        match e {
            GatherFault::Memory => Fault::Memory,
            fault => Fault::Gather(fault),
        }
    }
}

impl From<ReadFault> for Fault {
    fn from(e: ReadFault) -> Fault {
        match e {
            ReadFault::Memory => Fault::Memory,
            fault => Fault::Read(fault),
        }
    }
}

impl From<TransactFault<Fault>> for Fault {
    fn from(e: TransactFault<Fault>) -> Fault {
        match e {
            TransactFault::GaveUp { tries, conflict } => Fault::GaveUp { tries, conflict },
            TransactFault::Body(fault) => fault,
            TransactFault::Commit(fault) => Fault::from(fault),
            TransactFault::Memory => Fault::Memory,
        }
    }
}

impl From<WaitFault<Fault>> for Fault {
    fn from(e: WaitFault<Fault>) -> Fault {
        match e {
            WaitFault::Closed => Fault::Closed,
            WaitFault::Transact(fault) => Fault::from(fault),
        }
    }
}
