//! Which answers of a step are refusals, and for which reason. The others end the run: a reference or a function that isn't
//! there, which no plan names, and out of memory.
ghost use Rattle.std.specs.Prelude.{◌≡◌};
ghost use Rattle.ref_workload.specs.Reasons.{atom_said, body_said, commit_said, mode_said, restart_said, rule_said, said_of, send_said, transaction_said};

use crate::faults::Stop;
use ref_agents::{ModeFault, RestartFault, SendFault};
use ref_atoms::AtomFault;
use ref_audit::Reason;
use ref_log::RuleFault;
use ref_refs::CommitFault;
use ref_shared::TransactFault;
use ref_tx::TxFault;

/// Why a step was refused, if it was, or what ends the run.
pub(crate) type Outcome = Result<Option<Reason>, Stop>;

pub(crate) fn of_transaction<T: Drop>(answer: Result<T, TransactFault<TxFault>>) -> Outcome
    ensures { result ≡ said_of transaction_said answer }
{
    match answer {
        Ok(_) => Ok(None),
        Err(TransactFault::GaveUp { .. }) => Ok(Some(Reason::GaveUp)),
        Err(TransactFault::Body(fault)) => of_body(fault),
        Err(TransactFault::Commit(fault)) => of_commit(fault),
        Err(TransactFault::Memory) => Err(Stop::Memory),
    }
}

fn of_body(fault: TxFault) -> Outcome
    ensures { result ≡ body_said fault }
{
    match fault {
        TxFault::SetAfterCommute => Ok(Some(Reason::SetAfterCommute)),
        TxFault::TallyOnly => Ok(Some(Reason::TallyOnly)),
        TxFault::Refused(cause) => Ok(Some(Reason::Refused(cause))),
        TxFault::NotMet => Ok(Some(Reason::NotMet)),
        TxFault::NoSuchRef | TxFault::NoSuchFun(_) | TxFault::NoSuchAgent => Err(Stop::Internal),
        TxFault::Memory => Err(Stop::Memory),
    }
}

fn of_commit(fault: CommitFault) -> Outcome
    ensures { result ≡ commit_said fault }
{
    match fault {
        CommitFault::Refused(_, cause) => Ok(Some(Reason::Refused(cause))),
        CommitFault::Invalid(_) => Ok(Some(Reason::Invalid)),
        CommitFault::PointLimit => Ok(Some(Reason::PointLimit)),
        CommitFault::BookFull => Ok(Some(Reason::BookFull)),
        CommitFault::Foreign(_) | CommitFault::Conflict(_) | CommitFault::NoSuchFun(_) => {
            Err(Stop::Internal)
        }
        CommitFault::Memory => Err(Stop::Memory),
    }
}

pub(crate) fn of_atom<T: Drop>(answer: Result<T, AtomFault>) -> Outcome
    ensures { result ≡ said_of atom_said answer }
{
    match answer {
        Ok(_) => Ok(None),
        Err(AtomFault::Refused(cause)) => Ok(Some(Reason::Refused(cause))),
        Err(AtomFault::Invalid) => Ok(Some(Reason::Invalid)),
        Err(AtomFault::PointLimit) => Ok(Some(Reason::PointLimit)),
        Err(AtomFault::NoSuchAtom | AtomFault::NoSuchFun(_)) => Err(Stop::Internal),
        Err(AtomFault::Memory) => Err(Stop::Memory),
    }
}

pub(crate) fn of_send(answer: Result<(), SendFault>) -> Outcome
    ensures { result ≡ said_of send_said answer }
{
    match answer {
        Ok(()) => Ok(None),
        Err(SendFault::Failed) => Ok(Some(Reason::AgentFailed)),
        Err(SendFault::NoSuchAgent) => Err(Stop::Internal),
        Err(SendFault::Memory) => Err(Stop::Memory),
    }
}

pub(crate) fn of_restart(answer: Result<(), RestartFault>) -> Outcome
    ensures { result ≡ said_of restart_said answer }
{
    match answer {
        Ok(()) => Ok(None),
        Err(RestartFault::NotFailed) => Ok(Some(Reason::NotFailed)),
        Err(RestartFault::Invalid) => Ok(Some(Reason::Invalid)),
        Err(RestartFault::NoSuchAgent | RestartFault::NoSuchFun(_)) => Err(Stop::Internal),
        Err(RestartFault::Memory) => Err(Stop::Memory),
    }
}

pub(crate) fn of_mode(answer: Result<(), ModeFault>) -> Outcome
    ensures { result ≡ said_of mode_said answer }
{
    match answer {
        Ok(()) => Ok(None),
        Err(ModeFault::NoSuchAgent) => Err(Stop::Internal),
    }
}

pub(crate) fn of_rule(answer: Result<(), RuleFault>) -> Outcome
    ensures { result ≡ said_of rule_said answer }
{
    match answer {
        Ok(()) => Ok(None),
        Err(RuleFault::Invalid) => Ok(Some(Reason::Invalid)),
        Err(RuleFault::NoSuch | RuleFault::NoSuchFun(_)) => Err(Stop::Internal),
        Err(RuleFault::Memory) => Err(Stop::Memory),
    }
}
