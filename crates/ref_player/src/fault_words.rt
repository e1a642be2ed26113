//! The words for why an act was refused.
ghost use Rattle.std.specs.Prelude.{◌≡◌};
ghost use Rattle.ref_audit.specs.Report.{cause_text};
ghost use Rattle.ref_player.specs.Lines.{agent_error_text, atom_fault_text, checkpoint_fault_text, finish_fault_text, job_fault_text, make_fault_text, mode_fault_text, restart_fault_text, rule_fault_text, send_fault_text, tx_fault_text, watch_fault_text};

use ref_agents::{AgentError, FinishFault, JobFault, ModeFault, RestartFault, SendFault};
use ref_atoms::AtomFault;
use ref_audit::{Reason, word_of};
use ref_fun::Cause;
use ref_log::{MakeFault, RuleFault, WatchFault};
use ref_tx::TxFault;
use ref_world::CheckpointFault;

/// The word for why a function refused.
pub(crate) fn cause_word(cause: Cause) -> &'static str
    ensures { result.now ≡ cause_text cause }
{
    word_of(Reason::Refused(cause))
}

/// Why a call in a transaction was refused.
pub(crate) fn tx_word(fault: TxFault) -> &'static str
    ensures { result.now ≡ tx_fault_text fault }
{
    match fault {
        TxFault::NoSuchRef => "no-such-ref",
        TxFault::SetAfterCommute => "set-after-commute",
        TxFault::TallyOnly => "tally-only",
        TxFault::Refused(cause) => cause_word(cause),
        TxFault::NoSuchFun(_) => "no-such-fun",
        TxFault::NoSuchAgent => "no-such-agent",
        TxFault::NotMet => "not-met",
        TxFault::Memory => "out-of-memory",
    }
}

/// Why an atom wasn't changed.
pub(crate) fn atom_word(fault: AtomFault) -> &'static str
    ensures { result.now ≡ atom_fault_text fault }
{
    match fault {
        AtomFault::NoSuchAtom => "no-such-atom",
        AtomFault::NoSuchFun(_) => "no-such-fun",
        AtomFault::Refused(cause) => cause_word(cause),
        AtomFault::Invalid => "invalid",
        AtomFault::PointLimit => "point-limit",
        AtomFault::Memory => "out-of-memory",
    }
}

/// Why an action wasn't queued.
pub(crate) fn send_word(fault: SendFault) -> &'static str
    ensures { result.now ≡ send_fault_text fault }
{
    match fault {
        SendFault::NoSuchAgent => "no-such-agent",
        SendFault::Failed => "agent-failed",
        SendFault::Memory => "out-of-memory",
    }
}

/// Why a job wasn't run.
pub(crate) fn job_word(fault: JobFault) -> &'static str
    ensures { result.now ≡ job_fault_text fault }
{
    match fault {
        JobFault::NoSuchFun(_) => "no-such-fun",
        JobFault::Memory => "out-of-memory",
    }
}

/// Why a job wasn't finished.
pub(crate) fn finish_word(fault: FinishFault) -> &'static str
    ensures { result.now ≡ finish_fault_text fault }
{
    match fault {
        FinishFault::Foreign => "foreign",
        FinishFault::Memory => "out-of-memory",
        FinishFault::NoSuchFun(_) => "no-such-fun",
    }
}

/// Why an agent wasn't restarted.
pub(crate) fn restart_word(fault: RestartFault) -> &'static str
    ensures { result.now ≡ restart_fault_text fault }
{
    match fault {
        RestartFault::NoSuchAgent => "no-such-agent",
        RestartFault::NotFailed => "not-failed",
        RestartFault::Invalid => "invalid",
        RestartFault::Memory => "out-of-memory",
        RestartFault::NoSuchFun(_) => "no-such-fun",
    }
}

/// Why an error mode wasn't set.
pub(crate) fn mode_word(fault: ModeFault) -> &'static str
    ensures { result.now ≡ mode_fault_text fault }
{
    match fault {
        ModeFault::NoSuchAgent => "no-such-agent",
    }
}

/// Why a rule wasn't set.
pub(crate) fn rule_word(fault: RuleFault) -> &'static str
    ensures { result.now ≡ rule_fault_text fault }
{
    match fault {
        RuleFault::NoSuch => "no-such",
        RuleFault::Invalid => "invalid",
        RuleFault::Memory => "out-of-memory",
        RuleFault::NoSuchFun(_) => "no-such-fun",
    }
}

/// Why a watch wasn't added.
pub(crate) fn watch_word(fault: WatchFault) -> &'static str
    ensures { result.now ≡ watch_fault_text fault }
{
    match fault {
        WatchFault::NoSuch => "no-such",
        WatchFault::Memory => "out-of-memory",
    }
}

/// Why a reference wasn't made.
pub(crate) fn make_word(fault: MakeFault) -> &'static str
    ensures { result.now ≡ make_fault_text fault }
{
    match fault {
        MakeFault::Full => "full",
        MakeFault::BadTally => "bad-tally",
        MakeFault::Invalid => "invalid",
        MakeFault::PointLimit => "point-limit",
        MakeFault::Memory => "out-of-memory",
        MakeFault::NoSuchFun(_) => "no-such-fun",
    }
}

/// Why nothing was folded.
pub(crate) fn checkpoint_word(fault: CheckpointFault) -> &'static str
    ensures { result.now ≡ checkpoint_fault_text fault }
{
    match fault {
        CheckpointFault::NoSuchPoint => "no-such-point",
        CheckpointFault::Memory => "out-of-memory",
        CheckpointFault::NoSuchFun(_) => "no-such-fun",
    }
}

/// Why an action failed.
pub(crate) fn error_word(error: AgentError) -> &'static str
    ensures { result.now ≡ agent_error_text error }
{
    match error {
        AgentError::Refused(cause) => cause_word(cause),
        AgentError::Invalid => "invalid",
    }
}
