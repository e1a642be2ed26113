//! Laws of the machine, and of the words that it shares with the calls of a world. Each function's contract is a law; none does anything.
ghost use Rattle.ref_play.specs.Laws.{RunsHaveLaws, StepsHaveLaws};
ghost use Rattle.ref_play.specs.Plain.{CommitsWhereItCan, LastsMean, NoticesMean, RefusalsSayWhy, ReplayMeans};
ghost use Rattle.ref_play.specs.PlainAgents.{FinishMeans, FoldsMean, JobOutMeans, NextJobMeans, ReadyMeans, ReleaseCarriedMeans, ReleaseMeans, RestartMeans, RestartRefusals, SendRefusals, SendsMean};
ghost use Rattle.ref_play.specs.PlainAtoms.{ChangesMean, ComparesMean};
ghost use Rattle.ref_play.specs.PlainMakes.{MakingsMean, RuleMeans, RulesMean};
ghost use Rattle.ref_play.specs.PlainTx.{InnerMeans, OperationsMean, RequirementsMean, SendsInTxMean, TxMeans};

use ref_fun::Meaning;

/// A step of a machine has the laws, wherever the machine is lawful and served.
pub fn steps_have_laws<M: Meaning>()
    ensures { StepsHaveLaws M.means M.accepts }
{}

/// Every run of a machine has the laws.
pub fn runs_have_laws<M: Meaning>()
    ensures { RunsHaveLaws M.means M.accepts }
{}

/// What is always so of a transaction: its operations answered in-transaction values, and only count the tally.
pub fn transactions_in_plain_words<M: Meaning>()
    ensures { TxMeans M.means }
{}

/// The in-transaction value of a ref comes of the value with which the transaction began, by its operations on the ref.
pub fn inner_values_in_plain_words<M: Meaning>()
    ensures { InnerMeans M.means }
{}

/// An operation in a transaction answers what it makes of the in-transaction value, or the fault of which its condition holds, and none
/// that is asked before it.
pub fn operations_in_plain_words<M: Meaning>()
    ensures { OperationsMean M.means }
{}

/// A requirement is met, or not, by the in-transaction value.
pub fn requirements_in_plain_words<M: Meaning>()
    ensures { RequirementsMean M.means M.accepts }
{}

/// What a transaction can send.
pub fn sends_in_tx_in_plain_words()
    ensures { SendsInTxMean }
{}

/// A transaction is committed exactly where nothing stands against it, said of all its operations, sends and refs.
pub fn commits_meet_their_conditions<M: Meaning>()
    ensures { CommitsWhereItCan M.means M.accepts }
{}

/// A commit is refused with a fault exactly where that holds which the fault says, and nothing that is asked before it.
pub fn refusals_say_why<M: Meaning>()
    ensures { RefusalsSayWhy M.means M.accepts }
{}

/// The replay of entries on a base has a value exactly where they lead to it from the base's values, one after the other.
pub fn replay_in_plain_words<M: Meaning>()
    ensures { ReplayMeans M.means }
{}

/// The last change of a ref has the point of the last entry that changed or made it.
pub fn last_changes_in_plain_words()
    ensures { LastsMean }
{}

/// Of which refs a commit has notices, and which.
pub fn notices_in_plain_words()
    ensures { NoticesMean }
{}

/// A change of an atom is refused with a fault exactly where that holds which the fault says, and nothing that is asked before it.
pub fn changes_in_plain_words<M: Meaning>()
    ensures { ChangesMean M.means M.accepts }
{}

/// So is a comparison with a value that an atom is to have, which is done where it has it.
pub fn comparisons_in_plain_words<M: Meaning>()
    ensures { ComparesMean M.accepts }
{}

/// An agent is ready exactly where it is here, has no error and no action on its way, nothing that it carried is unreleased, and its
/// first action that waits was sent outside of a transaction, by a commit that is released, or by an action whose carries are released.
pub fn ready_in_plain_words()
    ensures { ReadyMeans }
{}

/// The next job of an agent has its first action that waits, the number of those that ended before it, and its value.
pub fn next_job_in_plain_words()
    ensures { NextJobMeans }
{}

/// The job of an agent that is on its way is its next one.
pub fn job_out_in_plain_words()
    ensures { JobOutMeans }
{}

/// What a restart leaves.
pub fn restart_in_plain_words()
    ensures { RestartMeans }
{}

/// When an account can be folded, and what a fold leaves.
pub fn folds_in_plain_words()
    ensures { FoldsMean }
{}

/// A restart is refused with a fault exactly where that holds which the fault says, and nothing that is asked before it.
pub fn restart_refusals_say_why<M: Meaning>()
    ensures { RestartRefusals M.accepts }
{}

/// An action can be sent to an agent that is here and isn't failed, where those that it carries sends to are here too.
pub fn send_refusals_say_why()
    ensures { SendRefusals }
{}

/// What a commit sends stands at the ends of the queues, in order, and is held.
pub fn sends_in_plain_words()
    ensures { SendsMean }
{}

/// A release frees the sends of one commit alone.
pub fn release_in_plain_words()
    ensures { ReleaseMeans }
{}

/// The release of what an agent carried frees just that, and nothing else.
pub fn release_carried_in_plain_words()
    ensures { ReleaseCarriedMeans }
{}

/// What the end of a job leaves, by its answer.
pub fn finish_in_plain_words<M: Meaning>()
    ensures { FinishMeans M.accepts }
{}

/// A reference is made, or not made for the fault whose condition holds, where none does that is asked before it.
pub fn makings_in_plain_words<M: Meaning>()
    ensures { MakingsMean M.accepts }
{}

/// So it is where a reference is given another rule.
pub fn rules_in_plain_words<M: Meaning>()
    ensures { RulesMean M.accepts }
{}

/// A reference has the rule that stands at its number, if there is one.
pub fn rule_in_plain_words()
    ensures { RuleMeans }
{}
