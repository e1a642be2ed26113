//! The words, and what each of them says.
use crate::rows::{Stands, Word};
use crate::slots::{
    A_REF, AGENT_CALL, AGENT_CARRY, AN_AGENT, ANY, ANY_VALUE, ATOM_CALL, ATOM_VALUE, ATOM_VALUES,
    MODE, NEW_AGENT, NEW_ATOM, NEW_REF, NOTHING, POINT, REF_CALL, REF_TEST, REF_VALUE, RULE, STATE,
};

/// The version of a workload.
#[derive(Clone, Copy, Debug, Drop, PartialEq, Eq)]
pub enum Version {
    One,
    /// An action may carry sends.
    Two,
}

/// What a word begins.
#[derive(Clone, Copy, Debug, Drop, PartialEq, Eq)]
pub enum Sentence {
    /// A step of a workload.
    Step,
    /// An operation of a transaction, in a workload.
    Operation,
    /// An act, in a list of events.
    Act,
}

/// The word of a step.
#[derive(Clone, Copy, Debug, Drop, PartialEq, Eq)]
pub enum StepWord {
    Tx,
    Swap,
    Reset,
    CompareAndSet,
    Send,
    SendCarry,
    Restart,
    Mode,
    Validator,
}

/// The word of an operation.
#[derive(Clone, Copy, Debug, Drop, PartialEq, Eq)]
pub enum OperationWord {
    Set,
    Alter,
    Commute,
    Ensure,
    Require,
    Send,
    SendCarry,
}

/// The word of an act, by what the act is about.
#[derive(Clone, Copy, Debug, Drop, PartialEq, Eq)]
pub enum ActWord {
    Tx(TxWord),
    Job(JobWord),
    Atom(AtomWord),
    Agent(AgentWord),
    Reference(ReferenceWord),
    World(WorldWord),
    Making(MakingWord),
}

/// The actor's transaction.
#[derive(Clone, Copy, Debug, Drop, PartialEq, Eq)]
pub enum TxWord {
    Begin,
    Deref,
    RefSet,
    Alter,
    Commute,
    Ensure,
    SendInTx,
    SendCarryInTx,
    Require,
    ReadPoint,
    Commit,
    Abort,
}

/// The actor's job.
#[derive(Clone, Copy, Debug, Drop, PartialEq, Eq)]
pub enum JobWord {
    Take,
    Run,
    PutBack,
    Finish,
}

/// An atom.
#[derive(Clone, Copy, Debug, Drop, PartialEq, Eq)]
pub enum AtomWord {
    Swap,
    Reset,
    CompareAndSet,
}

/// An agent.
#[derive(Clone, Copy, Debug, Drop, PartialEq, Eq)]
pub enum AgentWord {
    Send,
    SendCarry,
    ReleaseCarried,
    Restart,
    SetErrorMode,
    ErrorOf,
    Fold,
}

/// Any reference.
#[derive(Clone, Copy, Debug, Drop, PartialEq, Eq)]
pub enum ReferenceWord {
    SetValidator,
    AddWatch,
    RemoveWatch,
    ValueOf,
    RuleOf,
}

/// A point of the world.
#[derive(Clone, Copy, Debug, Drop, PartialEq, Eq)]
pub enum WorldWord {
    Release,
    Checkpoint,
}

/// A new reference.
#[derive(Clone, Copy, Debug, Drop, PartialEq, Eq)]
pub enum MakingWord {
    MakeRef,
    MakeAtom,
    MakeAgent,
}

/// The table of words. Those of steps, of operations and of acts each stand in the order in which they are listed.
/// `tools/words` writes the tables of the documents from it.
pub const WORDS: &[Word] = &[
    Word {
        word: "tx",
        stands: Stands::Step(StepWord::Tx),
        since: Version::One,
        slots: NOTHING,
        forms: &[":tx OP .."],
        clojure: "dosync",
    },
    Word {
        word: "begin",
        stands: Stands::Act(ActWord::Tx(TxWord::Begin)),
        since: Version::One,
        slots: NOTHING,
        forms: &[":begin"],
        clojure: "dosync",
    },
    Word {
        word: "deref",
        stands: Stands::Act(ActWord::Tx(TxWord::Deref)),
        since: Version::One,
        slots: A_REF,
        forms: &[":deref R"],
        clojure: "deref",
    },
    Word {
        word: "set",
        stands: Stands::Operation(OperationWord::Set),
        since: Version::One,
        slots: REF_VALUE,
        forms: &[":set R V"],
        clojure: "ref-set",
    },
    Word {
        word: "ref-set",
        stands: Stands::Act(ActWord::Tx(TxWord::RefSet)),
        since: Version::One,
        slots: REF_VALUE,
        forms: &[":ref-set R V"],
        clojure: "ref-set",
    },
    Word {
        word: "alter",
        stands: Stands::OperationAndAct(OperationWord::Alter, ActWord::Tx(TxWord::Alter)),
        since: Version::One,
        slots: REF_CALL,
        forms: &[":alter R F ARG .."],
        clojure: "alter",
    },
    Word {
        word: "commute",
        stands: Stands::OperationAndAct(OperationWord::Commute, ActWord::Tx(TxWord::Commute)),
        since: Version::One,
        slots: REF_CALL,
        forms: &[":commute R F ARG .."],
        clojure: "commute",
    },
    Word {
        word: "ensure",
        stands: Stands::OperationAndAct(OperationWord::Ensure, ActWord::Tx(TxWord::Ensure)),
        since: Version::One,
        slots: A_REF,
        forms: &[":ensure R"],
        clojure: "ensure",
    },
    Word {
        word: "send-in-tx",
        stands: Stands::Act(ActWord::Tx(TxWord::SendInTx)),
        since: Version::One,
        slots: AGENT_CALL,
        forms: &[":send-in-tx G F ARG .."],
        clojure: "send",
    },
    Word {
        word: "send-carry-in-tx",
        stands: Stands::Act(ActWord::Tx(TxWord::SendCarryInTx)),
        since: Version::One,
        slots: AGENT_CARRY,
        forms: &[":send-carry-in-tx G [F ARG ..] [H F ARG ..] .."],
        clojure: "send",
    },
    Word {
        word: "require",
        stands: Stands::OperationAndAct(OperationWord::Require, ActWord::Tx(TxWord::Require)),
        since: Version::One,
        slots: REF_TEST,
        forms: &[":require R P ARG .."],
        clojure: "",
    },
    Word {
        word: "read-point",
        stands: Stands::Act(ActWord::Tx(TxWord::ReadPoint)),
        since: Version::One,
        slots: NOTHING,
        forms: &[":read-point"],
        clojure: "",
    },
    Word {
        word: "commit",
        stands: Stands::Act(ActWord::Tx(TxWord::Commit)),
        since: Version::One,
        slots: NOTHING,
        forms: &[":commit"],
        clojure: "dosync",
    },
    Word {
        word: "abort",
        stands: Stands::Act(ActWord::Tx(TxWord::Abort)),
        since: Version::One,
        slots: NOTHING,
        forms: &[":abort"],
        clojure: "dosync",
    },
    Word {
        word: "take",
        stands: Stands::Act(ActWord::Job(JobWord::Take)),
        since: Version::One,
        slots: NOTHING,
        forms: &[":take"],
        clojure: "",
    },
    Word {
        word: "run",
        stands: Stands::Act(ActWord::Job(JobWord::Run)),
        since: Version::One,
        slots: NOTHING,
        forms: &[":run"],
        clojure: "",
    },
    Word {
        word: "put-back",
        stands: Stands::Act(ActWord::Job(JobWord::PutBack)),
        since: Version::One,
        slots: NOTHING,
        forms: &[":put-back"],
        clojure: "",
    },
    Word {
        word: "finish",
        stands: Stands::Act(ActWord::Job(JobWord::Finish)),
        since: Version::One,
        slots: NOTHING,
        forms: &[":finish"],
        clojure: "",
    },
    Word {
        word: "swap",
        stands: Stands::StepAndAct(StepWord::Swap, ActWord::Atom(AtomWord::Swap)),
        since: Version::One,
        slots: ATOM_CALL,
        forms: &[":swap X F ARG .."],
        clojure: "swap!",
    },
    Word {
        word: "reset",
        stands: Stands::StepAndAct(StepWord::Reset, ActWord::Atom(AtomWord::Reset)),
        since: Version::One,
        slots: ATOM_VALUE,
        forms: &[":reset X V"],
        clojure: "reset!",
    },
    Word {
        word: "cas",
        stands: Stands::StepAndAct(
            StepWord::CompareAndSet,
            ActWord::Atom(AtomWord::CompareAndSet),
        ),
        since: Version::One,
        slots: ATOM_VALUES,
        forms: &[":cas X OLD NEW"],
        clojure: "compare-and-set!",
    },
    Word {
        word: "send",
        stands: Stands::Anywhere(
            StepWord::Send,
            OperationWord::Send,
            ActWord::Agent(AgentWord::Send),
        ),
        since: Version::One,
        slots: AGENT_CALL,
        forms: &[":send G F ARG .."],
        clojure: "send",
    },
    Word {
        word: "send-carry",
        stands: Stands::Anywhere(
            StepWord::SendCarry,
            OperationWord::SendCarry,
            ActWord::Agent(AgentWord::SendCarry),
        ),
        since: Version::Two,
        slots: AGENT_CARRY,
        forms: &[":send-carry G [F ARG ..] [H F ARG ..] .."],
        clojure: "send",
    },
    Word {
        word: "release-carried",
        stands: Stands::Act(ActWord::Agent(AgentWord::ReleaseCarried)),
        since: Version::One,
        slots: AN_AGENT,
        forms: &[":release-carried G"],
        clojure: "",
    },
    Word {
        word: "restart",
        stands: Stands::StepAndAct(StepWord::Restart, ActWord::Agent(AgentWord::Restart)),
        since: Version::One,
        slots: STATE,
        forms: &[":restart G V", ":restart G V :clear"],
        clojure: "restart-agent",
    },
    Word {
        word: "mode",
        stands: Stands::Step(StepWord::Mode),
        since: Version::One,
        slots: MODE,
        forms: &[":mode G :fail", ":mode G :continue"],
        clojure: "set-error-mode!",
    },
    Word {
        word: "set-error-mode",
        stands: Stands::Act(ActWord::Agent(AgentWord::SetErrorMode)),
        since: Version::One,
        slots: MODE,
        forms: &[":set-error-mode G :fail", ":set-error-mode G :continue"],
        clojure: "set-error-mode!",
    },
    Word {
        word: "error-of",
        stands: Stands::Act(ActWord::Agent(AgentWord::ErrorOf)),
        since: Version::One,
        slots: AN_AGENT,
        forms: &[":error-of G"],
        clojure: "agent-error",
    },
    Word {
        word: "fold",
        stands: Stands::Act(ActWord::Agent(AgentWord::Fold)),
        since: Version::One,
        slots: AN_AGENT,
        forms: &[":fold G"],
        clojure: "",
    },
    Word {
        word: "validator",
        stands: Stands::Step(StepWord::Validator),
        since: Version::One,
        slots: RULE,
        forms: &[":validator NAME [P ARG ..]", ":validator NAME nil"],
        clojure: "set-validator!",
    },
    Word {
        word: "set-validator",
        stands: Stands::Act(ActWord::Reference(ReferenceWord::SetValidator)),
        since: Version::One,
        slots: RULE,
        forms: &[":set-validator NAME [P ARG ..]", ":set-validator NAME nil"],
        clojure: "set-validator!",
    },
    Word {
        word: "add-watch",
        stands: Stands::Act(ActWord::Reference(ReferenceWord::AddWatch)),
        since: Version::One,
        slots: ANY_VALUE,
        forms: &[":add-watch NAME KEY"],
        clojure: "add-watch",
    },
    Word {
        word: "remove-watch",
        stands: Stands::Act(ActWord::Reference(ReferenceWord::RemoveWatch)),
        since: Version::One,
        slots: ANY_VALUE,
        forms: &[":remove-watch NAME KEY"],
        clojure: "remove-watch",
    },
    Word {
        word: "value-of",
        stands: Stands::Act(ActWord::Reference(ReferenceWord::ValueOf)),
        since: Version::One,
        slots: ANY,
        forms: &[":value-of NAME"],
        clojure: "deref",
    },
    Word {
        word: "rule-of",
        stands: Stands::Act(ActWord::Reference(ReferenceWord::RuleOf)),
        since: Version::One,
        slots: ANY,
        forms: &[":rule-of NAME"],
        clojure: "get-validator",
    },
    Word {
        word: "release",
        stands: Stands::Act(ActWord::World(WorldWord::Release)),
        since: Version::One,
        slots: POINT,
        forms: &[":release P"],
        clojure: "",
    },
    Word {
        word: "checkpoint",
        stands: Stands::Act(ActWord::World(WorldWord::Checkpoint)),
        since: Version::One,
        slots: POINT,
        forms: &[":checkpoint P"],
        clojure: "",
    },
    Word {
        word: "make-ref",
        stands: Stands::Act(ActWord::Making(MakingWord::MakeRef)),
        since: Version::One,
        slots: NEW_REF,
        forms: &[":make-ref V"],
        clojure: "ref",
    },
    Word {
        word: "make-atom",
        stands: Stands::Act(ActWord::Making(MakingWord::MakeAtom)),
        since: Version::One,
        slots: NEW_ATOM,
        forms: &[":make-atom V"],
        clojure: "atom",
    },
    Word {
        word: "make-agent",
        stands: Stands::Act(ActWord::Making(MakingWord::MakeAgent)),
        since: Version::One,
        slots: NEW_AGENT,
        forms: &[":make-agent V"],
        clojure: "agent",
    },
];
