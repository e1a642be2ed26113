//! What actors do, and the replies to them.
use ref_agents::{
    AgentError, ErrorMode, FinishFault, Finished, JobFault, ModeFault, RestartFault, SendFault,
};
use ref_atoms::{AtomFault, Cas, Swapped};
use ref_fun::{Action, Args, Rule};
use ref_log::{MakeFault, RuleFault, Stamp, WatchFault, Who};
use ref_refs::CommitFault;
use ref_tx::TxFault;
use ref_value::Value;
use ref_world::{CheckpointFault, Receipt};
use std::alloc::AllocError;

/// One act of one actor. An actor is a number: it has what its own acts opened, a transaction and a job.
#[derive(Drop)]
pub struct Event {
    pub actor: u32,
    pub act: Act,
}

/// A call, with what it takes in addition to the world, its table and its share: of the actor's open transaction from `Deref` to `Abort`,
/// of its job from `Run` to `Finish`, and else of the world.
pub enum Act {
    /// Opens a transaction, where the actor has none.
    Begin,
    Deref(u32),
    RefSet(u32, Value),
    /// A ref, the function's code and the further arguments.
    Alter(u32, u32, Args),
    /// As `Alter`; the commit makes it once more, on the latest value.
    Commute(u32, u32, Args),
    Ensure(u32),
    /// An agent and the action, which waits with the transaction for its commit.
    SendInTx(u32, Action),
    Require(u32, Rule),
    ReadPoint,
    Commit(Stamp),
    /// Drops the open transaction.
    Abort,
    /// The point of a commit whose sends may be taken from now on.
    Release(u64),
    /// An agent: what its last action carried may be taken from now on.
    ReleaseCarried(u32),
    /// An atom, the function's code and the further arguments.
    Swap(u32, u32, Args),
    Reset(u32, Value),
    /// An atom, the value that it has to have, and the value that it gets.
    CompareAndSet(u32, Value, Value),
    Send(u32, Action),
    /// Takes a job of some agent that is ready, where the actor has none.
    Take,
    /// Runs the actor's job, which changes nothing but the job.
    Run,
    /// Gives the job back, whether it has run or not.
    PutBack,
    Finish,
    /// A failed agent, its new state, and whether the actions that wait are dropped.
    Restart(u32, Value, bool),
    SetErrorMode(u32, ErrorMode),
    /// An agent: its state is its start from now on, and of the actions that ended only the one that failed it stays.
    Fold(u32),
    SetValidator(Who, Option<Rule>),
    AddWatch(Who, Value),
    RemoveWatch(Who, Value),
    /// The value, the rule, and whether the ref is the tally.
    MakeRef(Value, Option<Rule>, bool),
    MakeAtom(Value, Option<Rule>),
    MakeAgent(Value, Option<Rule>, ErrorMode),
    Checkpoint(u64),
    ValueOf(Who),
    RuleOf(Who),
    ErrorOf(u32),
}

// Written by hand: a derived one would be written out wherever an act is dropped.
impl Drop for Act {
    fn drop(self) {
        match self {
            Act::Begin | Act::ReadPoint | Act::Abort => {}
            Act::Deref(_) | Act::Ensure(_) | Act::Commit(_) => {}
            Act::Release(_) | Act::ReleaseCarried(_) => {}
            Act::Take | Act::Run | Act::PutBack | Act::Finish => {}
            Act::SetErrorMode(_, _) | Act::Fold(_) | Act::Checkpoint(_) => {}
            Act::ValueOf(_) | Act::RuleOf(_) | Act::ErrorOf(_) => {}
            Act::RefSet(_, _value) | Act::Reset(_, _value) => {}
            Act::Alter(_, _, _args) | Act::Commute(_, _, _args) => {}
            Act::Swap(_, _, _args) => {}
            Act::Require(_, _rule) => {}
            Act::CompareAndSet(_, _old, _new) => {}
            Act::SendInTx(_, _action) | Act::Send(_, _action) => {}
            Act::Restart(_, _state, _) => {}
            Act::SetValidator(_, _rule) => {}
            Act::AddWatch(_, _key) | Act::RemoveWatch(_, _key) => {}
            Act::MakeRef(_value, _rule, _) => {}
            Act::MakeAtom(_value, _rule) => {}
            Act::MakeAgent(_value, _rule, _) => {}
        }
    }
}

/// The reply to an actor: what its call returned, or why it was not made.
pub enum Reply {
    /// The actor has no transaction open.
    NoTx,
    /// The actor has no job.
    NoJob,
    /// The actor has a transaction open already, or a job already, or one that hasn't run, or one that has.
    Busy,
    /// The read point.
    Begin(Result<u64, AllocError>),
    Deref(Result<Value, TxFault>),
    RefSet(Result<Value, TxFault>),
    Alter(Result<Value, TxFault>),
    Commute(Result<Value, TxFault>),
    Ensure(Result<Value, TxFault>),
    SendInTx(Result<(), TxFault>),
    Require(Result<(), TxFault>),
    ReadPoint(u64),
    /// A refused commit leaves the transaction with its actor.
    Commit(Result<Receipt, CommitFault>),
    Abort,
    /// Whether the commit had sends and wasn't released before.
    Release(bool),
    /// Whether the agent's last action carried anything that wasn't released before.
    ReleaseCarried(bool),
    Swap(Result<Swapped, AtomFault>),
    Reset(Result<Swapped, AtomFault>),
    CompareAndSet(Result<Cas, AtomFault>),
    Send(Result<(), SendFault>),
    /// The agent of the job that the actor has now, and the job's number; `None` where no agent is ready.
    Take(Result<Option<(u32, u64)>, AllocError>),
    Run(Result<(), JobFault>),
    PutBack,
    /// A refused job stays with its actor.
    Finish(Result<Finished, FinishFault>),
    Restart(Result<(), RestartFault>),
    SetErrorMode(Result<(), ModeFault>),
    /// Whether its account was folded.
    Fold(Result<bool, AllocError>),
    SetValidator(Result<(), RuleFault>),
    /// Whether the key is new.
    AddWatch(Result<bool, WatchFault>),
    /// Whether the key was there.
    RemoveWatch(bool),
    MakeRef(Result<u32, MakeFault>),
    MakeAtom(Result<u32, MakeFault>),
    MakeAgent(Result<u32, MakeFault>),
    /// How many entries were folded.
    Checkpoint(Result<u64, CheckpointFault>),
    /// `None` where there is no such reference.
    ValueOf(Result<Option<Value>, AllocError>),
    /// `None` where there is no rule, or no such reference.
    RuleOf(Result<Option<Rule>, AllocError>),
    ErrorOf(Option<AgentError>),
}

// Written by hand: a derived one would be written out wherever a reply is dropped.
impl Drop for Reply {
    fn drop(self) {
        match self {
            Reply::NoTx | Reply::NoJob | Reply::Busy => {}
            Reply::ReadPoint(_) | Reply::Abort => {}
            Reply::Release(_) | Reply::ReleaseCarried(_) => {}
            Reply::PutBack | Reply::RemoveWatch(_) => {}
            Reply::Begin(_begun) => {}
            Reply::Deref(_value)
            | Reply::RefSet(_value)
            | Reply::Alter(_value)
            | Reply::Commute(_value)
            | Reply::Ensure(_value) => {}
            Reply::SendInTx(_sent) => {}
            Reply::Require(_met) => {}
            Reply::Commit(_committed) => {}
            Reply::Swap(_swapped) | Reply::Reset(_swapped) => {}
            Reply::CompareAndSet(_compared) => {}
            Reply::Send(_sent) => {}
            Reply::Take(_taken) => {}
            Reply::Run(_ran) => {}
            Reply::Finish(_finished) => {}
            Reply::Restart(_restarted) => {}
            Reply::SetErrorMode(_set) => {}
            Reply::Fold(_folded) => {}
            Reply::SetValidator(_set) => {}
            Reply::AddWatch(_added) => {}
            Reply::MakeRef(_made) | Reply::MakeAtom(_made) | Reply::MakeAgent(_made) => {}
            Reply::Checkpoint(_folded) => {}
            Reply::ValueOf(_value) => {}
            Reply::RuleOf(_rule) => {}
            Reply::ErrorOf(_error) => {}
        }
    }
}
