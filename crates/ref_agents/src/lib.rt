//! Agents: references whose state changes by actions that are sent to them, one at a time.
//!
//! An [`AgentStore`] holds all agents, numbered from 0: an [`Action`](ref_fun::Action) that is sent waits in its agent's queue, and
//! [`AgentStore::take`] returns the first of some agent as a [`Job`], which is run wherever its taker likes ([`Job::run`]) and then
//! comes back to [`AgentStore::finish`]. Clojure's page on agents says what happens where an action fails or the agent's rule, its
//! validator, doesn't accept its value: by its error mode the agent fails, its state stays, and it takes no more sends until
//! [`AgentStore::restart`], or goes on as if there had been no such action.
//!
//! At most one job of an agent is on its way; one that isn't finished goes back by [`AgentStore::put_back`]. What a transaction sent is
//! held until its commit is released ([`AgentStore::send_held`], [`AgentStore::release`]). What an action carries goes out where its
//! value became the state: it is held until [`AgentStore::release_carried`], and until then its agent takes no other action.
//! [`AgentStore::fold`] drops the actions of an agent that ended.
//!
//! | Type | Is |
//! |---|---|
//! | [`AgentStore`], [`Agent`] | the agents, at most 2^20, with rules, watches and the commits whose sends are held; one agent |
//! | [`ErrorMode`], [`AgentError`] | whether an agent fails or goes on where an action fails; why the action failed |
//! | [`Account`] | what an agent was given to do: its start, the actions that ended since then, and those that wait |
//! | [`Handled`], [`Mark`], [`Queued`], [`SentBy`] | an action that ended, and how; one that waits, and what sent it |
//! | [`Job`], [`Ran`], [`Finished`] | an action on its way; one that has run; how it ended. The first two have to be spent |
//! | [`Start`], [`RefStart`], [`AtomStart`], [`AgentStart`] | what a world begins with: values, rules and marks. Below `ref_world`, for those who read one |
//! | [`SendFault`], [`JobFault`], [`FinishFault`], [`RestartFault`], [`ModeFault`] | why a call was refused, which changes nothing |
//!
//! Take it where a program has agents alone; otherwise take `ref_world`, where transactions send to them, or `ref_shared`, where each
//! thread that calls `work_once` in a loop is one of a pool.
//!
//! **Costs.** A `send` takes constant time. What a commit sends takes, for each send, time logarithmic in the number of agents, and so does
//! its `release` for each agent whose first action it sent; both are logarithmic in the number of commits that are held. `take` finds an
//! agent that is ready by an index of blocks of 1,024 agents: it takes a step for each agent of a block and one for each block,
//! however many agents wait. `finish` and `put_back` compare arguments and state of the job, in time linear in their sizes; `finish`
//! tests the rule too and makes a notice for each watch. An account stores each action that ended until a fold or a restart, which
//! takes a step for each that it drops. For each send that is carried `finish` and `release_carried` take time logarithmic in the number
//! of such sends that wait for its agent.
//!
//! **Not promised.** Which of the ready agents `take` returns: they take turns, but no contract says so. That an action is ever run,
//! or that a job comes back: while one is lost, its agent can't be taken, and only that job or an equal one ends it. That
//! `run` doesn't return 'out of memory' instead of the refusal of a job's function. That a watch is called before the agent's next
//! action is run: who finishes a job gets the notices. No contract speaks of time, or of how much memory is taken.
#![tactic(auto)]

pub mod accounts;
pub mod agents;
mod changing;
mod ends;
pub mod faults;
mod folding;
mod indexed;
pub mod jobs;
mod making;
mod marks;
mod pairs;
mod releasing;
mod restarting;
mod rules;
mod sends;
pub mod starts;
mod taking;

pub use accounts::{Account, Handled, Mark, Queued, SentBy};
pub use agents::{Agent, AgentStore, ErrorMode};
pub use ends::Finished;
pub use faults::{AgentError, FinishFault, JobFault, ModeFault, RestartFault, SendFault};
pub use jobs::{Job, Ran};
pub use starts::{AgentStart, AtomStart, RefStart, Start};
