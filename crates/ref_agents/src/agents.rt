//! The store of agents.
ghost use Rattle.std.specs.Prelude.{◌≡◌, ◌≢◌, ◌≤◌, ◌↔◌, [], IsTrue, None, Some, OnOk, OnErr, length, option_copied, slice_get};
ghost use Rattle.ref_agents.specs.Agents.{AreAgents, account_at, error_at, value_at, with_mode};
ghost use Rattle.ref_agents.specs.Carried.{AreCarried, AreRising};
ghost use Rattle.ref_log.specs.Limits.{most_references};

use crate::accounts::Account;
use crate::faults::{AgentError, ModeFault};
use crate::indexed::IndexedAgents;
use ref_fun::Meaning;
use ref_log::Guards;
use ref_value::Value;
use std::alloc::Global;
use std::marker::{Model, PhantomData};

/// What happens where an action fails or the rule doesn't accept its value, as Clojure's `:error-mode`.
#[derive(Clone, Copy, Debug, Drop, PartialEq, Eq)]
pub enum ErrorMode {
    /// The agent is failed: its state and its queue stay, and it takes no send until it is restarted.
    Fail,
    /// The agent goes on as if neither action nor error had been.
    Continue,
}

/// An agent: its state, its error mode, its error while it is failed, its account, whether its first action that waits is on its
/// way, and whether what its last handled action carried isn't released yet.
#[derive(Drop)]
pub struct Agent {
    pub value: Value,
    pub mode: ErrorMode,
    pub error: Option<AgentError>,
    pub account: Account,
    pub is_out: bool,
    pub is_carrying: bool,
}

/// Agents, numbered from 0, the rule and the watches of each, and the points of the commits whose sends may not be taken yet.
/// Contracts see lists.
///
/// It is always so that each rule accepts the state of its agent; that the state is the start of the agent's account folded
/// over its done actions; that an agent is failed exactly where its last handled action is marked failed; that no action of
/// a failed agent is on its way, nor of one whose last action carried sends that aren't released; that no more is held in an
/// agent's name than its last action carried; and that no commit is held twice.
#[derive(Drop)]
pub struct AgentStore<M: Meaning> {
    pub(crate) agents: IndexedAgents,
    pub(crate) guards: Guards,
    // The agent that is looked at first when a job is taken.
    pub(crate) next: u32,
    of: PhantomData<M>,
}

impl<M: Meaning> Model for AgentStore<M> {
    ghost use Rattle.std.specs.Coded.{codes};
    ghost use Rattle.ref_value.specs.Code.{edn_code};
    ghost use Rattle.ref_agents.specs.Agents.{AgentsSeen, IsStore};
    ghost use Rattle.ref_agents.specs.Carried.{AreCarried, AreRising};

    ghost Value = { AgentsSeen };

    ghost coded = { Prim.hlevel (codes, edn_code) };

    ghost view = { λ a. record { agents = a.agents.items; guards = a.guards; unreleased = a.agents.unreleased } };

    ghost invariant = { λ a. IsStore M.means M.accepts a.agents.items a.guards × AreCarried a.agents.items × AreRising a.agents.unreleased };
}

impl<M: Meaning> AgentStore<M> {
    /// A store without agents. It takes no memory.
    pub fn empty(alloc: Global) -> AgentStore<M>
        ensures { result ≡ record { agents = []; guards = []; unreleased = [] } }
    {
        AgentStore {
            agents: IndexedAgents::empty(alloc),
            guards: Guards::empty(alloc),
            next: 0,
            of: PhantomData,
        }
    }

    /// How many agents there are, at most 2^20.
    pub fn len(&self) -> usize
        ensures value { result ≡ length self.now.agents }
        ensures bound { result ≤ most_references }
        // Each agent has a rule or none, and its watches.
        ensures guards { length self.now.guards ≡ length self.now.agents }
    {
        self.agents.len()
    }

    /// Whether there are no agents.
    pub fn is_empty(&self) -> bool
        ensures { IsTrue result ↔ (self.now.agents ≡ []) }
    {
        self.agents.len() == 0
    }

    /// The state of an agent now, if there is such an agent. It takes no memory.
    pub fn value_of(&self, g: u32) -> Option<&Value>
        ensures { option_copied result ≡ value_at self.now.agents g }
    {
        value_at(self.agents.as_slice(), g)
    }

    /// The error of a failed agent. It takes no memory.
    pub fn error_of(&self, g: u32) -> Option<AgentError>
        ensures { result ≡ error_at self.now.agents g }
    {
        self.agents.get(g)?.error
    }

    /// The account of an agent, if there is such an agent. It takes no memory.
    pub fn account(&self, g: u32) -> Option<&Account>
        ensures account { option_copied result ≡ account_at self.now.agents g }
        // Each agent's state is its start folded over its done actions.
        ensures agents { AreAgents M.means self.now.agents }
        // No more is held in an agent's name than its last action carried, and no commit is held twice.
        ensures carried { AreCarried self.now.agents }
        ensures rising { AreRising self.now.unreleased }
    {
        Some(&self.agents.get(g)?.account)
    }

    /// Sets what happens where an action of an agent fails. A failed agent stays failed.
    pub fn set_error_mode(&mut self, g: u32, mode: ErrorMode) -> Result<(), ModeFault>
        ensures here { OnOk result (slice_get self.old.agents g ≢ None) }
        ensures sets { OnOk result (self.new ≡ with_mode self.old g mode) }
        ensures none { OnErr result (slice_get self.old.agents g ≡ None) }
        ensures err { OnErr result (self.new ≡ self.old) }
    {
        if self.agents.get(g).is_none() {
            return Err(ModeFault::NoSuchAgent);
        }
        self.agents.set_mode(g, mode);
        Ok(())
    }
}

// The state of an agent, if it is here.
pub(crate) fn value_at(agents: &[Agent], g: u32) -> Option<&Value>
    ensures { option_copied result ≡ value_at agents.now g }
{
    Some(&agents.get(g as usize)?.value)
}
