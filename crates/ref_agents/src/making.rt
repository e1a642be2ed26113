//! Making an agent.
ghost use Rattle.ref_log.specs.Told.{Tells, TellsThenMemory};
ghost use Rattle.std.specs.Prelude.{◌≡◌, ◌≢◌, ◌<◌, true, IfOk, IfErr, OnErr, OnOk, length};
ghost use Rattle.ref_fun.specs.Rule.{passes};
ghost use Rattle.ref_log.specs.declared.faults.MakeFault.TheVariants.{BadTally, Memory, PointLimit};
ghost use Rattle.ref_agents.specs.Make.{agent_refusal, with_agent};
ghost use Rattle.ref_log.specs.Limits.{most_references};

use crate::accounts::Account;
use crate::agents::{Agent, AgentStore, ErrorMode};
use ref_fun::{Functions, Meaning, Rule};
use ref_log::{MakeFault, check_make};
use ref_value::Value;
use std::alloc::{AllocError, Global};

impl<M: Meaning> AgentStore<M> {
    /// Makes an agent with this state, this rule, if any, and this error mode, and answers its number. A refused call changes
    /// nothing.
    pub fn make<F: Functions<M>>(
        &mut self,
        alloc: Global,
        funs: &F,
        start: Value,
        rule: Option<Rule>,
        mode: ErrorMode,
    ) -> Result<u32, MakeFault>
        ensures refused { TellsThenMemory Memory
            (agent_refusal M.accepts (F.knows funs.now).preds self.old start rule) result }
        ensures number { IfOk result (λ g. g ≡ length self.old.agents) }
        ensures adds { OnOk result (self.new ≡ with_agent self.old start rule mode) }
        // An agent is no tally, and has no point.
        ensures kind { IfErr result (λ f. (f ≢ BadTally) × (f ≢ PointLimit)) }
        ensures err { OnErr result (self.new ≡ self.old) }
    {
        self.check_make(funs, &start, &rule)?;
        Ok(self.add(alloc, start, rule, mode)?)
    }

    /// Checks whether an agent can be made with this state and this rule, if any. It takes no memory.
    pub fn check_make<F: Functions<M>>(
        &self,
        funs: &F,
        start: &Value,
        rule: &Option<Rule>,
    ) -> Result<(), MakeFault>
        ensures refused { Tells (agent_refusal M.accepts (F.knows funs.now).preds self.now start.now rule.now) result }
        // What `add` asks.
        ensures room { OnOk result (length self.now.agents < most_references) }
        ensures accepted { OnOk result (passes M.accepts rule.now start.now ≡ true) }
        ensures told { IfErr result (λ f. f ≢ Memory) }
    {
        check_make(funs, self.len(), false, 0, start, rule)
    }

    /// Adds an agent that can be made, and answers its number. A refused call changes nothing.
    pub fn add(
        &mut self,
        alloc: Global,
        start: Value,
        rule: Option<Rule>,
        mode: ErrorMode,
    ) -> Result<u32, AllocError>
        requires room { length self.old.agents < most_references }
        requires accepted { passes M.accepts rule start ≡ true }
        ensures number { IfOk result (λ g. g ≡ length self.old.agents) }
        ensures adds { OnOk result (self.new ≡ with_agent self.old start rule mode) }
        ensures err { OnErr result (self.new ≡ self.old) }
    {
        let g = self.len() as u32;
        let value = start.share()?;
        self.agents.push(Agent {
            value,
            mode,
            error: None,
            account: Account::new(alloc, start),
            is_out: false,
            is_carrying: false,
        })?;
        if self.guards.add(alloc, rule).is_err() {
            self.agents.pop();
            return Err(AllocError);
        }
        Ok(g)
    }
}
