//! The rules and the watches of agents.
ghost use Rattle.ref_log.specs.Told.{Tells};
ghost use Rattle.std.specs.Prelude.{◌≡◌, ◌<◌, ◌↔◌, length, false, not, IfOk, IfErr, OnOk, OnErr, option_copied};
ghost use Rattle.ref_log.specs.Guards.{AreAccepted, are_known, keys_at, rule_at, rule_refusal, with_rule, with_watch, without_watch};
ghost use Rattle.ref_log.specs.Watches.{has_key};
ghost use Rattle.ref_log.specs.declared.faults.WatchFault.TheVariants as watches;
ghost use Rattle.ref_agents.specs.Agents.{value_at, values_of, with_guards};

use crate::agents::{AgentStore, value_at};
use ref_fun::{Functions, Meaning, Rule};
use ref_log::{RuleFault, WatchFault};
use ref_value::Value;

impl<M: Meaning> AgentStore<M> {
    /// The rule of an agent, if it has one. It takes no memory.
    pub fn rule_of(&self, g: u32) -> Option<&Rule>
        ensures rule { option_copied result ≡ rule_at self.now.guards g }
        // Each rule accepts the state of its agent.
        ensures accepted { AreAccepted M.accepts self.now.guards (values_of self.now.agents) }
    {
        self.guards.rule_of(g)
    }

    /// Whether a table has the predicate of each rule here. Linear in the number of agents. It takes no memory.
    pub fn are_rules_known<F: Functions<M>>(&self, funs: &F) -> bool
        ensures { result ≡ are_known (F.knows funs.now).preds self.now.guards }
    {
        self.guards.are_known(funs)
    }

    /// Gives an agent this rule, or none, instead of the one that it had. The rule has to accept the state of the agent
    /// now. It takes no memory. A refused call changes nothing.
    pub fn set_validator<F: Functions<M>>(
        &mut self,
        funs: &F,
        g: u32,
        rule: Option<Rule>,
    ) -> Result<(), RuleFault>
        ensures refused { Tells (rule_refusal M.accepts (F.knows funs.now).preds
            (value_at self.old.agents g) rule) result }
        ensures sets { OnOk result (self.new ≡ with_guards self.old (with_rule self.old.guards g rule)) }
        ensures err { OnErr result (self.new ≡ self.old) }
    {
        self.guards
            .set_rule(funs, g, value_at(self.agents.as_slice(), g), rule)
    }

    /// Adds a watch to an agent, behind its others, and answers whether the key is new; a key that is there stays where it is.
    /// Linear in the number of the agent's watches. A refused call changes nothing.
    pub fn add_watch(&mut self, g: u32, key: Value) -> Result<bool, WatchFault>
        ensures new { IfOk result (λ is_new. is_new ≡ not (has_key (keys_at self.old.guards g) key)) }
        ensures adds { OnOk result (self.new ≡ with_guards self.old (with_watch self.old.guards g key)) }
        ensures here { OnOk result (g < length self.old.agents) }
        ensures fault { IfErr result (λ f. f ≡ watches.NoSuch ↔ (g < length self.old.agents → ⊥)) }
        ensures memory { IfErr result (λ f. f ≡ watches.Memory → has_key (keys_at self.old.guards g) key ≡ false) }
        ensures err { OnErr result (self.new ≡ self.old) }
    {
        self.guards.add_watch(g, key)
    }

    /// Takes a watch away from an agent, and answers whether it was there, also false where the agent isn't. It takes no
    /// memory. Linear in the number of the agent's watches.
    pub fn remove_watch(&mut self, g: u32, key: &Value) -> bool
        ensures was { result ≡ has_key (keys_at self.old.guards g) key.now }
        ensures removes { self.new ≡ with_guards self.old (without_watch self.old.guards g key.now) }
    {
        self.guards.remove_watch(g, key)
    }
}
