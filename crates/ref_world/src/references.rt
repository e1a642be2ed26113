//! What can be asked of each kind of reference: its value, its rule and its watches.
ghost use Rattle.ref_log.specs.Told.{Tells};
ghost use Rattle.std.specs.Prelude.{◌≡◌, ◌≢◌, ◌≤◌, ◌↔◌, true, false, not, None, IfOk, IfErr, OnErr, OnOk, option_copied, length};
ghost use Rattle.ref_log.specs.Watches.{has_key};
ghost use Rattle.ref_log.specs.declared.faults.WatchFault.TheVariants as watches;
ghost use Rattle.ref_world.specs.References.{are_known, is_accepted_at, keys_at, rule_at, rule_refusal, value_at, with_rule, with_watch, without_watch};
ghost use Rattle.ref_world.specs.World.{IsReplayed};
ghost use Rattle.ref_log.specs.Limits.{most_references};

use crate::worlds::World;
use ref_fun::{Functions, Meaning, Rule};
use ref_log::{RuleFault, WatchFault, Who};
use ref_value::Value;

impl<M: Meaning> World<M> {
    /// How many refs there are, at most 2^20.
    pub fn ref_count(&self) -> usize
        ensures value { result ≡ length self.now.refs.values }
        // Each of them has a last change.
        ensures lasts { length self.now.refs.lasts ≡ result }
        ensures bound { result ≤ most_references }
    {
        self.refs.len()
    }

    /// How many atoms there are, at most 2^20.
    pub fn atom_count(&self) -> usize
        ensures value { result ≡ length self.now.atoms.values }
        ensures bound { result ≤ most_references }
    {
        self.atoms.len()
    }

    /// How many agents there are, at most 2^20.
    pub fn agent_count(&self) -> usize
        ensures value { result ≡ length self.now.agents.agents }
        ensures bound { result ≤ most_references }
    {
        self.agents.len()
    }

    /// The value of a reference now, if it is there: of an agent its state. It takes no memory.
    pub fn value_of(&self, who: Who) -> Option<&Value>
        ensures value { option_copied result ≡ value_at self.now who }
        // Every ref and atom holds what the stored entries, replayed one by one on the stored base, give.
        ensures replayed { IsReplayed M.means self.now.base self.now.log self.now.refs self.now.atoms }
    {
        match who {
            Who::Ref(r) => self.refs.value_of(r),
            Who::Atom(a) => self.atoms.value_of(a),
            Who::Agent(g) => self.agents.value_of(g),
        }
    }

    /// The rule of a reference, if it has one. It takes no memory.
    pub fn rule_of(&self, who: Who) -> Option<&Rule>
        ensures rule { option_copied result ≡ rule_at self.now who }
        // Every rule accepts its reference's value.
        ensures accepted { is_accepted_at M.accepts self.now who ≡ true }
    {
        match who {
            Who::Ref(r) => self.refs.rule_of(r),
            Who::Atom(a) => self.atoms.rule_of(a),
            Who::Agent(g) => self.agents.rule_of(g),
        }
    }

    /// Gives a reference this rule, or none, instead of the one that it had. The rule has to accept the value now. It
    /// takes no memory. A refused call changes nothing.
    pub fn set_validator<F: Functions<M>>(
        &mut self,
        funs: &F,
        who: Who,
        rule: Option<Rule>,
    ) -> Result<(), RuleFault>
        ensures refused { Tells (rule_refusal M.accepts (F.knows funs.now).preds self.old who rule) result }
        ensures sets { OnOk result (self.new ≡ with_rule self.old who rule) }
        ensures err { OnErr result (self.new ≡ self.old) }
    {
        match who {
            Who::Ref(r) => self.refs.set_validator(funs, r, rule),
            Who::Atom(a) => self.atoms.set_validator(funs, a, rule),
            Who::Agent(g) => self.agents.set_validator(funs, g, rule),
        }
    }

    /// Adds a watch to a reference, behind its others, and answers whether the key is new; a key that is there stays where it
    /// is. Linear in the number of the reference's watches. A refused call changes nothing.
    pub fn add_watch(&mut self, who: Who, key: Value) -> Result<bool, WatchFault>
        ensures new { IfOk result (λ is_new. is_new ≡ not (has_key (keys_at self.old who) key)) }
        ensures adds { OnOk result (self.new ≡ with_watch self.old who key) }
        ensures here { OnOk result (value_at self.old who ≢ None) }
        ensures fault { IfErr result (λ f. f ≡ watches.NoSuch ↔ (value_at self.old who ≡ None)) }
        ensures memory { IfErr result (λ f. f ≡ watches.Memory → has_key (keys_at self.old who) key ≡ false) }
        ensures err { OnErr result (self.new ≡ self.old) }
    {
        match who {
            Who::Ref(r) => self.refs.add_watch(r, key),
            Who::Atom(a) => self.atoms.add_watch(a, key),
            Who::Agent(g) => self.agents.add_watch(g, key),
        }
    }

    /// Takes a watch away from a reference, and answers whether it was there, also false where the reference isn't. It takes
    /// no memory. Linear in the number of the reference's watches.
    pub fn remove_watch(&mut self, who: Who, key: &Value) -> bool
        ensures was { result ≡ has_key (keys_at self.old who) key.now }
        ensures removes { self.new ≡ without_watch self.old who key.now }
    {
        match who {
            Who::Ref(r) => self.refs.remove_watch(r, key),
            Who::Atom(a) => self.atoms.remove_watch(a, key),
            Who::Agent(g) => self.agents.remove_watch(g, key),
        }
    }

    /// Whether a table has the predicate of each rule here. Linear in the number of references. It takes no memory.
    pub fn served_by<F: Functions<M>>(&self, funs: &F) -> bool
        ensures { result ≡ are_known (F.knows funs.now).preds self.now }
    {
        self.refs.are_rules_known(funs)
            && self.atoms.are_rules_known(funs)
            && self.agents.are_rules_known(funs)
    }
}
