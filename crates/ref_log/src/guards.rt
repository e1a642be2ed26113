//! The guards of references: the rule and the watches of each.
ghost use Rattle.ref_log.specs.Told.{Tells};
ghost use Rattle.std.specs.Prelude.{◌≡◌, ◌<◌, ◌↔◌, ◌++◌, ◌∷◌, [], List, true, false, not, None, IsTrue, IfOk, IfErr, IfSome, OnErr, OnOk, length, option_copied, slice_get, slice_set};
ghost use Rattle.ref_value.specs.Edn.{Edn};
ghost use Rattle.ref_fun.specs.Rule.{Accepts, passes, unknown};
ghost use Rattle.ref_log.specs.Guards.{AreAccepted, are_known, keys_at, rule_at, rule_refusal, with_guard, with_rule, with_watch, without_watch};
ghost use Rattle.ref_log.specs.Watches.{has_key, notices_of};
ghost use Rattle.ref_log.specs.declared.faults.WatchFault.TheVariants as watches;

use crate::faults::{RuleFault, WatchFault};
use crate::notices::{Notice, Who};
use crate::watches::Watches;
use ref_fun::{Functions, Meaning, Rule, check_known, passes};
use ref_value::Value;
use std::alloc::{AllocError, Global};
use std::marker::Model;

/// What a reference has next to its value: a rule, if it has one, and watches.
#[derive(Drop)]
pub struct Guard {
    pub rule: Option<Rule>,
    pub watches: Watches,
}

/// The guards of references of one kind, by number. Contracts see a list. The values are whose the references are, and each
/// call that asks a rule takes the value.
#[derive(Drop)]
pub struct Guards {
    items: Vec<Guard>,
}

impl Model for Guards {
    ghost use Rattle.std.specs.Prelude.{List};
    ghost use Rattle.std.specs.Coded.{codes};
    ghost use Rattle.ref_value.specs.Code.{edn_code};
    ghost use Rattle.ref_log.specs.declared.guards.Guard.{Guard};

    ghost Value = { List Guard };

    ghost coded = { Prim.hlevel (codes, edn_code) };

    ghost view = { λ a. a.items.items };
}

impl Guards {
    /// Those of no reference. It takes no memory.
    pub fn empty(alloc: Global) -> Guards
        ensures { result ≡ [] }
    {
        Guards {
            items: Vec::new(alloc),
        }
    }

    /// Adds those of one more reference: this rule, or none, and no watch. A refused call changes nothing.
    pub fn add(&mut self, alloc: Global, rule: Option<Rule>) -> Result<(), AllocError>
        ensures adds { OnOk result (self.new ≡ with_guard self.old rule) }
        // Where the rule accepts the new reference's value, so do all.
        ensures accepted { OnOk result ((accepts : Accepts) (values : List Edn) (v : Edn)
            → length values ≡ length self.old → passes accepts rule v ≡ true → AreAccepted accepts self.old values
            → AreAccepted accepts self.new (values ++ v ∷ [])) }
        ensures err { OnErr result (self.new ≡ self.old) }
    {
        self.items.push(Guard {
            rule,
            watches: Watches::empty(alloc),
        })?;
        Ok(())
    }

    /// The rule of a reference, if it has one. It takes no memory.
    pub fn rule_of(&self, n: u32) -> Option<&Rule>
        ensures { option_copied result ≡ rule_at self.now n }
    {
        match &self.items.get(n as usize)?.rule {
            Some(rule) => Some(rule),
            None => None,
        }
    }

    /// Whether a table has the predicate of each rule. Linear in the number of references. It takes no memory.
    pub fn are_known<M: Meaning, F: Functions<M>>(&self, funs: &F) -> bool
        ensures { result ≡ are_known (F.knows funs.now).preds self.now }
    {
        for guard in &self.items {
            if check_known(funs, &guard.rule).is_err() {
                return false;
            }
        }
        true
    }

    /// The code of a reference's rule for which a table has no predicate, if it has one.
    pub fn check_known<M: Meaning, F: Functions<M>>(&self, funs: &F, n: u32) -> Result<(), u32>
        ensures refused { Tells (unknown (F.knows funs.now).preds (rule_at self.now n)) result }
    {
        match self.items.get(n as usize) {
            Some(guard) => check_known(funs, &guard.rule),
            None => Ok(()),
        }
    }

    /// Whether the rule of a reference, if it has one, accepts a value. A table knows the rule.
    pub fn accepts<M: Meaning, F: Functions<M>>(&self, funs: &F, n: u32, value: &Value) -> bool
        requires { unknown (F.knows funs.now).preds (rule_at self.now n) ≡ None }
        ensures accepts { result ≡ passes M.accepts (rule_at self.now n) value.now }
        // Where it does, the reference may have this value.
        ensures accepted { IsTrue result → (values : List Edn) → AreAccepted M.accepts self.now values
            → AreAccepted M.accepts self.now (slice_set values n value.now) }
    {
        match self.items.get(n as usize) {
            Some(guard) => passes(funs, &guard.rule, value),
            None => true,
        }
    }

    /// Gives a reference this rule, or none, instead of the one that it had. The rule has to accept the value that is
    /// passed, the reference's; none where there is no such reference. It takes no memory. A refused call changes nothing.
    pub fn set_rule<M: Meaning, F: Functions<M>>(
        &mut self,
        funs: &F,
        n: u32,
        value: Option<&Value>,
        rule: Option<Rule>,
    ) -> Result<(), RuleFault>
        ensures refused { Tells (rule_refusal M.accepts (F.knows funs.now).preds
            (option_copied value.entry) rule) result }
        ensures sets { OnOk result (self.new ≡ with_rule self.old n rule) }
        // All rules accept, if they did before and the value is the reference's.
        ensures accepted { OnOk result ((values : List Edn) → slice_get values n ≡ option_copied value.entry
            → AreAccepted M.accepts self.old values → AreAccepted M.accepts self.new values) }
        ensures all { length self.new ≡ length self.old }
        ensures err { OnErr result (self.new ≡ self.old) }
    {
        let Some(value) = value else {
            return Err(RuleFault::NoSuch);
        };
        if let Err(code) = check_known(funs, &rule) {
            return Err(RuleFault::NoSuchFun(code));
        }
        if !passes(funs, &rule, value) {
            return Err(RuleFault::Invalid);
        }
        if let Some(guard) = self.items.get_mut(n as usize) {
            guard.rule = rule;
        }
        Ok(())
    }

    /// Adds a watch to a reference, behind its others, and answers whether the key is new; a key that is there stays where it
    /// is. Linear in the number of the reference's watches. A refused call changes nothing.
    pub fn add_watch(&mut self, n: u32, key: Value) -> Result<bool, WatchFault>
        ensures new { IfOk result (λ is_new. is_new ≡ not (has_key (keys_at self.old n) key)) }
        ensures adds { OnOk result (self.new ≡ with_watch self.old n key) }
        ensures accepted { (accepts : Accepts) (values : List Edn) → AreAccepted accepts self.old values
            → AreAccepted accepts self.new values }
        ensures all { length self.new ≡ length self.old }
        ensures here { OnOk result (n < length self.old) }
        ensures fault { IfErr result (λ f. f ≡ watches.NoSuch ↔ (n < length self.old → ⊥)) }
        ensures memory { IfErr result (λ f. f ≡ watches.Memory → has_key (keys_at self.old n) key ≡ false) }
        ensures err { OnErr result (self.new ≡ self.old) }
    {
        let Some(guard) = self.items.get_mut(n as usize) else {
            return Err(WatchFault::NoSuch);
        };
        Ok(guard.watches.add(key)?)
    }

    /// Takes a watch away from a reference, and answers whether it was there, also false where the reference isn't. It takes no
    /// memory. Linear in the number of the reference's watches.
    pub fn remove_watch(&mut self, n: u32, key: &Value) -> bool
        ensures was { result ≡ has_key (keys_at self.old n) key.now }
        ensures removes { self.new ≡ without_watch self.old n key.now }
        ensures accepted { (accepts : Accepts) (values : List Edn) → AreAccepted accepts self.old values
            → AreAccepted accepts self.new values }
        ensures all { length self.new ≡ length self.old }
    {
        match self.items.get_mut(n as usize) {
            Some(guard) => guard.watches.remove(key),
            None => false,
        }
    }

    /// Whether the reference of this number has no watch, or isn't there. It takes no memory.
    pub fn is_unwatched(&self, n: u32) -> bool
        ensures { IsTrue result ↔ (keys_at self.now n ≡ []) }
    {
        match self.items.get(n as usize) {
            Some(guard) => guard.watches.is_empty(),
            None => true,
        }
    }

    /// Adds a notice for each watch of the reference of this number, in the order of adding: the value of `who` was `before`
    /// and is `after`. A refused call adds none.
    pub fn tell(
        &self,
        n: u32,
        who: Who,
        before: &Value,
        after: &Value,
        all: &mut Vec<Notice>,
    ) -> Result<(), AllocError>
        ensures ok { OnOk result (all.new.items ≡ all.old.items
            ++ notices_of who (keys_at self.now n) before.now after.now) }
        ensures err { OnErr result (all.new.items ≡ all.old.items) }
    {
        match self.watches_of(n) {
            Some(watches) => watches.tell(who, before, after, all),
            None => Ok(()),
        }
    }

    // The watches of a reference, if it is there.
    fn watches_of(&self, n: u32) -> Option<&Watches>
        ensures some { IfSome (option_copied result) (λ keys. keys ≡ keys_at self.now n) }
        ensures none { result ≡ None → keys_at self.now n ≡ [] }
    {
        match self.items.get(n as usize) {
            Some(guard) => Some(&guard.watches),
            None => None,
        }
    }
}
