//! The store of atoms.
ghost use Rattle.ref_log.specs.Told.{Tells};
ghost use Rattle.std.specs.Prelude.{◌≡◌, ◌<◌, ◌≤◌, ◌↔◌, [], false, not, IsTrue, IfOk, IfErr, OnErr, OnOk, length, option_copied, slice_get};
ghost use Rattle.ref_log.specs.Guards.{AreAccepted, are_known, keys_at, rule_at, rule_refusal, with_rule, with_watch, without_watch};
ghost use Rattle.ref_log.specs.Watches.{has_key};
ghost use Rattle.ref_log.specs.declared.faults.WatchFault.TheVariants as watches;
ghost use Rattle.ref_atoms.specs.Atoms.{with_guards};
ghost use Rattle.ref_log.specs.Limits.{most_references};

use ref_fun::{Functions, Meaning, Rule};
use ref_log::{Guards, RuleFault, WatchFault};
use ref_value::Value;
use std::alloc::Global;
use std::marker::{Model, PhantomData};

/// Atoms, numbered from 0. Contracts see the values, and the rule and the watches of each.
///
/// It is always so that each rule accepts the value of its atom.
#[derive(Drop)]
pub struct AtomStore<M: Meaning> {
    pub(crate) values: Vec<Value>,
    pub(crate) guards: Guards,
    of: PhantomData<M>,
}

impl<M: Meaning> Model for AtomStore<M> {
    ghost use Rattle.std.specs.Prelude.{◌≡◌, ◌≤◌, length};
    ghost use Rattle.std.specs.Coded.{codes};
    ghost use Rattle.ref_value.specs.Code.{edn_code};
    ghost use Rattle.ref_log.specs.Guards.{AreAccepted};
    ghost use Rattle.ref_log.specs.Limits.{most_references};
    ghost use Rattle.ref_atoms.specs.Atoms.{AtomsSeen};

    ghost Value = { AtomsSeen };

    ghost coded = { Prim.hlevel (codes, edn_code) };

    ghost view = { λ a. record { values = a.values.items; guards = a.guards } };

    ghost invariant = { λ a. (length a.values.items ≤ most_references) × (length a.guards ≡ length a.values.items)
        × AreAccepted M.accepts a.guards a.values.items };
}

impl<M: Meaning> AtomStore<M> {
    /// A store without atoms. It takes no memory.
    pub fn empty(alloc: Global) -> AtomStore<M>
        ensures { result ≡ record { values = []; guards = [] } }
    {
        AtomStore {
            values: Vec::new(alloc),
            guards: Guards::empty(alloc),
            of: PhantomData,
        }
    }

    /// How many atoms there are, at most 2^20.
    pub fn len(&self) -> usize
        ensures value { result ≡ length self.now.values }
        ensures bound { result ≤ most_references }
        // Each atom has a rule or none, and its watches.
        ensures guards { length self.now.guards ≡ length self.now.values }
    {
        self.values.len()
    }

    /// Whether there are no atoms.
    pub fn is_empty(&self) -> bool
        ensures { IsTrue result ↔ (self.now.values ≡ []) }
    {
        self.values.is_empty()
    }

    /// The value of an atom now, if there is such an atom. It takes no memory.
    pub fn value_of(&self, a: u32) -> Option<&Value>
        ensures { option_copied result ≡ slice_get self.now.values a }
    {
        self.values.get(a as usize)
    }

    /// The rule of an atom, if it has one. It takes no memory.
    pub fn rule_of(&self, a: u32) -> Option<&Rule>
        ensures rule { option_copied result ≡ rule_at self.now.guards a }
        // Each rule accepts the value of its atom.
        ensures accepted { AreAccepted M.accepts self.now.guards self.now.values }
    {
        self.guards.rule_of(a)
    }

    /// Whether a table has the predicate of each rule here. Linear in the number of atoms. It takes no memory.
    pub fn are_rules_known<F: Functions<M>>(&self, funs: &F) -> bool
        ensures { result ≡ are_known (F.knows funs.now).preds self.now.guards }
    {
        self.guards.are_known(funs)
    }

    /// Gives an atom this rule, or none, instead of the one that it had. The rule has to accept the value of the atom
    /// now. It takes no memory. A refused call changes nothing.
    pub fn set_validator<F: Functions<M>>(
        &mut self,
        funs: &F,
        a: u32,
        rule: Option<Rule>,
    ) -> Result<(), RuleFault>
        ensures refused { Tells (rule_refusal M.accepts (F.knows funs.now).preds
            (slice_get self.old.values a) rule) result }
        ensures sets { OnOk result (self.new ≡ with_guards self.old (with_rule self.old.guards a rule)) }
        ensures err { OnErr result (self.new ≡ self.old) }
    {
        let value = self.values.get(a as usize);
        self.guards.set_rule(funs, a, value, rule)
    }

    /// Adds a watch to an atom, behind its others, and answers whether the key is new; a key that is there stays where it is.
    /// Linear in the number of the atom's watches. A refused call changes nothing.
    pub fn add_watch(&mut self, a: u32, key: Value) -> Result<bool, WatchFault>
        ensures new { IfOk result (λ is_new. is_new ≡ not (has_key (keys_at self.old.guards a) key)) }
        ensures adds { OnOk result (self.new ≡ with_guards self.old (with_watch self.old.guards a key)) }
        ensures here { OnOk result (a < length self.old.values) }
        ensures fault { IfErr result (λ f. f ≡ watches.NoSuch ↔ (a < length self.old.values → ⊥)) }
        ensures memory { IfErr result (λ f. f ≡ watches.Memory → has_key (keys_at self.old.guards a) key ≡ false) }
        ensures err { OnErr result (self.new ≡ self.old) }
    {
        self.guards.add_watch(a, key)
    }

    /// Takes a watch away from an atom, and answers whether it was there, also false where the atom isn't. It takes no
    /// memory. Linear in the number of the atom's watches.
    pub fn remove_watch(&mut self, a: u32, key: &Value) -> bool
        ensures was { result ≡ has_key (keys_at self.old.guards a) key.now }
        ensures removes { self.new ≡ with_guards self.old (without_watch self.old.guards a key.now) }
    {
        self.guards.remove_watch(a, key)
    }
}
