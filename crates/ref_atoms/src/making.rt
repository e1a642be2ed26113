//! Making an atom.
ghost use Rattle.ref_log.specs.Told.{Tells, TellsThenMemory};
ghost use Rattle.std.specs.Prelude.{◌≡◌, ◌≢◌, ◌<◌, ◌≤◌, true, false, IfOk, IfErr, OnErr, OnOk, length};
ghost use Rattle.ref_fun.specs.Rule.{passes};
ghost use Rattle.ref_log.specs.Make.{make_refusal};
ghost use Rattle.ref_log.specs.declared.faults.MakeFault.TheVariants as makes;
ghost use Rattle.ref_atoms.specs.Atoms.{with_atom};
ghost use Rattle.ref_log.specs.Limits.{last_point, most_references};

use crate::atoms::AtomStore;
use ref_fun::{Functions, Meaning, Rule};
use ref_log::{MakeFault, check_make};
use ref_value::Value;
use std::alloc::{AllocError, Global};

impl<M: Meaning> AtomStore<M> {
    /// Makes an atom with this value and this rule, if any, at this point, and answers its number. A refused call changes
    /// nothing.
    pub fn make<F: Functions<M>>(
        &mut self,
        alloc: Global,
        funs: &F,
        at: u64,
        start: Value,
        rule: Option<Rule>,
    ) -> Result<u32, MakeFault>
        ensures refused { TellsThenMemory makes.Memory
            (make_refusal M.accepts (F.knows funs.now).preds (length self.old.values) false at start rule) result }
        ensures number { IfOk result (λ a. a ≡ length self.old.values) }
        ensures adds { OnOk result (self.new ≡ with_atom self.old start rule) }
        ensures err { OnErr result (self.new ≡ self.old) }
    {
        self.check_make(funs, at, &start, &rule)?;
        Ok(self.add(alloc, start, rule)?)
    }

    /// Checks whether an atom can be made with this value and this rule, if any, at this point. It takes no memory.
    pub fn check_make<F: Functions<M>>(
        &self,
        funs: &F,
        at: u64,
        start: &Value,
        rule: &Option<Rule>,
    ) -> Result<(), MakeFault>
        ensures refused { Tells (make_refusal M.accepts (F.knows funs.now).preds
            (length self.now.values) false at start.now rule.now) result }
        ensures room { OnOk result (length self.now.values < most_references) }
        ensures limit { OnOk result (at ≤ last_point) }
        ensures accepted { OnOk result (passes M.accepts rule.now start.now ≡ true) }
        ensures told { IfErr result (λ f. f ≢ makes.Memory) }
    {
        check_make(funs, self.len(), false, at, start, rule)
    }

    /// Adds an atom that can be made, and answers its number. A refused call changes nothing.
    pub fn add(
        &mut self,
        alloc: Global,
        start: Value,
        rule: Option<Rule>,
    ) -> Result<u32, AllocError>
        requires room { length self.old.values < most_references }
        requires accepted { passes M.accepts rule start ≡ true }
        ensures number { IfOk result (λ a. a ≡ length self.old.values) }
        ensures adds { OnOk result (self.new ≡ with_atom self.old start rule) }
        ensures err { OnErr result (self.new ≡ self.old) }
    {
        let a = self.len() as u32;
        self.values.reserve(1)?;
        self.guards.add(alloc, rule)?;
        self.values.push_reserved(start);
        Ok(a)
    }
}
