//! Making a ref.
ghost use Rattle.ref_log.specs.Told.{Tells, TellsThenMemory};
ghost use Rattle.std.specs.Prelude.{◌≡◌, ◌≢◌, ◌<◌, ◌≤◌, ℕ, true, false, IfOk, IfErr, OnErr, OnOk, length};
ghost use Rattle.ref_fun.specs.Rule.{passes};
ghost use Rattle.ref_log.specs.declared.faults.MakeFault.TheVariants as makes;
ghost use Rattle.ref_refs.specs.Make.{is_bad_tally, made_at, make_refusal, with_ref};
ghost use Rattle.ref_refs.specs.Seen.{are_unchanged_since, changed_at};
ghost use Rattle.ref_log.specs.Limits.{last_point, most_references};

use crate::checking::is_count;
use crate::current::Refs;
use crate::store::RefStore;
use ref_fun::{Functions, Meaning, Rule};
use ref_log::{MakeFault, check_make};
use ref_value::Value;
use std::alloc::{AllocError, Global};

impl<M: Meaning> RefStore<M> {
    /// Makes a ref with this value and this rule, if any, the tally or not, at this point, and answers its number. The point
    /// is 0 where the ref is declared at the start, and else a new one; no ref has changed after it. A refused call changes
    /// nothing.
    pub fn make<F: Functions<M>>(
        &mut self,
        alloc: Global,
        funs: &F,
        at: u64,
        start: Value,
        rule: Option<Rule>,
        tally: bool,
    ) -> Result<u32, MakeFault>
        requires { are_unchanged_since self.old.lasts at ≡ true }
        ensures refused { TellsThenMemory makes.Memory
            (make_refusal M.accepts (F.knows funs.now).preds self.old at start rule tally) result }
        ensures number { IfOk result (λ r. r ≡ length self.old.values) }
        ensures adds { OnOk result (self.new ≡ with_ref self.old at start rule tally) }
        ensures lasts { OnOk result ((r : ℕ) → changed_at self.new.lasts r ≡ made_at self.old at r) }
        ensures since { are_unchanged_since self.new.lasts at ≡ true }
        ensures err { OnErr result (self.new ≡ self.old) }
    {
        self.check_make(funs, at, &start, &rule, tally)?;
        Ok(self.add(alloc, at, start, rule, tally)?)
    }

    /// Checks whether a ref can be made with this value and this rule, if any, the tally or not, at this point. It takes no
    /// memory.
    pub fn check_make<F: Functions<M>>(
        &self,
        funs: &F,
        at: u64,
        start: &Value,
        rule: &Option<Rule>,
        tally: bool,
    ) -> Result<(), MakeFault>
        ensures refused { Tells (make_refusal M.accepts
            (F.knows funs.now).preds self.now at start.now rule.now tally) result }
        // What `add` asks.
        ensures room { OnOk result (length self.now.values < most_references) }
        ensures tally { OnOk result (is_bad_tally self.now start.now tally ≡ false) }
        ensures accepted { OnOk result (passes M.accepts rule.now start.now ≡ true) }
        ensures limit { OnOk result (at ≤ last_point) }
        ensures told { IfErr result (λ f. f ≢ makes.Memory) }
    {
        let is_bad = tally && (self.tally.is_some() || !is_count(start));
        check_make(funs, self.len(), is_bad, at, start, rule)
    }

    /// Adds a ref that can be made, and answers its number. A refused call changes nothing.
    pub fn add(
        &mut self,
        alloc: Global,
        at: u64,
        start: Value,
        rule: Option<Rule>,
        tally: bool,
    ) -> Result<u32, AllocError>
        requires last { are_unchanged_since self.old.lasts at ≡ true }
        requires room { length self.old.values < most_references }
        requires tally { is_bad_tally self.old start tally ≡ false }
        requires accepted { passes M.accepts rule start ≡ true }
        requires limit { at ≤ last_point }
        ensures number { IfOk result (λ r. r ≡ length self.old.values) }
        ensures adds { OnOk result (self.new ≡ with_ref self.old at start rule tally) }
        ensures lasts { OnOk result ((r : ℕ) → changed_at self.new.lasts r ≡ made_at self.old at r) }
        ensures since { are_unchanged_since self.new.lasts at ≡ true }
        ensures err { OnErr result (self.new ≡ self.old) }
    {
        let r = self.len() as u32;
        let refs = self.refs.share(alloc)?.with_next(alloc, start, at)?;
        self.guards.add(alloc, rule)?;
        // From here on nothing can fail.
        self.refs = Refs::of(refs);
        if tally {
            self.tally = Some(r);
        }
        Ok(r)
    }
}
