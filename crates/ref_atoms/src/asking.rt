//! What is asked before an atom is changed.
ghost use Rattle.ref_log.specs.Told.{Tells, TellsOrMemory, TellsThenMemory};
ghost use Rattle.std.specs.Prelude.{◌≡◌, ◌≢◌, ◌<◌, ◌≤◌, List, true, None, Some, Ok, IfOk, IfErr, IfSome, OnOk, is_some, length, slice_get, slice_set};
ghost use Rattle.ref_value.specs.Edn.{Edn};
ghost use Rattle.ref_fun.specs.Rule.{unknown};
ghost use Rattle.ref_log.specs.Guards.{AreAccepted, keys_at, rule_at};
ghost use Rattle.ref_log.specs.Replay.{codes_of, is_set, missing, place, sets_atom, step};
ghost use Rattle.ref_log.specs.Watches.{notices_of};
ghost use Rattle.ref_log.specs.declared.entries.Entry.TheVariants as entries;
ghost use Rattle.ref_log.specs.declared.notices.Who.TheVariants as who;
ghost use Rattle.ref_log.specs.declared.operations.Op.TheVariants.{Set};
ghost use Rattle.ref_atoms.specs.Change.{IsChangeOf, change_refusal, compare_refusal, compare_refusal_if_here, early_refusal, given_refusal, is_same, is_same_at, lacking, late_refusal};
ghost use Rattle.ref_atoms.specs.declared.faults.AtomFault.TheVariants as faults;
ghost use Rattle.ref_log.specs.Limits.{last_point};

use crate::atoms::AtomStore;
use crate::changes::{Change, Swapped};
use crate::faults::AtomFault;
use ref_fun::{CallFault, Functions, Meaning};
use ref_log::{Entry, LAST_POINT, Op, Who};
use ref_value::Value;
use std::alloc::Global;

impl<M: Meaning> AtomStore<M> {
    /// All of `swap` (by `Op::Alter`) or `reset` (by `Op::Set`) that takes memory or may be refused. It changes nothing.
    pub fn prepare<F: Functions<M>>(
        &self,
        alloc: Global,
        funs: &F,
        at: u64,
        a: u32,
        op: Op,
    ) -> Result<Change, AtomFault>
        // An atom's entry is `swap!` or `reset!`, and no other operation.
        requires kind { is_set op ≡ true }
        ensures refused { TellsOrMemory faults.Memory (early_refusal M.accepts (F.knows funs.now) self.now at a op)
            (change_refusal M.means M.accepts (F.knows funs.now) self.now at a op) result }
        ensures change { IfOk result (λ change. IsChangeOf M.means self.now a op change) }
        ensures old { IfOk result (λ change. slice_get self.now.values a ≡ Some change.swapped.old) }
        ensures step { IfOk result (λ change. (refs : List Edn)
            → step M.means at change.entry (record { refs = refs; atoms = self.now.values })
            ≡ Ok (record { refs = refs; atoms = slice_set self.now.values a change.value })) }
        ensures sets { IfOk result (λ change. sets_atom change.entry ≡ true) }
        ensures here { OnOk result (a < length self.now.values) }
        ensures limit { OnOk result (at ≤ last_point) }
        ensures accepted { IfOk result (λ change.
            AreAccepted M.accepts self.now.guards (slice_set self.now.values a change.value)) }
    {
        let Some(before) = self.value_of(a) else {
            return Err(AtomFault::NoSuchAtom);
        };
        self.check_served(funs, a, &op)?;
        let value = self.next_value(alloc, funs, at, a, before, &op)?;
        let change = self.change_of(alloc, a, before, op, value)?;
        Ok(change)
    }

    /// All of `compare_and_set` that takes memory or may be refused; none where the atom has another value than the old one.
    /// It changes nothing.
    pub fn prepare_compare<F: Functions<M>>(
        &self,
        alloc: Global,
        funs: &F,
        at: u64,
        a: u32,
        old: &Value,
        new: Value,
    ) -> Result<Option<Change>, AtomFault>
        ensures refused { TellsThenMemory faults.Memory
            (compare_refusal M.accepts (F.knows funs.now).preds self.now at a old.now new) result }
        ensures same { IfOk result (λ change. (is_some change ≡ is_same_at self.now a old.now)) }
        ensures change { IfOk result (λ change. IfSome change (IsChangeOf M.means self.now a (Set new))) }
        ensures step { IfOk result (λ change.
            IfSome change (λ c. (refs : List Edn)
            → step M.means at c.entry (record { refs = refs; atoms = self.now.values })
            ≡ Ok (record { refs = refs; atoms = slice_set self.now.values a c.value }))) }
        ensures sets { IfOk result (λ change. IfSome change (λ c. sets_atom c.entry ≡ true)) }
        ensures here { OnOk result (a < length self.now.values) }
        ensures limit { IfOk result (λ change. IfSome change (λ c. at ≤ last_point)) }
        ensures accepted { IfOk result (λ change.
            IfSome change (λ c. AreAccepted M.accepts self.now.guards (slice_set self.now.values a c.value))) }
        ensures from { IfOk result (λ change. IfSome change (λ c. c.swapped.old ≡ old.now)) }
        ensures grows { IfErr result (λ f. f ≡ faults.Memory → is_same_at self.now a old.now ≡ true) }
    {
        let Some(before) = self.value_of(a) else {
            return Err(AtomFault::NoSuchAtom);
        };
        if !self.is_to_be_set(funs, at, a, before, old, &new)? {
            return Ok(None);
        }
        let value = new.share()?;
        let change = self.change_of(alloc, a, before, Op::Set(new), value)?;
        Ok(Some(change))
    }

    // The code of the function or of the rule that the table lacks, if it lacks one.
    fn check_served<F: Functions<M>>(&self, funs: &F, a: u32, op: &Op) -> Result<(), AtomFault>
        ensures refused { Tells (lacking (F.knows funs.now) (rule_at self.now.guards a) op.now) result }
        ensures fun { OnOk result (missing (F.knows funs.now).funs (codes_of op.now) ≡ None) }
        ensures rule { OnOk result (unknown (F.knows funs.now).preds (rule_at self.now.guards a) ≡ None) }
        ensures told { IfErr result (λ f. f ≢ faults.Memory) }
    {
        match op {
            Op::Alter(code, _) | Op::Commute(code, _) => {
                if !funs.has_fun(*code) {
                    return Err(AtomFault::NoSuchFun(*code));
                }
            }
            Op::Set(_) | Op::Ensure => {}
        }
        match self.guards.check_known(funs, a) {
            Ok(()) => Ok(()),
            Err(code) => Err(AtomFault::NoSuchFun(code)),
        }
    }

    // The value that an operation makes of an atom's, where the rule accepts it and a point is left. A value that is given
    // is judged before it gets one more owner.
    fn next_value<F: Functions<M>>(
        &self,
        alloc: Global,
        funs: &F,
        at: u64,
        a: u32,
        before: &Value,
        op: &Op,
    ) -> Result<Value, AtomFault>
        requires fun { missing (F.knows funs.now).funs (codes_of op.now) ≡ None }
        requires rule { unknown (F.knows funs.now).preds (rule_at self.now.guards a) ≡ None }
        ensures refused { TellsOrMemory faults.Memory (given_refusal M.accepts (rule_at self.now.guards a) at op.now)
            (late_refusal M.accepts (rule_at self.now.guards a) at (place M.means op.now before.now)) result }
        ensures value { IfOk result (λ v. place M.means op.now before.now ≡ Ok v) }
        ensures accepted { IfOk result (λ v. AreAccepted M.accepts self.now.guards (slice_set self.now.values a v)) }
        ensures limit { OnOk result (at ≤ last_point) }
        ensures given { OnOk result (given_refusal M.accepts (rule_at self.now.guards a) at op.now ≡ None) }
    {
        if let Op::Set(value) = op {
            self.check_value(funs, at, a, value)?;
            return Ok(value.share()?);
        }
        let value = match op.place(alloc, funs, before) {
            Ok(value) => value,
            Err(CallFault::Refused(cause)) => return Err(AtomFault::Refused(cause)),
            Err(CallFault::NoSuchFun(code)) => return Err(AtomFault::NoSuchFun(code)),
            Err(CallFault::Memory) => return Err(AtomFault::Memory),
        };
        self.check_value(funs, at, a, &value)?;
        Ok(value)
    }

    // Checks whether an atom may get this value: whether its rule accepts it, and a point is left.
    fn check_value<F: Functions<M>>(
        &self,
        funs: &F,
        at: u64,
        a: u32,
        value: &Value,
    ) -> Result<(), AtomFault>
        requires { unknown (F.knows funs.now).preds (rule_at self.now.guards a) ≡ None }
        ensures refused { Tells (late_refusal M.accepts (rule_at self.now.guards a) at (Ok value.now)) result }
        ensures accepted { OnOk result (AreAccepted M.accepts self.now.guards (slice_set self.now.values a value.now)) }
        ensures limit { OnOk result (at ≤ last_point) }
        ensures told { IfErr result (λ f. f ≢ faults.Memory) }
    {
        if !self.guards.accepts(funs, a, value) {
            return Err(AtomFault::Invalid);
        }
        if at > LAST_POINT {
            return Err(AtomFault::PointLimit);
        }
        Ok(())
    }

    // Whether an atom has the old value, where the rule accepts the new one and a point is left if it has.
    #[tactic(auto, using(crate::proofs::Changed::same_value))]
    fn is_to_be_set<F: Functions<M>>(
        &self,
        funs: &F,
        at: u64,
        a: u32,
        before: &Value,
        old: &Value,
        new: &Value,
    ) -> Result<bool, AtomFault>
        ensures refused { Tells (compare_refusal_if_here M.accepts (F.knows funs.now).preds
            (rule_at self.now.guards a) at old.now new.now (Some before.now)) result }
        ensures same { IfOk result (λ same. same ≡ is_same old.now before.now) }
        ensures from { IfOk result (λ same. same ≡ true → before.now ≡ old.now) }
        ensures accepted { OnOk result (AreAccepted M.accepts self.now.guards (slice_set self.now.values a new.now)) }
        ensures limit { IfOk result (λ same. same ≡ true → at ≤ last_point) }
        ensures told { IfErr result (λ f. f ≢ faults.Memory) }
    {
        if let Err(code) = self.guards.check_known(funs, a) {
            return Err(AtomFault::NoSuchFun(code));
        }
        if !self.guards.accepts(funs, a, new) {
            return Err(AtomFault::Invalid);
        }
        if before != old {
            return Ok(false);
        }
        if at > LAST_POINT {
            return Err(AtomFault::PointLimit);
        }
        Ok(true)
    }

    // The change of an atom from one value to another by an operation.
    fn change_of(
        &self,
        alloc: Global,
        a: u32,
        before: &Value,
        op: Op,
        value: Value,
    ) -> Result<Change, AtomFault>
        ensures value { IfOk result (λ c. (c.a ≡ a) × (c.value ≡ value)) }
        ensures swapped { IfOk result (λ c. (c.swapped.old ≡ before.now) × (c.swapped.new ≡ value)) }
        ensures entry { IfOk result (λ c. c.entry ≡ entries.Atom a op value) }
        ensures notices { IfOk result (λ c. c.swapped.notices.items
            ≡ notices_of (who.Atom a) (keys_at self.now.guards a) before.now value) }
        ensures err { IfErr result (λ f. f ≡ faults.Memory) }
    {
        let mut notices = Vec::new(alloc);
        self.guards
            .tell(a, Who::Atom(a), before, &value, &mut notices)?;
        Ok(Change {
            a,
            entry: Entry::Atom(a, op, value.share()?),
            swapped: Swapped {
                old: before.share()?,
                new: value.share()?,
                notices,
            },
            value,
        })
    }
}
