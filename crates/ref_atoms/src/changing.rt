//! Changing an atom.
ghost use Rattle.ref_log.specs.Told.{TellsOrMemory, TellsThenMemory};
ghost use Rattle.std.specs.Prelude.{◌≡◌, ◌<◌, List, true, false, [], Some, Ok, IfOk, IfErr, OnErr, length, slice_get, slice_set};
ghost use Rattle.ref_value.specs.Edn.{Edn};
ghost use Rattle.ref_log.specs.Guards.{AreAccepted, keys_at};
ghost use Rattle.ref_log.specs.Replay.{place, step};
ghost use Rattle.ref_log.specs.Watches.{notices_of};
ghost use Rattle.ref_log.specs.declared.entries.Entry.TheVariants as entries;
ghost use Rattle.ref_log.specs.declared.notices.Who.TheVariants as who;
ghost use Rattle.ref_log.specs.declared.operations.Op.TheVariants.{Set, Alter};
ghost use Rattle.ref_atoms.specs.Atoms.{with_value};
ghost use Rattle.ref_atoms.specs.Change.{change_refusal, compare_refusal, early_refusal, is_same_at};
ghost use Rattle.ref_atoms.specs.declared.faults.AtomFault.TheVariants as faults;

use crate::atoms::AtomStore;
use crate::changes::{Cas, Swapped};
use crate::faults::AtomFault;
use ref_fun::{Args, Functions, Meaning};
use ref_log::Op;
use ref_value::Value;
use std::alloc::Global;

impl<M: Meaning> AtomStore<M> {
    /// Sets an atom to the function of its value and the arguments, as Clojure's `swap!`, at a new point. The atom's rule is
    /// asked of the new value. A refused call changes nothing.
    pub fn swap<F: Functions<M>>(
        &mut self,
        alloc: Global,
        funs: &F,
        at: u64,
        a: u32,
        code: u32,
        args: Args,
    ) -> Result<Swapped, AtomFault>
        ensures refused { TellsOrMemory faults.Memory
            (early_refusal M.accepts (F.knows funs.now) self.old at a (Alter code args))
            (change_refusal M.means M.accepts (F.knows funs.now) self.old at a (Alter code args)) result }
        ensures old { IfOk result (λ s. slice_get self.old.values a ≡ Some s.old) }
        ensures new { IfOk result (λ s. place M.means (Alter code args) s.old ≡ Ok s.new) }
        ensures sets { IfOk result (λ s. self.new ≡ with_value self.old a s.new) }
        ensures step { IfOk result (λ s. (refs : List Edn)
            → step M.means at (entries.Atom a (Alter code args) s.new)
            (record { refs = refs; atoms = self.old.values }) ≡ Ok (record { refs = refs; atoms = self.new.values })) }
        ensures notices { IfOk result (λ s. s.notices.items
            ≡ notices_of (who.Atom a) (keys_at self.old.guards a) s.old s.new) }
        ensures err { OnErr result (self.new ≡ self.old) }
    {
        let change = self.prepare(alloc, funs, at, a, Op::Alter(code, args))?;
        self.install(a, change.value);
        Ok(change.swapped)
    }

    /// Sets an atom to a value regardless of the one that it has, as Clojure's `reset!`, at a new point. The atom's rule is
    /// asked of the new value. A refused call changes nothing.
    pub fn reset<F: Functions<M>>(
        &mut self,
        alloc: Global,
        funs: &F,
        at: u64,
        a: u32,
        value: Value,
    ) -> Result<Swapped, AtomFault>
        ensures refused { TellsThenMemory faults.Memory
            (change_refusal M.means M.accepts (F.knows funs.now) self.old at a (Set value)) result }
        ensures old { IfOk result (λ s. slice_get self.old.values a ≡ Some s.old) }
        ensures new { IfOk result (λ s. s.new ≡ value) }
        ensures sets { IfOk result (λ s. self.new ≡ with_value self.old a s.new) }
        ensures step { IfOk result (λ s. (refs : List Edn)
            → step M.means at (entries.Atom a (Set value) s.new) (record { refs = refs; atoms = self.old.values })
            ≡ Ok (record { refs = refs; atoms = self.new.values })) }
        ensures notices { IfOk result (λ s. s.notices.items
            ≡ notices_of (who.Atom a) (keys_at self.old.guards a) s.old s.new) }
        ensures err { OnErr result (self.new ≡ self.old) }
    {
        let change = self.prepare(alloc, funs, at, a, Op::Set(value))?;
        self.install(a, change.value);
        Ok(change.swapped)
    }

    /// Sets an atom to a new value where it has the old one that is given, as Clojure's `compare-and-set!`, at a new point,
    /// and answers whether it did. Values are compared as EDN values. The atom's rule is asked of the new value before the
    /// comparison. Where it answers false, and where it is refused, nothing is changed.
    pub fn compare_and_set<F: Functions<M>>(
        &mut self,
        alloc: Global,
        funs: &F,
        at: u64,
        a: u32,
        old: &Value,
        new: Value,
    ) -> Result<Cas, AtomFault>
        ensures refused { TellsThenMemory faults.Memory
            (compare_refusal M.accepts (F.knows funs.now).preds self.old at a old.now new) result }
        ensures done { IfOk result (λ c. c.done ≡ is_same_at self.old a old.now) }
        ensures sets { IfOk result (λ c. c.done ≡ true → self.new ≡ with_value self.old a new) }
        ensures step { IfOk result (λ c. c.done ≡ true → (refs : List Edn)
            → step M.means at (entries.Atom a (Set new) new) (record { refs = refs; atoms = self.old.values })
            ≡ Ok (record { refs = refs; atoms = self.new.values })) }
        ensures notices { IfOk result (λ c. c.done ≡ true
            → c.notices.items ≡ notices_of (who.Atom a) (keys_at self.old.guards a) old.now new) }
        ensures unset { IfOk result (λ c. c.done ≡ false → self.new ≡ self.old) }
        ensures untold { IfOk result (λ c. c.done ≡ false → c.notices.items ≡ []) }
        ensures grows { IfErr result (λ f. f ≡ faults.Memory → is_same_at self.old a old.now ≡ true) }
        ensures err { OnErr result (self.new ≡ self.old) }
    {
        match self.prepare_compare(alloc, funs, at, a, old, new)? {
            Some(change) => {
                let swapped = change.swapped;
                self.install(a, change.value);
                Ok(Cas {
                    done: true,
                    notices: swapped.notices,
                })
            }
            None => Ok(Cas {
                done: false,
                notices: Vec::new(alloc),
            }),
        }
    }

    /// Stores the value of a prepared change in the atom. It can't fail.
    pub fn install(&mut self, a: u32, value: Value)
        requires here { a < length self.old.values }
        requires accepted { AreAccepted M.accepts self.old.guards (slice_set self.old.values a value) }
        ensures { self.new ≡ with_value self.old a value }
    {
        self.values[a as usize] = value;
    }
}
