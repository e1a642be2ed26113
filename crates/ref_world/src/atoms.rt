//! The calls that change one atom.
ghost use Rattle.ref_log.specs.Told.{TellsOrMemory, TellsThenMemory};
ghost use Rattle.std.specs.Prelude.{◌≡◌, ◌+◌, true, false, [], Some, Ok, IfOk, IfErr, OnErr, OnOk, slice_get};
ghost use Rattle.ref_log.specs.Guards.{keys_at};
ghost use Rattle.ref_atoms.specs.Atoms.{with_value};
ghost use Rattle.ref_atoms.specs.Change.{change_refusal, compare_refusal, early_refusal, is_same_at};
ghost use Rattle.ref_atoms.specs.declared.faults.AtomFault.TheVariants as faults;
ghost use Rattle.ref_log.specs.Replay.{place, step};
ghost use Rattle.ref_log.specs.Watches.{notices_of};
ghost use Rattle.ref_log.specs.declared.entries.Entry.TheVariants as entries;
ghost use Rattle.ref_log.specs.declared.notices.Who.TheVariants as who;
ghost use Rattle.ref_log.specs.declared.operations.Op.TheVariants.{Alter, Set};
ghost use Rattle.ref_world.specs.World.{CanEnter, point_of, values_now, with_entry};

use crate::worlds::World;
use ref_atoms::{AtomFault, Cas, Change, Swapped};
use ref_fun::{Args, Functions, Meaning};
use ref_log::Op;
use ref_value::Value;
use std::alloc::{AllocError, Global};

impl<M: Meaning> World<M> {
    /// Sets an atom to the function of its value and the arguments, as Clojure's `swap!`, and adds one entry. The atom's rule
    /// is asked of the new value. A refused call changes nothing.
    pub fn swap<F: Functions<M>>(
        &mut self,
        alloc: Global,
        funs: &F,
        a: u32,
        code: u32,
        args: Args,
    ) -> Result<Swapped, AtomFault>
        ensures refused { TellsOrMemory faults.Memory
            (early_refusal M.accepts (F.knows funs.now) self.old.atoms (point_of self.old + 1) a (Alter code args))
            (change_refusal M.means M.accepts (F.knows funs.now) self.old.atoms (point_of self.old + 1) a
            (Alter code args)) result }
        ensures old { IfOk result (λ s. slice_get self.old.atoms.values a ≡ Some s.old) }
        ensures new { IfOk result (λ s. place M.means (Alter code args) s.old ≡ Ok s.new) }
        ensures entry { IfOk result (λ s. self.new
            ≡ with_entry self.old (entries.Atom a (Alter code args) s.new) self.old.refs
            (with_value self.old.atoms a s.new)) }
        ensures values { IfOk result (λ s. step M.means (point_of self.old + 1)
            (entries.Atom a (Alter code args) s.new) (values_now self.old.refs self.old.atoms)
            ≡ Ok (values_now self.new.refs self.new.atoms)) }
        ensures notices { IfOk result (λ s. s.notices.items
            ≡ notices_of (who.Atom a) (keys_at self.old.atoms.guards a) s.old s.new) }
        ensures err { OnErr result (self.new ≡ self.old) }
    {
        let at = self.point() + 1;
        let change = self
            .atoms
            .prepare(alloc, funs, at, a, Op::Alter(code, args))?;
        Ok(self.enter(alloc, a, change)?)
    }

    /// Sets an atom to a value regardless of the one that it has, as Clojure's `reset!`, and adds one entry. The atom's rule
    /// is asked of the new value. A refused call changes nothing.
    pub fn reset<F: Functions<M>>(
        &mut self,
        alloc: Global,
        funs: &F,
        a: u32,
        value: Value,
    ) -> Result<Swapped, AtomFault>
        ensures refused { TellsThenMemory faults.Memory
            (change_refusal M.means M.accepts (F.knows funs.now) self.old.atoms (point_of self.old + 1) a
            (Set value)) result }
        ensures old { IfOk result (λ s. slice_get self.old.atoms.values a ≡ Some s.old) }
        ensures new { IfOk result (λ s. s.new ≡ value) }
        ensures entry { OnOk result (self.new
            ≡ with_entry self.old (entries.Atom a (Set value) value) self.old.refs
            (with_value self.old.atoms a value)) }
        ensures values { OnOk result (step M.means (point_of self.old + 1) (entries.Atom a (Set value) value)
            (values_now self.old.refs self.old.atoms) ≡ Ok (values_now self.new.refs self.new.atoms)) }
        ensures notices { IfOk result (λ s. s.notices.items
            ≡ notices_of (who.Atom a) (keys_at self.old.atoms.guards a) s.old value) }
        ensures err { OnErr result (self.new ≡ self.old) }
    {
        let at = self.point() + 1;
        let change = self.atoms.prepare(alloc, funs, at, a, Op::Set(value))?;
        Ok(self.enter(alloc, a, change)?)
    }

    /// Sets an atom to a new value where it has the old one that is given, as Clojure's `compare-and-set!`, and answers
    /// whether it did. The atom's rule is asked of the new value before the comparison. Where it did one entry is added, also
    /// where the values are equal; where it answers false, and where it is refused, nothing is
    /// changed.
    pub fn compare_and_set<F: Functions<M>>(
        &mut self,
        alloc: Global,
        funs: &F,
        a: u32,
        old: &Value,
        new: Value,
    ) -> Result<Cas, AtomFault>
        ensures refused { TellsThenMemory faults.Memory
            (compare_refusal M.accepts (F.knows funs.now).preds self.old.atoms
            (point_of self.old + 1) a old.now new) result }
        ensures done { IfOk result (λ c. c.done ≡ is_same_at self.old.atoms a old.now) }
        ensures entry { IfOk result (λ c. c.done ≡ true
            → self.new ≡ with_entry self.old (entries.Atom a (Set new) new) self.old.refs
            (with_value self.old.atoms a new)) }
        ensures values { IfOk result (λ c. c.done ≡ true
            → step M.means (point_of self.old + 1) (entries.Atom a (Set new) new)
            (values_now self.old.refs self.old.atoms) ≡ Ok (values_now self.new.refs self.new.atoms)) }
        ensures notices { IfOk result (λ c. c.done ≡ true
            → c.notices.items ≡ notices_of (who.Atom a) (keys_at self.old.atoms.guards a) old.now new) }
        ensures unset { IfOk result (λ c. c.done ≡ false → self.new ≡ self.old) }
        ensures untold { IfOk result (λ c. c.done ≡ false → c.notices.items ≡ []) }
        ensures grows { IfErr result (λ f. f ≡ faults.Memory → is_same_at self.old.atoms a old.now ≡ true) }
        ensures err { OnErr result (self.new ≡ self.old) }
    {
        let at = self.point() + 1;
        let Some(change) = self.atoms.prepare_compare(alloc, funs, at, a, old, new)? else {
            return Ok(Cas {
                done: false,
                notices: Vec::new(alloc),
            });
        };
        let swapped = self.enter(alloc, a, change)?;
        Ok(Cas {
            done: true,
            notices: swapped.notices,
        })
    }

    // Puts a change of an atom in its place, with its entry, and answers what it answers.
    pub(crate) fn enter(
        &mut self,
        alloc: Global,
        a: u32,
        change: Change,
    ) -> Result<Swapped, AllocError>
        requires { CanEnter M.means M.accepts self.old a change }
        ensures entry { OnOk result (self.new
            ≡ with_entry self.old change.entry self.old.refs (with_value self.old.atoms a change.value)) }
        ensures values { OnOk result (step M.means (point_of self.old + 1) change.entry
            (values_now self.old.refs self.old.atoms) ≡ Ok (values_now self.new.refs self.new.atoms)) }
        ensures swapped { IfOk result (λ s. s ≡ change.swapped) }
        ensures err { OnErr result (self.new ≡ self.old) }
    {
        self.log.push(alloc, change.entry)?;
        self.atoms.install(a, change.value);
        Ok(change.swapped)
    }
}
