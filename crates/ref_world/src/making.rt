//! Making references.
ghost use Rattle.ref_log.specs.Told.{TellsThenMemory};
ghost use Rattle.std.specs.Prelude.{◌≡◌, ◌+◌, false, if◌then◌else◌, Some, IfOk, OnErr, OnOk, length};
ghost use Rattle.ref_atoms.specs.Atoms as atoms;
ghost use Rattle.ref_log.specs.Make as made;
ghost use Rattle.ref_log.specs.declared.entries.Entry.TheVariants as entries;
ghost use Rattle.ref_log.specs.declared.faults.MakeFault.TheVariants as makes;
ghost use Rattle.ref_refs.specs.Make as refs;
ghost use Rattle.ref_world.specs.World.{point_of, with_entry, with_made_ref, with_tally};

use crate::worlds::World;
use ref_fun::{Functions, Meaning, Rule};
use ref_log::counting::count;
use ref_log::{Base, Entry, MakeFault};
use ref_refs::RefStore;
use ref_value::Value;
use std::alloc::{AllocError, Global};
use std::sync::Arc;

impl<M: Meaning> World<M> {
    /// Makes a ref with this value and this rule, if any, the tally or not, and answers its number. It adds one entry, and the
    /// ref's last change is at its point. A transaction that was begun before knows no such ref. A refused call changes
    /// nothing.
    pub fn make_ref<F: Functions<M>>(
        &mut self,
        alloc: Global,
        funs: &F,
        value: Value,
        rule: Option<Rule>,
        tally: bool,
    ) -> Result<u32, MakeFault>
        ensures refused { TellsThenMemory makes.Memory
            (refs.make_refusal M.accepts (F.knows funs.now).preds self.old.refs
            (point_of self.old + 1) value rule tally) result }
        ensures number { IfOk result (λ r. r ≡ length self.old.refs.values) }
        ensures adds { OnOk result (self.new ≡ with_made_ref self.old value tally
            (refs.with_ref self.old.refs (point_of self.old + 1) value rule tally)) }
        ensures err { OnErr result (self.new ≡ self.old) }
    {
        let at = self.point() + 1;
        self.refs.check_make(funs, at, &value, &rule, tally)?;
        let entry = Entry::MadeRef(value.share()?);
        let log = self.log.pushed(alloc, entry)?;
        let next = next_tally(&self.refs, tally);
        let base = with_tally(alloc, &self.base, next)?;
        let start = count(&value);
        let r = self.refs.add(alloc, at, value, rule, tally)?;
        self.log = log;
        self.base = base;
        self.books.start(tally, start);
        Ok(r)
    }

    /// Makes an atom with this value and this rule, if any, and answers its number. It adds one entry. A refused call changes
    /// nothing.
    pub fn make_atom<F: Functions<M>>(
        &mut self,
        alloc: Global,
        funs: &F,
        value: Value,
        rule: Option<Rule>,
    ) -> Result<u32, MakeFault>
        ensures refused { TellsThenMemory makes.Memory
            (made.make_refusal M.accepts (F.knows funs.now).preds (length self.old.atoms.values) false
            (point_of self.old + 1) value rule) result }
        ensures number { IfOk result (λ a. a ≡ length self.old.atoms.values) }
        ensures entry { OnOk result (self.new
            ≡ with_entry self.old (entries.MadeAtom value) self.old.refs (atoms.with_atom self.old.atoms value rule)) }
        ensures err { OnErr result (self.new ≡ self.old) }
    {
        let at = self.point() + 1;
        self.atoms.check_make(funs, at, &value, &rule)?;
        let entry = Entry::MadeAtom(value.share()?);
        let log = self.log.pushed(alloc, entry)?;
        let a = self.atoms.add(alloc, value, rule)?;
        self.log = log;
        Ok(a)
    }
}

// The number of the tally when one ref more is made, as the tally or not.
fn next_tally<M: Meaning>(refs: &RefStore<M>, tally: bool) -> Option<u32>
    ensures { result ≡ (if tally then Some (length refs.now.values) else refs.now.tally) }
{
    if tally {
        Some(refs.len() as u32)
    } else {
        refs.tally()
    }
}

// The base where it names this tally: itself, where it does so already, and else one with the same values and last changes.
fn with_tally(alloc: Global, base: &Arc<Base>, tally: Option<u32>) -> Result<Arc<Base>, AllocError>
    ensures { IfOk result (λ named. named.value ≡ with_tally tally base.now.value) }
{
    if base.tally == tally {
        return Arc::try_clone(base);
    }
    let named = Base {
        point: base.point,
        refs: base.refs.share()?,
        last: base.last.share()?,
        atoms: base.atoms.share()?,
        tally,
        commits: base.commits,
        added: base.added,
        taken: base.taken,
    };
    let named = Arc::new(alloc, named)?;
    Ok(named)
}
