//! The values along a replay, entry by entry.
ghost use Rattle.std.specs.Prelude.{◌≡◌, ◌||◌, ◌++◌, ◌∷◌, [], Ok, IfOk, OnOk};
ghost use Rattle.std.specs.Ordering.{eq_by_cmp};
ghost use Rattle.ref_value.specs.Order.{edn_cmp};
ghost use Rattle.ref_log.specs.Replay.{after_dones, after_one, done_of, state_of, step};

use ref_fun::{Functions, Meaning, share_all};
use ref_log::{Base, Done, Entry, Op, protected_refs};
use ref_value::Value;
use std::alloc::{AllocError, Global};
use std::marker::Model;

/// The values of refs and atoms so far. Contracts see what a replay ends with.
#[derive(Drop)]
pub(crate) struct Values {
    refs: Vec<Value>,
    atoms: Vec<Value>,
}

impl Model for Values {
    ghost use Rattle.std.specs.Coded.{codes};
    ghost use Rattle.ref_value.specs.Code.{edn_code};
    ghost use Rattle.ref_log.specs.declared.states.PlainState.{PlainState};

    ghost Value = { PlainState };

    ghost coded = { Prim.hlevel (codes, edn_code) };

    ghost view = { λ a. record { refs = a.refs.items; atoms = a.atoms.items } };
}

impl Values {
    /// The values of a base.
    pub(crate) fn of(alloc: Global, base: &Base) -> Result<Values, AllocError>
        ensures { IfOk result (λ values. values ≡ state_of base.now) }
    {
        Ok(Values {
            refs: share_all(alloc, base.refs.as_slice())?,
            atoms: share_all(alloc, base.atoms.as_slice())?,
        })
    }

    /// The values of the refs, by number.
    pub(crate) fn refs(&self) -> &[Value]
        ensures { result.now ≡ self.now.refs }
    {
        self.refs.as_slice()
    }

    /// The values of the atoms, by number.
    pub(crate) fn atoms(&self) -> &[Value]
        ensures { result.now ≡ self.now.atoms }
    {
        self.atoms.as_slice()
    }

    /// Applies an entry, of a log whose replay comes to its end. In another one a fault is reported as if memory were refused.
    pub(crate) fn apply<M: Meaning, F: Functions<M>>(
        &mut self,
        alloc: Global,
        funs: &F,
        point: u64,
        entry: &Entry,
    ) -> Result<(), AllocError>
        ensures { OnOk result (step M.means point entry.now self.old ≡ Ok self.new) }
    {
        match entry {
            Entry::Trans(transaction) => {
                let dones = transaction.dones.as_slice();
                apply_dones(alloc, funs, point, dones, &mut self.refs)
            }
            Entry::Atom(a, op, answer) => {
                apply_op(alloc, funs, false, point, *a, op, answer, &mut self.atoms)
            }
            Entry::MadeRef(value) => push_shared(&mut self.refs, value),
            Entry::MadeAtom(value) => push_shared(&mut self.atoms, value),
        }
    }
}

fn push_shared(values: &mut Vec<Value>, value: &Value) -> Result<(), AllocError>
    ensures { OnOk result (values.new.items ≡ values.old.items ++ value.now ∷ []) }
{
    values.push(value.share()?)?;
    Ok(())
}

// Applies the operations of a transaction.
fn apply_dones<M: Meaning, F: Functions<M>>(
    alloc: Global,
    funs: &F,
    point: u64,
    dones: &[Done],
    values: &mut Vec<Value>,
) -> Result<(), AllocError>
    ensures { OnOk result (after_dones M.means dones.now point dones.now (Ok values.old.items) ≡ Ok values.new.items) }
{
    let protected = protected_refs(alloc, dones)?;
    for done in dones {
        let is_free = !protected.contains(&done.r);
        let (op, answer) = (&done.op, &done.answer);
        apply_op(alloc, funs, is_free, point, done.r, op, answer, values)?;
    }
    Ok(())
}

// Applies an operation to the value of a number. Its answer is compared unless the number is free.
fn apply_op<M: Meaning, F: Functions<M>>(
    alloc: Global,
    funs: &F,
    is_free: bool,
    point: u64,
    number: u32,
    op: &Op,
    answer: &Value,
    values: &mut Vec<Value>,
) -> Result<(), AllocError>
    ensures { OnOk result (after_one M.means is_free point (done_of number op.now answer.now) values.old.items
        ≡ Ok values.new.items) }
{
    // The point is there for the clause.
    let _point = point;
    let at = number as usize;
    if at >= values.len() {
        return Err(AllocError);
    }
    let Ok(value) = op.place(alloc, funs, &values[at]) else {
        return Err(AllocError);
    };
    if !is_lawful(is_free, &value, answer) {
        return Err(AllocError);
    }
    values[at] = value;
    Ok(())
}

// Whether an answer is kept, or needn't be.
fn is_lawful(is_free: bool, value: &Value, answer: &Value) -> bool
    ensures { result ≡ (is_free || eq_by_cmp edn_cmp value.now answer.now) }
{
    is_free || *value == *answer
}
