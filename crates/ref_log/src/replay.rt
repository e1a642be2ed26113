//! The slow replay.
ghost use Rattle.std.specs.Prelude.{◌≡◌, ◌<◌, ◌^◌, ◌++◌, ◌∷◌, [], None, Ok, IfOk, IfErr, OnOk};
ghost use Rattle.ref_log.specs.Replay.{FaultComes, after_dones, after_one, done_of, missing, needed, needed_of_done, needed_of_dones, needed_of_step, point_after, replay, state_of, step};

use crate::entries::Entry;
use crate::faults::AuditFault;
use crate::operations::{Done, Op, protected_refs};
use crate::states::{Base, PlainState};
use ref_fun::{CallFault, Functions, Meaning, SharedVec, share_all};
use ref_pvec::PVec;
use ref_value::Value;
use std::alloc::{AllocError, Global};
use std::marker::Model;

/// The values after these entries, applied to the base one by one, or the first fault on the way. The table has to have
/// the functions of the operations up to there. The points fit in 64 bits. Linear in the number of references and
/// operations, but for the look-ups in the table.
pub fn replay_plain<M: Meaning, F: Functions<M>>(
    alloc: Global,
    funs: &F,
    base: &Base,
    entries: &PVec<Entry>,
) -> Result<PlainState, AuditFault>
    requires { point_after base.now entries.now < 2 ^ 64 }
    ensures ok { IfOk result (λ state. replay M.means base.now entries.now ≡ Ok state) }
    ensures served { OnOk result (missing (F.knows funs.now).funs (needed M.means base.now entries.now) ≡ None) }
    ensures err { IfErr result (λ fault.
        FaultComes (missing (F.knows funs.now).funs (needed M.means base.now entries.now))
        (replay M.means base.now entries.now) fault) }
{
    let mut values = Values::of(alloc, base)?;
    let mut point = base.point;
    for entry in entries {
        point += 1;
        values.apply(alloc, funs, point, entry)?;
    }
    Ok(values.into_state(alloc)?)
}

// The values so far.
#[derive(Drop)]
struct Values {
    refs: Vec<Value>,
    atoms: Vec<Value>,
}

impl Model for Values {
    ghost use Rattle.std.specs.Coded.{codes};
    ghost use Rattle.ref_value.specs.Code.{edn_code};
    ghost use Rattle.ref_log.specs.declared.states.PlainState.{PlainState};

    ghost Value = { PlainState };

    ghost coded = { Prim.hlevel (codes, edn_code) };

    ghost view = { λ a. record { refs = a.refs.items; atoms = a.atoms.items } };
}

impl Values {
    fn of(alloc: Global, base: &Base) -> Result<Values, AllocError>
        ensures { IfOk result (λ values. values ≡ state_of base.now) }
    {
        Ok(Values {
            refs: share_all(alloc, base.refs.as_slice())?,
            atoms: share_all(alloc, base.atoms.as_slice())?,
        })
    }

    fn into_state(self, alloc: Global) -> Result<PlainState, AllocError>
        ensures { IfOk result (λ state. state ≡ self) }
    {
        Ok(PlainState {
            refs: SharedVec::of(alloc, self.refs)?,
            atoms: SharedVec::of(alloc, self.atoms)?,
        })
    }

    // Applies an entry.
    fn apply<M: Meaning, F: Functions<M>>(
        &mut self,
        alloc: Global,
        funs: &F,
        point: u64,
        entry: &Entry,
    ) -> Result<(), AuditFault>
        ensures ok { OnOk result (step M.means point entry.now self.old ≡ Ok self.new) }
        ensures served { OnOk result (missing (F.knows funs.now).funs
            (needed_of_step M.means point entry.now self.old) ≡ None) }
        ensures err { IfErr result (λ fault.
            FaultComes (missing (F.knows funs.now).funs (needed_of_step M.means point entry.now self.old))
            (step M.means point entry.now self.old) fault) }
    {
        match entry {
            Entry::Trans(transaction) => {
                apply_dones(alloc, funs, point, &transaction.dones, &mut self.refs)
            }
            Entry::Atom(a, op, answer) => {
                apply_op(alloc, funs, false, point, *a, op, answer, &mut self.atoms)
            }
            Entry::MadeRef(value) => Ok(push_shared(&mut self.refs, value)?),
            Entry::MadeAtom(value) => Ok(push_shared(&mut self.atoms, value)?),
        }
    }
}

// Adds one more owner of a value.
fn push_shared(values: &mut Vec<Value>, value: &Value) -> Result<(), AllocError>
    ensures { OnOk result (values.new.items ≡ values.old.items ++ value.now ∷ []) }
{
    values.push(value.share()?)?;
    Ok(())
}

// Applies the operations of a transaction.
fn apply_dones<M: Meaning, F: Functions<M>>(
    alloc: Global,
    funs: &F,
    point: u64,
    dones: &SharedVec<Done>,
    values: &mut Vec<Value>,
) -> Result<(), AuditFault>
    ensures ok { OnOk result (after_dones M.means dones.now point dones.now (Ok values.old.items)
        ≡ Ok values.new.items) }
    ensures served { OnOk result (missing (F.knows funs.now).funs
        (needed_of_dones M.means dones.now point dones.now (Ok values.old.items)) ≡ None) }
    ensures err { IfErr result (λ fault.
        FaultComes (missing (F.knows funs.now).funs
        (needed_of_dones M.means dones.now point dones.now (Ok values.old.items)))
        (after_dones M.means dones.now point dones.now (Ok values.old.items)) fault) }
{
    let protected = protected_refs(alloc, dones.as_slice())?;
    for done in dones {
        let is_free = !protected.contains(&done.r);
        let (op, answer) = (&done.op, &done.answer);
        apply_op(alloc, funs, is_free, point, done.r, op, answer, values)?;
    }
    Ok(())
}

// Applies an operation to the value of a number. Its answer is compared but where the number is free: where it is that of a
// ref that the transaction doesn't protect.
fn apply_op<M: Meaning, F: Functions<M>>(
    alloc: Global,
    funs: &F,
    is_free: bool,
    point: u64,
    number: u32,
    op: &Op,
    answer: &Value,
    values: &mut Vec<Value>,
) -> Result<(), AuditFault>
    ensures ok { OnOk result (after_one M.means is_free point (done_of number op.now answer.now) values.old.items
        ≡ Ok values.new.items) }
    ensures served { OnOk result (missing (F.knows funs.now).funs
        (needed_of_done (done_of number op.now answer.now) (Ok values.old.items)) ≡ None) }
    ensures err { IfErr result (λ fault.
        FaultComes (missing (F.knows funs.now).funs
        (needed_of_done (done_of number op.now answer.now) (Ok values.old.items)))
        (after_one M.means is_free point (done_of number op.now answer.now) values.old.items) fault) }
{
    let at = number as usize;
    if at >= values.len() {
        return Err(AuditFault::NoSuch(point));
    }
    let value = match op.place(alloc, funs, &values[at]) {
        Ok(value) => value,
        Err(CallFault::NoSuchFun(code)) => return Err(AuditFault::NoSuchFun(code)),
        Err(CallFault::Refused(_)) => return Err(AuditFault::Refuses(point)),
        Err(CallFault::Memory) => return Err(AuditFault::Memory),
    };
    if is_free {
        values[at] = value;
        return Ok(());
    }
    if value != *answer {
        return Err(AuditFault::Answer(point));
    }
    // It goes on from the kept answer, so that what is made of it next shares its parts with the entries.
    values[at] = answer.share()?;
    Ok(())
}
