//! What the operations of a transaction make at its commit.
ghost use Rattle.std.specs.Option.{option_map};
ghost use Rattle.std.specs.Prelude.{◌≡◌, ◌≢◌, ◌<◌, ◌==◌, ℕ, List, ◌∷◌, true, false, Option, None, Some, Ok, IfOk, IfErr, OnOk, length, slice_get};
ghost use Rattle.ref_log.specs.Replay.{after_dones, after_one, is_commute, is_protected, missing, place};
ghost use Rattle.ref_tx.specs.Inner.{inner_value};
ghost use Rattle.ref_value.specs.Edn.{Edn};
ghost use Rattle.ref_log.specs.declared.operations.Done.{Done};
ghost use Rattle.ref_refs.specs.declared.faults.CommitFault.{CommitFault as Fault};
ghost use Rattle.ref_refs.specs.Commit.{alien_ref, alien_value, changed_by, changed_by_one, commuted_code, lacking, refused, refused_at};
ghost use Rattle.ref_refs.specs.Seen.{changed_at};
ghost use Rattle.ref_refs.specs.declared.faults.CommitFault.TheVariants.{Memory};

use crate::current::Refs;
use crate::drafts::Draft;
use crate::faults::CommitFault;
use ref_fun::{CallFault, Functions, Meaning};
use ref_log::Done;
use ref_tx::{Beginning, Tx};
use ref_value::Value;
use std::alloc::Global;

// The refs after the operations of a transaction, which come at a point. Each is made on the latest value of its ref, where
// nobody else has changed a ref that the transaction protects.
pub(crate) fn place_all<'a, M: Meaning, F: Functions<M>, S: Beginning>(
    alloc: Global,
    funs: &F,
    at: u64,
    refs: &'a Refs,
    tx: &Tx<M, S>,
) -> Result<Draft<'a>, CommitFault>
    requires all { length refs.now.lasts ≡ length refs.now.values }
    requires here { alien_ref refs.now.values tx.now.dones ≡ None }
    requires served { lacking (F.knows funs.now).funs tx.now.dones ≡ None }
    requires unchanged { alien_value refs.now.values tx.now ≡ None }
    ensures ok { IfOk result (λ after. (at : ℕ)
        → after_dones M.means tx.now.dones at tx.now.dones (Ok refs.now.values) ≡ Ok after.values) }
    ensures base { IfOk result (λ after. after.base ≡ refs.now) }
    ensures moved { IfOk result (λ after. (r : ℕ)
        → changed_at after.lasts r ≡ changed_by refs.now.lasts at tx.now.dones r) }
    ensures all { IfOk result (λ after. length after.lasts ≡ length refs.now.lasts) }
    ensures unrefused { OnOk result (refused M.means tx.now.dones refs.now.values ≡ None) }
    ensures inner { IfOk result (λ after. (r : ℕ) → is_protected tx.now.dones r ≡ true
        → slice_get after.values r ≡ inner_value M.means tx.now r) }
    ensures fault { IfErr result (λ f. f ≢ Memory → refused M.means tx.now.dones refs.now.values ≡ Some f) }
{
    let dones = tx.dones();
    let mut after = Draft::over(refs);
    for done in dones {
        let is_free = !tx.is_protected(done.r);
        place_one(alloc, funs, is_free, at, done, &mut after)?;
    }
    Ok(after)
}

// Makes an operation on the latest value, at a point. A protected ref gets the kept answer, which is what the operation makes;
// one that is only ensured stays as it is.
fn place_one<M: Meaning, F: Functions<M>>(
    alloc: Global,
    funs: &F,
    is_free: bool,
    at: u64,
    done: &Done,
    refs: &mut Draft<'_>,
) -> Result<(), CommitFault>
    requires here { done.now.r < length refs.old.values }
    requires last { done.now.r < length refs.old.lasts }
    requires served { missing (F.knows funs.now).funs (commuted_code done.now.op) ≡ None }
    requires free { is_free ≡ true → is_commute done.now.op ≡ true }
    requires kept { is_free ≡ false → option_map (place M.means done.now.op) (slice_get refs.old.values done.now.r)
        ≡ Some (Ok done.now.answer) }
    ensures ok { OnOk result ((at : ℕ) → after_one M.means is_free at done.now refs.old.values ≡ Ok refs.new.values) }
    ensures moved { OnOk result ((r : ℕ) → changed_at refs.new.lasts r ≡ changed_by_one refs.old.lasts at done.now r) }
    ensures base { refs.new.base ≡ refs.old.base }
    ensures all { length refs.new.values ≡ length refs.old.values }
    ensures lasts { length refs.new.lasts ≡ length refs.old.lasts }
    ensures others { (r : ℕ) → (done.now.r == r) ≡ false → slice_get refs.new.values r ≡ slice_get refs.old.values r }
    ensures answers { OnOk result (is_free ≡ false → slice_get refs.new.values done.now.r ≡ Some done.now.answer) }
    ensures unrefused { OnOk result ((ds : List Done)
        → refused M.means (done.now ∷ ds) refs.old.values ≡ refused M.means ds refs.new.values) }
    ensures fault { IfErr result (λ f. f ≢ Memory → (ds : List Done)
        → refused M.means (done.now ∷ ds) refs.old.values ≡ Some f) }
{
    if done.op.is_ensure() {
        return Ok(());
    }
    let value = next_value(alloc, funs, is_free, done, refs)?;
    refs.set(alloc, done.r, value, at)?;
    Ok(())
}

// What a ref gets by an operation: what it makes of the latest value, or, where the ref is protected, the kept answer, which
// is the same.
fn next_value<M: Meaning, F: Functions<M>>(
    alloc: Global,
    funs: &F,
    is_free: bool,
    done: &Done,
    refs: &Draft<'_>,
) -> Result<Value, CommitFault>
    requires here { done.now.r < length refs.now.values }
    requires served { missing (F.knows funs.now).funs (commuted_code done.now.op) ≡ None }
    requires free { is_free ≡ true → is_commute done.now.op ≡ true }
    requires kept { is_free ≡ false → option_map (place M.means done.now.op) (slice_get refs.now.values done.now.r)
        ≡ Some (Ok done.now.answer) }
    ensures ok { IfOk result (λ v. option_map (place M.means done.now.op) (slice_get refs.now.values done.now.r)
        ≡ Some (Ok v)) }
    ensures answers { IfOk result (λ v. is_free ≡ false → v ≡ done.now.answer) }
    ensures fault { IfErr result (λ f. f ≢ Memory → (later : Edn → Option Fault)
        → refused_at done.now.r (option_map (place M.means done.now.op) (slice_get refs.now.values done.now.r)) later
        ≡ Some f) }
{
    if !is_free {
        return Ok(done.answer.share()?);
    }
    let Some(value) = refs.get(done.r) else {
        unreachable!();
    };
    again(alloc, funs, done, value)
}

// What a commute makes of the latest value.
fn again<M: Meaning, F: Functions<M>>(
    alloc: Global,
    funs: &F,
    done: &Done,
    value: &Value,
) -> Result<Value, CommitFault>
    requires commute { is_commute done.now.op ≡ true }
    requires served { missing (F.knows funs.now).funs (commuted_code done.now.op) ≡ None }
    ensures ok { IfOk result (λ v. place M.means done.now.op value.now ≡ Ok v) }
    ensures fault { IfErr result (λ f. f ≢ Memory → (later : Edn → Option Fault)
        → refused_at done.now.r (Some (place M.means done.now.op value.now)) later ≡ Some f) }
{
    match done.op.place(alloc, funs, value) {
        Ok(value) => Ok(value),
        Err(CallFault::Refused(cause)) => Err(CommitFault::Refused(done.r, cause)),
        Err(CallFault::NoSuchFun(code)) => Err(CommitFault::NoSuchFun(code)),
        Err(CallFault::Memory) => Err(CommitFault::Memory),
    }
}
