//! The notices that a commit gives the watches of refs.
ghost use Rattle.std.specs.Prelude.{◌≡◌, ◌++◌, ◌∷◌, [], ◌⊎◌, true, false, IfOk, OnOk, option_copied};
ghost use Rattle.std.specs.BTreeSet.{keys};
ghost use Rattle.ref_log.specs.Guards.{keys_at};
ghost use Rattle.ref_log.specs.Replay.{is_ensure};
ghost use Rattle.ref_refs.specs.Watches.{AreUnguarded, IsUnguarded, notices, notices_at, notices_if_here, touched_refs};

use crate::current::Refs;
use crate::drafts::Draft;
use ref_log::{Done, Guards, Notice, Who};
use ref_value::Value;
use std::alloc::{AllocError, Global};
use std::collections::BTreeSet;

// The refs that these operations change, each once, in ascending order. Most transactions have one operation, which needs no set.
pub(crate) fn touched_refs(alloc: Global, dones: &[Done]) -> Result<Vec<u32>, AllocError>
    ensures { IfOk result (λ rs. rs.items ≡ touched_refs dones.now) }
{
    match dones {
        [done] => touched_by(alloc, done),
        _ => touched_by_all(alloc, dones),
    }
}

fn touched_by(alloc: Global, done: &Done) -> Result<Vec<u32>, AllocError>
    ensures { IfOk result (λ rs. rs.items ≡ touched_refs (done.now ∷ [])) }
{
    let mut refs = Vec::new(alloc);
    if done.op.is_ensure() {
        return Ok(refs);
    }
    refs.push(done.r)?;
    Ok(refs)
}

fn touched_by_all(alloc: Global, dones: &[Done]) -> Result<Vec<u32>, AllocError>
    ensures { IfOk result (λ rs. rs.items ≡ touched_refs dones.now) }
{
    let mut refs = BTreeSet::new(alloc);
    for done in dones {
        if !done.op.is_ensure() {
            refs.insert(done.r)?;
        }
    }
    in_order(alloc, refs)
}

fn in_order(alloc: Global, refs: BTreeSet<u32>) -> Result<Vec<u32>, AllocError>
    ensures { IfOk result (λ rs. rs.items ≡ keys refs) }
{
    let mut all = Vec::with_capacity(alloc, refs.len())?;
    for r in refs {
        all.push(r)?;
    }
    Ok(all)
}

// Whether no ref that these operations change has a rule or a watch. It takes no memory.
pub(crate) fn are_unguarded(guards: &Guards, dones: &[Done]) -> bool
    ensures { result ≡ true → AreUnguarded guards.now (touched_refs dones.now) }
{
    for done in dones {
        if changes_guarded(guards, done) {
            return false;
        }
    }
    true
}

// Whether an operation changes a ref that has a rule or a watch.
fn changes_guarded(guards: &Guards, done: &Done) -> bool
    ensures { result ≡ false → (is_ensure done.now.op ≡ true) ⊎ IsUnguarded guards.now done.now.r }
{
    !done.op.is_ensure() && is_guarded(guards, done.r)
}

fn is_guarded(guards: &Guards, r: u32) -> bool
    ensures { result ≡ false → IsUnguarded guards.now r }
{
    guards.rule_of(r).is_some() || !guards.is_unwatched(r)
}

// The notices of a commit that changes these refs.
pub(crate) fn notices(
    alloc: Global,
    guards: &Guards,
    before: &Refs,
    after: &Draft<'_>,
    touched: &[u32],
) -> Result<Vec<Notice>, AllocError>
    ensures { IfOk result (λ ns. ns.items ≡ notices guards.now before.now.values after.now.values touched.now) }
{
    let mut all = Vec::new(alloc);
    for r in touched {
        tell(guards, before, after, *r, &mut all)?;
    }
    Ok(all)
}

// Adds the notices of one ref.
fn tell(
    guards: &Guards,
    before: &Refs,
    after: &Draft<'_>,
    r: u32,
    all: &mut Vec<Notice>,
) -> Result<(), AllocError>
    ensures { OnOk result (all.new.items ≡ all.old.items
        ++ notices_at guards.now before.now.values after.now.values r) }
{
    if guards.is_unwatched(r) {
        return Ok(());
    }
    tell_if_here(guards, before.get(r), after.get(r), r, all)
}

// Adds the notices of a ref, if it is here.
fn tell_if_here(
    guards: &Guards,
    before: Option<&Value>,
    after: Option<&Value>,
    r: u32,
    all: &mut Vec<Notice>,
) -> Result<(), AllocError>
    ensures { OnOk result (all.new.items ≡ all.old.items
        ++ notices_if_here r (keys_at guards.now r) (option_copied before.entry) (option_copied after.entry)) }
{
    match (before, after) {
        (Some(before), Some(after)) => guards.tell(r, Who::Ref(r), before, after, all),
        (None, _) | (Some(_), None) => Ok(()),
    }
}
