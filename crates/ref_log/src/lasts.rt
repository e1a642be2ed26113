//! The points of last changes after entries.
ghost use Rattle.std.specs.Prelude.{◌≡◌, ◌<◌, ◌^◌, ◌&&◌, ◌==◌, ℕ, not, if◌then◌else◌, IfOk, OnOk, length, slice_index_or};
ghost use Rattle.ref_log.specs.Replay.{is_changed_by, is_ensure, is_touched, last_change, point_after, refs_after, refs_after_one};

use crate::entries::Entry;
use crate::operations::Done;
use crate::states::Base;
use ref_fun::SharedVec;
use ref_pvec::PVec;
use std::alloc::{AllocError, Global};

// The point of the last change of each ref after these entries.
pub(crate) fn lasts_after(
    alloc: Global,
    base: &Base,
    entries: &PVec<Entry>,
) -> Result<Vec<u64>, AllocError>
    requires points { point_after base.now entries.now < 2 ^ 64 }
    requires lasts { length base.now.last ≡ length base.now.refs }
    ensures count { IfOk result (λ lasts. length lasts.items ≡ refs_after (length base.now.refs) entries.now) }
    ensures marks { IfOk result (λ lasts. (r : ℕ) → r < length lasts.items
        → slice_index_or lasts.items r 0 ≡ last_change base.now entries.now r) }
{
    let mut lasts = copied(alloc, &base.last)?;
    let mut point = base.point;
    for entry in entries {
        point += 1;
        mark_changed(&mut lasts, point, entry)?;
    }
    Ok(lasts)
}

fn copied(alloc: Global, points: &SharedVec<u64>) -> Result<Vec<u64>, AllocError>
    ensures { IfOk result (λ all. all.items ≡ points.now) }
{
    let mut all = Vec::with_capacity(alloc, points.len())?;
    for i in 0..points.len() {
        all.push(*points.at(i))?;
    }
    Ok(all)
}

// An entry at this point changes the refs that it touches, and the one that it makes.
fn mark_changed(lasts: &mut Vec<u64>, point: u64, entry: &Entry) -> Result<(), AllocError>
    ensures count { OnOk result (length lasts.new.items ≡ refs_after_one (length lasts.old.items) entry.now) }
    ensures marks { OnOk result ((r : ℕ) → r < length lasts.new.items → slice_index_or lasts.new.items r 0
        ≡ (if is_changed_by (length lasts.old.items) entry.now r then point else slice_index_or lasts.old.items r 0)) }
{
    match entry {
        Entry::Trans(transaction) => {
            mark_touched(lasts, point, &transaction.dones);
            Ok(())
        }
        Entry::MadeRef(_) => {
            lasts.push(point)?;
            Ok(())
        }
        Entry::Atom(..) | Entry::MadeAtom(_) => Ok(()),
    }
}

fn mark_touched(lasts: &mut Vec<u64>, point: u64, dones: &SharedVec<Done>)
    ensures count { length lasts.new.items ≡ length lasts.old.items }
    ensures marks { (r : ℕ) → r < length lasts.old.items → slice_index_or lasts.new.items r 0
        ≡ (if is_touched dones.now r then point else slice_index_or lasts.old.items r 0) }
{
    for done in dones {
        mark_done(lasts, point, done);
    }
}

// An operation on a ref that isn't there touches none.
fn mark_done(lasts: &mut Vec<u64>, point: u64, done: &Done)
    ensures count { length lasts.new.items ≡ length lasts.old.items }
    ensures marks { (r : ℕ) → r < length lasts.old.items → slice_index_or lasts.new.items r 0
        ≡ (if done.now.r == r && not (is_ensure done.now.op) then point else slice_index_or lasts.old.items r 0) }
{
    let r = done.r as usize;
    if !done.op.is_ensure() && r < lasts.len() {
        lasts[r] = point;
    }
}
