//! Each entry has its receipt, and each receipt its entry.
ghost use Rattle.std.specs.Prelude.{◌≡◌, ◌+◌, ◌<◌, ◌^◌, true, IfOk, length, slice_set, vec_len};
ghost use Rattle.std.specs.Bool.{OnTrue, OnFalse};
ghost use Rattle.ref_shared.specs.Gather.{ReceiptsMatch, has_receipt};
ghost use Rattle.ref_shared.specs.Marks.{AllMarked, Fits};

use ref_log::Entry;
use ref_pvec::PVec;
use std::alloc::{AllocError, Global};

// Whether the receipts past the base are just the entries that have one, each once.
pub(crate) fn receipts_match(
    alloc: Global,
    base_point: u64,
    log: &PVec<Entry>,
    receipts: &[u64],
) -> Result<bool, AllocError>
    requires { base_point + length log.now < 2 ^ 63 }
    ensures yes { IfOk result (λ b. OnTrue b (ReceiptsMatch base_point log.now receipts.now)) }
    ensures no { IfOk result (λ b. OnFalse b (ReceiptsMatch base_point log.now receipts.now → ⊥)) }
{
    let mut met = vec![in alloc; false; log.len()]?;
    for receipt in receipts {
        if *receipt > base_point {
            let i = (*receipt - base_point - 1) as usize;
            if !mark(log, &mut met, i) {
                return Ok(false);
            }
        }
    }
    Ok(all_marked(log, met.as_slice()))
}

// Marks the entry that stands at i, where there is one that has a receipt and isn't marked yet.
fn mark(log: &PVec<Entry>, met: &mut Vec<bool>, i: usize) -> bool
    requires { vec_len met.old ≡ length log.now }
    ensures yes { OnTrue result (Fits log.now met.old.items i
        × (met.new.items ≡ slice_set met.old.items i true)) }
    ensures no { OnFalse result (Fits log.now met.old.items i → ⊥) }
{
    let Some(here) = log.get(i) else {
        return false;
    };
    if met[i] || !has_receipt(here) {
        return false;
    }
    met[i] = true;
    true
}

// Whether each entry that has a receipt is marked.
fn all_marked(log: &PVec<Entry>, met: &[bool]) -> bool
    requires { length met.now ≡ length log.now }
    ensures yes { OnTrue result (AllMarked log.now met.now) }
    ensures no { OnFalse result (AllMarked log.now met.now → ⊥) }
{
    for i in 0..log.len() {
        let Some(entry) = log.get(i) else {
            unreachable!()
        };
        if has_receipt(entry) && !met[i] {
            return false;
        }
    }
    true
}

// Whether who added this entry has a receipt of it.
fn has_receipt(entry: &Entry) -> bool
    ensures { result ≡ has_receipt entry.now }
{
    match entry {
        Entry::Trans(_) | Entry::Atom(..) => true,
        Entry::MadeRef(_) | Entry::MadeAtom(_) => false,
    }
}
