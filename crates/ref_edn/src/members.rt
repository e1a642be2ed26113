//! Members of a set or a map in the order of reading, each with how many bytes were left where it began.
ghost use Rattle.std.specs.Prelude.{◌≡◌, [], cond, IsTrue, IsPermutation, IfOk};
ghost use Rattle.std.specs.Ordering.{is_lt};
ghost use Rattle.ref_value.specs.Edn.{items_of, entries_of};
ghost use Rattle.ref_edn.specs.Marks.{Falls, elements_of, first_twice, keys_of, pairs_of, twin_left};
ghost use Rattle.ref_value.specs.Order.{edn_cmp, elements_ascend, keys_ascend};

use crate::sort_keys::Keyed;
use ref_value::Value;
use std::alloc::{AllocError, Global};
use std::cmp::Reverse;

// How many bytes are left at the second, where it doesn't stand behind the first in value order, and else 0.
fn twin(x: &Keyed, y: &Keyed, left: usize) -> usize
    ensures { result ≡ cond (is_lt (edn_cmp x.now y.now)) 0 left }
{
    if x < y { 0 } else { left }
}

// The most bytes that are left at an element that doesn't stand behind the one before it in value order, or 0.
#[tactic(auto, using(crate::proofs::Twins::twin_end))]
fn most_left(sorted: &[(Keyed, Reverse<usize>)]) -> usize
    ensures { result ≡ twin_left sorted.now }
{
    let mut most = 0;
    for i in 1..sorted.len() {
        let (y, left) = &sorted[i];
        most = most.max(twin(&sorted[i - 1].0, y, left.0));
    }
    most
}

// The same of keys.
#[tactic(auto, using(crate::proofs::Twins::key_twin_end))]
fn most_left_of_keys(sorted: &[((Keyed, Reverse<usize>), Value)]) -> usize
    ensures { result ≡ twin_left (keys_of sorted.now) }
{
    let mut most = 0;
    for i in 1..sorted.len() {
        let ((key, left), _) = &sorted[i];
        most = most.max(twin(&sorted[i - 1].0.0, key, left.0));
    }
    most
}

/// Puts elements into value order, and returns how many bytes were left at the first that equals an earlier one, or 0. It
/// takes no memory, and linear time where they ascend already.
pub(crate) fn sort_elements(found: &mut Vec<(Keyed, Reverse<usize>)>) -> usize
    requires { Falls found.old.items }
    ensures permutation { IsPermutation found.old.items found.new.items }
    ensures first { result ≡ first_twice [] found.old.items }
    ensures ascends { result ≡ 0 → IsTrue (elements_ascend (items_of (elements_of found.new.items))) }
{
    found.sort_unstable();
    most_left(found)
}

/// The same of entries by their keys.
pub(crate) fn sort_entries(found: &mut Vec<((Keyed, Reverse<usize>), Value)>) -> usize
    requires { Falls (keys_of found.old.items) }
    ensures permutation { IsPermutation found.old.items found.new.items }
    ensures first { result ≡ first_twice [] (keys_of found.old.items) }
    ensures ascends { result ≡ 0 → IsTrue (keys_ascend (entries_of (pairs_of found.new.items))) }
{
    found.sort_unstable();
    most_left_of_keys(found)
}

/// The elements alone.
pub(crate) fn into_values(
    alloc: Global,
    found: Vec<(Keyed, Reverse<usize>)>,
) -> Result<Vec<Value>, AllocError>
    ensures { IfOk result (λ v. v.items ≡ elements_of found.items) }
{
    let mut values = Vec::with_capacity(alloc, found.len())?;
    for (x, _) in found {
        values.push(x.into_value())?;
    }
    Ok(values)
}

/// The entries alone.
pub(crate) fn into_pairs(
    alloc: Global,
    found: Vec<((Keyed, Reverse<usize>), Value)>,
) -> Result<Vec<(Value, Value)>, AllocError>
    ensures { IfOk result (λ v. v.items ≡ pairs_of found.items) }
{
    let mut pairs = Vec::with_capacity(alloc, found.len())?;
    for ((key, _), value) in found {
        pairs.push((key.into_value(), value))?;
    }
    Ok(pairs)
}
