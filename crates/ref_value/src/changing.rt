//! The members of a chunk, and next to them the depth of the deepest: a copy, one more, one less and one replaced.
ghost use Rattle.std.specs.Prelude.{◌≡◌, ◌≤◌, ◌<◌, ◌++◌, length, slice_set, insert, remove, max, IfOk, OnOk, OnErr};
ghost use Rattle.ref_value.specs.Deepest.{IsDeepestEntry};
ghost use Rattle.ref_value.specs.Edn.{nesting};
ghost use Rattle.ref_value.specs.Lawful.{IsLawful};
ghost use Rattle.ref_value.specs.Members.{twins};

use crate::data::Value;
use crate::maps::deepest_of as deepest_entry_of;
use crate::vectors::{deepest_of, larger};
use std::alloc::{AllocError, Global};

/// One more owner of each value, behind those of a list.
pub(crate) fn share_values(values: &[Value], all: &mut Vec<Value>) -> Result<(), AllocError>
    ensures { OnOk result (all.new.items ≡ all.old.items ++ values.now) }
{
    for x in values {
        all.push(x.share()?)?;
    }
    Ok(())
}

/// One more owner of each value, in a list with room for so many.
pub(crate) fn shared_values(
    alloc: Global,
    values: &[Value],
    capacity: usize,
) -> Result<Vec<Value>, AllocError>
    ensures { IfOk result (λ v. v.items ≡ values.now) }
{
    let mut all = Vec::with_capacity(alloc, capacity)?;
    share_values(values, &mut all)?;
    Ok(all)
}

/// Puts one more value at a place.
#[tactic(auto, using(crate::proofs::Pairing::length_twins, crate::proofs::Pairing::twins_insert))]
pub(crate) fn insert_value(
    deepest: &mut u8,
    values: &mut Vec<Value>,
    i: usize,
    x: Value,
) -> Result<(), AllocError>
    requires in_range { i ≤ length (twins values.old.items) }
    requires deepest { IsDeepestEntry deepest.old (twins values.old.items) }
    ensures ok { OnOk result (twins values.new.items ≡ insert (twins values.old.items) i (x, x)) }
    ensures err { OnErr result (values.new.items ≡ values.old.items) }
    ensures deepest { IsDeepestEntry deepest.new (twins values.new.items) }
{
    let depth = x.depth();
    values.insert(i, x)?;
    *deepest = larger(*deepest, depth);
    Ok(())
}

/// Takes the value at a place out. The others are looked at only where it was the deepest.
#[tactic(auto, using(crate::proofs::Pairing::length_twins, crate::proofs::Pairing::twins_remove, crate::proofs::Pairing::twins_deepest))]
pub(crate) fn remove_value(deepest: &mut u8, values: &mut Vec<Value>, i: usize)
    requires in_range { i < length (twins values.old.items) }
    requires deepest { IsDeepestEntry deepest.old (twins values.old.items) }
    ensures values { twins values.new.items ≡ remove (twins values.old.items) i }
    ensures deepest { IsDeepestEntry deepest.new (twins values.new.items) }
{
    let gone = values[i].depth();
    values.remove(i);
    if gone > 0 && gone >= *deepest {
        *deepest = deepest_of(values);
    }
}

/// One more owner of each key and value, behind those of a list.
pub(crate) fn share_pairs(
    pairs: &[(Value, Value)],
    all: &mut Vec<(Value, Value)>,
) -> Result<(), AllocError>
    ensures { OnOk result (all.new.items ≡ all.old.items ++ pairs.now) }
{
    for (key, value) in pairs {
        all.push((key.share()?, value.share()?))?;
    }
    Ok(())
}

/// One more owner of each key and value, in a list with room for so many.
pub(crate) fn shared_pairs(
    alloc: Global,
    pairs: &[(Value, Value)],
    capacity: usize,
) -> Result<Vec<(Value, Value)>, AllocError>
    ensures { IfOk result (λ v. v.items ≡ pairs.now) }
{
    let mut all = Vec::with_capacity(alloc, capacity)?;
    share_pairs(pairs, &mut all)?;
    Ok(all)
}

// The depth of the deeper of a key and its value.
fn depth_of(pair: &(Value, Value)) -> u8
    ensures depth { result ≡ max (nesting pair.now.0) (nesting pair.now.1) }
    ensures key { IsLawful pair.now.0 }
    ensures value { IsLawful pair.now.1 }
{
    larger(pair.0.depth(), pair.1.depth())
}

/// Puts one more pair at a place.
pub(crate) fn insert_pair(
    deepest: &mut u8,
    pairs: &mut Vec<(Value, Value)>,
    i: usize,
    pair: (Value, Value),
) -> Result<(), AllocError>
    requires in_range { i ≤ length pairs.old.items }
    requires deepest { IsDeepestEntry deepest.old pairs.old.items }
    ensures ok { OnOk result (pairs.new.items ≡ insert pairs.old.items i pair) }
    ensures err { OnErr result (pairs.new.items ≡ pairs.old.items) }
    ensures deepest { IsDeepestEntry deepest.new pairs.new.items }
{
    let depth = depth_of(&pair);
    pairs.insert(i, pair)?;
    *deepest = larger(*deepest, depth);
    Ok(())
}

/// Replaces a pair by another. The others are looked at only where that was the deepest and this is not.
pub(crate) fn replace_pair(
    deepest: &mut u8,
    pairs: &mut Vec<(Value, Value)>,
    i: usize,
    pair: (Value, Value),
)
    requires in_range { i < length pairs.old.items }
    requires deepest { IsDeepestEntry deepest.old pairs.old.items }
    ensures pairs { pairs.new.items ≡ slice_set pairs.old.items i pair }
    ensures deepest { IsDeepestEntry deepest.new pairs.new.items }
{
    let depth = depth_of(&pair);
    let gone = depth_of(&pairs[i]);
    pairs[i] = pair;
    if depth < *deepest && gone >= *deepest {
        *deepest = deepest_entry_of(pairs);
    } else {
        *deepest = larger(*deepest, depth);
    }
}

/// Takes the pair at a place out. The others are looked at only where it was the deepest.
pub(crate) fn remove_pair(deepest: &mut u8, pairs: &mut Vec<(Value, Value)>, i: usize)
    requires in_range { i < length pairs.old.items }
    requires deepest { IsDeepestEntry deepest.old pairs.old.items }
    ensures pairs { pairs.new.items ≡ remove pairs.old.items i }
    ensures deepest { IsDeepestEntry deepest.new pairs.new.items }
{
    let gone = depth_of(&pairs[i]);
    pairs.remove(i);
    if gone > 0 && gone >= *deepest {
        *deepest = deepest_entry_of(pairs);
    }
}
