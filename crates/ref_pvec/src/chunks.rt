//! Chunks: a few items side by side.
ghost use Rattle.std.specs.Prelude.{◌≡◌, ◌+◌, ◌<◌, ◌≤◌, [], ◌∷◌, ◌++◌, length, take, drop, slice_get, option_copied, IfOk, IfErr, OnOk, OnErr};
ghost use Rattle.ref_pvec.specs.Chunks.{values, chunk_items, IsRun};

use std::alloc::{AllocError, AllocFailed, Global};
use std::sync::Arc;

/// How many items a chunk has room for. No contract names it: another width makes the same lists.
pub(crate) const WIDTH: usize = 32;

/// Items side by side. Each has owners of its own, so a copy of the chunk shares them.
pub(crate) type Chunk<T> = Arc<Vec<Arc<T>>>;

pub(crate) fn empty_chunk<T: Drop>(alloc: Global) -> Result<Chunk<T>, AllocError>
    ensures { IfOk result (λ chunk. chunk_items chunk ≡ []) }
{
    let items = Vec::with_capacity(alloc, WIDTH)?;
    let chunk = Arc::new(alloc, items)?;
    Ok(chunk)
}

#[tactic(auto, using(crate::proofs::Lists::slice_get_values, crate::proofs::Lists::no_value))]
pub(crate) fn item_at<T>(chunk: &Chunk<T>, index: usize) -> Option<&T>
    ensures { option_copied result ≡ slice_get (chunk_items chunk.now) index }
{
    if index < chunk.len() {
        let item = &chunk[index];
        Some(&**item)
    } else {
        None
    }
}

/// The items from an index on.
#[tactic(auto, using(crate::proofs::Lists::values_rest, crate::proofs::Lists::length_values, crate::proofs::Lists::run_of_chunk))]
pub(crate) fn run_of_chunk<T>(chunk: &Chunk<T>, index: usize) -> &[Arc<T>]
    requires { index < length (chunk_items chunk.now) }
    ensures run { IsRun (chunk_items chunk.now) index result.now }
    ensures some { 0 < length result.now }
{
    &chunk[index..]
}

// The same items, shared, with room for a whole chunk.
#[tactic(auto, using(crate::proofs::Lists::values_push, crate::proofs::Lists::values_more, crate::proofs::Lists::values_whole))]
fn shared_items<T: Drop>(alloc: Global, owners: &[Arc<T>]) -> Result<Vec<Arc<T>>, AllocError>
    ensures { IfOk result (λ items. values items.items ≡ values owners.now) }
{
    let mut items = Vec::with_capacity(alloc, WIDTH)?;
    for item in owners {
        items.push(Arc::try_clone(item)?)?;
    }
    Ok(items)
}

/// A chunk of the items from an index on.
#[tactic(auto, using(crate::proofs::Lists::values_rest, crate::proofs::Lists::length_values))]
pub(crate) fn rest_of_chunk<T: Drop>(
    alloc: Global,
    chunk: &Chunk<T>,
    index: usize,
) -> Result<Chunk<T>, AllocError>
    requires { index < length (chunk_items chunk.now) }
    ensures { IfOk result (λ rest. chunk_items rest ≡ drop index (chunk_items chunk.now)) }
{
    let items = shared_items(alloc, &chunk[index..])?;
    let rest = Arc::new(alloc, items)?;
    Ok(rest)
}

/// A chunk of the first items, so many.
#[tactic(auto, using(crate::proofs::Lists::values_first, crate::proofs::Lists::length_values))]
pub(crate) fn first_of_chunk<T: Drop>(
    alloc: Global,
    chunk: &Chunk<T>,
    count: usize,
) -> Result<Chunk<T>, AllocError>
    requires { count ≤ length (chunk_items chunk.now) }
    ensures { IfOk result (λ first. chunk_items first ≡ take count (chunk_items chunk.now)) }
{
    let items = shared_items(alloc, &chunk[..count])?;
    let first = Arc::new(alloc, items)?;
    Ok(first)
}

/// Replaces a chunk that has other owners by a copy. The others still have the old one.
pub(crate) fn unshare<T: Drop>(alloc: Global, chunk: &mut Chunk<T>) -> Result<(), AllocError>
    ensures { chunk_items chunk.new ≡ chunk_items chunk.old }
{
    if let Some(_) = Arc::get_mut(chunk) {
        return Ok(());
    }
    let items = shared_items(alloc, chunk.as_slice())?;
    *chunk = Arc::new(alloc, items)?;
    Ok(())
}

/// Puts one more item behind the others. It is returned where the chunk has other owners or memory is refused.
#[tactic(auto, using(crate::proofs::Lists::values_push))]
pub(crate) fn push_in_place<T: Drop>(
    alloc: Global,
    chunk: &mut Chunk<T>,
    item: T,
) -> Result<(), AllocFailed<T>>
    ensures ok { OnOk result (chunk_items chunk.new ≡ chunk_items chunk.old ++ item ∷ []) }
    ensures err { OnErr result (chunk_items chunk.new ≡ chunk_items chunk.old) }
    ensures back { IfErr result (λ failed. failed.value ≡ item) }
{
    let Some(items) = Arc::get_mut(chunk) else {
        return Err(AllocFailed { value: item });
    };
    if items.reserve(1).is_err() {
        return Err(AllocFailed { value: item });
    }
    let item = Arc::new(alloc, item)?;
    match items.push(item) {
        Ok(()) => Ok(()),
        Err(_) => unreachable!(),
    }
}
