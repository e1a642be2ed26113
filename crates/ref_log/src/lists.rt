//! Lists whose old versions stay, of items that can have several owners.
ghost use Rattle.std.specs.Prelude.{◌≡◌, IfOk};

use ref_fun::Shareable;
use ref_pvec::PVec;
use std::alloc::{AllocError, Global};

/// One more owner of each of these, in a list whose old versions stay.
pub fn vector_of<T: Shareable>(alloc: Global, items: &[T]) -> Result<PVec<T>, AllocError>
    ensures { IfOk result (λ all. all ≡ items.now) }
{
    let mut all = PVec::empty();
    for item in items {
        all.push(alloc, item.share()?)?;
    }
    Ok(all)
}
