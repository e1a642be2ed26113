//! The vector: a tree of whole chunks, and the last chunk next to it.
ghost use Rattle.std.specs.Prelude.{◌≡◌, ◌+◌, ◌<◌, ◌≤◌, ◌↔◌, ◌^◌, [], ◌∷◌, ◌++◌, length, take, drop, slice_get, option_copied, IsTrue, IfOk, IfErr, OnOk, OnErr};
ghost use Rattle.ref_pvec.specs.Chunks.{front_items, tail_items, IsRun};

use crate::chunks::{
    Chunk, WIDTH, empty_chunk, first_of_chunk, item_at, push_in_place, rest_of_chunk, run_of_chunk,
    unshare,
};
use crate::iterators::Iter;
use crate::trees::{Tree, leaf};
use std::alloc::{AllocError, AllocFailed, Global};
use std::marker::Model;
use std::sync::Arc;

/// A list of items whose old versions stay. Contracts see the list.
#[derive(Drop)]
pub struct PVec<T> {
    // How many items are in the tree, and how many in all.
    front_len: usize,
    len: usize,
    front: Option<Tree<T>>,
    tail: Option<Chunk<T>>,
}

impl<T> Model for PVec<T> {
    ghost use Rattle.std.specs.Prelude.{List, ◌≡◌, ◌++◌, length};

    ghost Value = { List T };

    ghost use Rattle.ref_pvec.specs.Chunks.{tail_items, front_items};

    ghost view = { λ a. front_items a.front ++ tail_items a.tail };

    ghost invariant = { λ a. (a.front_len ≡ length (front_items a.front))
        × (a.len ≡ length (front_items a.front ++ tail_items a.tail)) };
}

// Leaves a tail that no other vector has, so that it may be pushed to.
fn own_tail<T: Drop>(alloc: Global, tail: &mut Option<Chunk<T>>) -> Result<(), AllocError>
    ensures { tail_items tail.new ≡ tail_items tail.old }
{
    match tail {
        None => {
            let chunk = empty_chunk(alloc)?;
            *tail = Some(chunk);
            Ok(())
        }
        Some(chunk) => unshare(alloc, chunk),
    }
}

fn push_to_tail<T: Drop>(
    alloc: Global,
    tail: &mut Option<Chunk<T>>,
    item: T,
) -> Result<(), AllocFailed<T>>
    ensures ok { OnOk result (tail_items tail.new ≡ tail_items tail.old ++ item ∷ []) }
    ensures err { OnErr result (tail_items tail.new ≡ tail_items tail.old) }
    ensures back { IfErr result (λ failed. failed.value ≡ item) }
{
    match tail {
        None => Err(AllocFailed { value: item }),
        Some(chunk) => push_in_place(alloc, chunk, item),
    }
}

// One more owner of the tail, if there is one.
fn share_tail<T: Drop>(tail: &Option<Chunk<T>>) -> Result<Option<Chunk<T>>, AllocError>
    ensures { IfOk result (λ same. tail_items same ≡ tail_items tail.now) }
{
    Ok(match tail {
        None => None,
        Some(chunk) => Some(Arc::try_clone(chunk)?),
    })
}

// The first items of the tree, so many.
#[tactic(auto, using(crate::proofs::Lists::length_first, crate::proofs::Lists::append_none))]
fn first_of_front<T: Drop>(
    alloc: Global,
    front: &Option<Tree<T>>,
    count: usize,
) -> Result<PVec<T>, AllocError>
    requires { count ≤ length (front_items front.now) }
    ensures { IfOk result (λ first. first ≡ take count (front_items front.now)) }
{
    match front {
        None => Ok(PVec::empty()),
        Some(tree) => {
            let first = tree.first(alloc, count)?;
            Ok(PVec {
                front_len: count,
                len: count,
                front: Some(first),
                tail: None,
            })
        }
    }
}

// The items from an index of the tail on.
#[tactic(auto, using(crate::proofs::Lists::length_values))]
fn rest_of_tail<T: Drop>(
    alloc: Global,
    tail: &Option<Chunk<T>>,
    index: usize,
) -> Result<PVec<T>, AllocError>
    requires { index < length (tail_items tail.now) }
    ensures { IfOk result (λ rest. rest ≡ drop index (tail_items tail.now)) }
{
    match tail {
        None => unreachable!(),
        Some(chunk) => {
            let rest = rest_of_chunk(alloc, chunk, index)?;
            Ok(PVec {
                front_len: 0,
                len: rest.len(),
                front: None,
                tail: Some(rest),
            })
        }
    }
}

impl<T: Drop> PVec<T> {
    /// A list without items. It takes no memory.
    pub fn empty() -> PVec<T>
        ensures { result ≡ [] }
    {
        PVec {
            front_len: 0,
            len: 0,
            front: None,
            tail: None,
        }
    }

    /// How many items there are, in constant time.
    pub fn len(&self) -> usize
        ensures { result ≡ length self.now }
    {
        self.len
    }

    /// Whether there are no items.
    pub fn is_empty(&self) -> bool
        ensures { IsTrue result ↔ (self.now ≡ []) }
    {
        self.len == 0
    }

    /// The item at an index, or `None` past the end, in a logarithm of the length.
    #[tactic(auto, using(crate::proofs::Lists::get_front, crate::proofs::Lists::get_back))]
    pub fn get(&self, index: usize) -> Option<&T>
        ensures { option_copied result ≡ slice_get self.now index }
    {
        if index < self.front_len {
            match &self.front {
                None => None,
                Some(tree) => tree.get(index),
            }
        } else {
            match &self.tail {
                None => None,
                Some(chunk) => item_at(chunk, index - self.front_len),
            }
        }
    }

    /// The items from the first on.
    pub fn iter(&self) -> Iter<'_, T>
        ensures value { result ≡ self.now }
        ensures fits { length result < 2 ^ 64 }
    {
        Iter::over(self)
    }

    // The items from an index on that lie in one chunk.
    #[tactic(auto, using(crate::proofs::Lists::run_in_front, crate::proofs::Lists::run_in_back, crate::proofs::Lists::length_both))]
    pub(crate) fn run_from(&self, index: usize) -> &[Arc<T>]
        requires { index < length self.now }
        ensures run { IsRun self.now index result.now }
        ensures some { 0 < length result.now }
    {
        if index < self.front_len {
            match &self.front {
                None => unreachable!(),
                Some(tree) => tree.run_from(index),
            }
        } else {
            match &self.tail {
                None => unreachable!(),
                Some(chunk) => run_of_chunk(chunk, index - self.front_len),
            }
        }
    }

    /// One more owner of the list as it is now. It takes no memory; only a count of owners can refuse.
    pub fn share(&self) -> Result<PVec<T>, AllocError>
        ensures { IfOk result (λ same. same ≡ self.now) }
    {
        let front = match &self.front {
            None => None,
            Some(tree) => Some(tree.share()?),
        };
        let tail = share_tail(&self.tail)?;
        Ok(PVec {
            front_len: self.front_len,
            len: self.len,
            front,
            tail,
        })
    }

    /// Puts an item behind the others. Versions that were shared before stay as they were. Where memory is refused the item
    /// is returned, and the list is the same.
    #[tactic(auto, using(crate::proofs::Lists::append_associates, crate::proofs::Lists::length_both))]
    pub fn push(&mut self, alloc: Global, item: T) -> Result<(), AllocFailed<T>>
        ensures ok { OnOk result (self.new ≡ self.old ++ item ∷ []) }
        ensures err { OnErr result (self.new ≡ self.old) }
        ensures back { IfErr result (λ failed. failed.value ≡ item) }
    {
        let Some(len) = self.len.checked_add(1) else {
            return Err(AllocFailed { value: item });
        };
        if self.make_room(alloc).is_err() {
            return Err(AllocFailed { value: item });
        }
        push_to_tail(alloc, &mut self.tail, item)?;
        self.len = len;
        Ok(())
    }

    /// The list with one item more, which stands behind the others. This list stays as it is. Where memory is refused the item
    /// is returned.
    pub fn pushed(&self, alloc: Global, item: T) -> Result<PVec<T>, AllocFailed<T>>
        ensures ok { IfOk result (λ longer. longer ≡ self.now ++ item ∷ []) }
        ensures back { IfErr result (λ failed. failed.value ≡ item) }
    {
        let Ok(mut longer) = self.share() else {
            return Err(AllocFailed { value: item });
        };
        longer.push(alloc, item)?;
        Ok(longer)
    }

    /// The first items, so many: all, where there are no more. This list stays as it is.
    #[tactic(auto, using(crate::proofs::Lists::first_in_front, crate::proofs::Lists::first_in_back, crate::proofs::Lists::first_is_all, crate::proofs::Lists::append_none, crate::proofs::Lists::length_both, crate::proofs::Lists::length_first))]
    pub fn first(&self, alloc: Global, count: usize) -> Result<PVec<T>, AllocError>
        ensures { IfOk result (λ first. first ≡ take count self.now) }
    {
        if count >= self.len {
            return self.share();
        }
        if count <= self.front_len {
            return first_of_front(alloc, &self.front, count);
        }
        let front = match &self.front {
            None => None,
            Some(tree) => Some(tree.share()?),
        };
        let tail = match &self.tail {
            None => None,
            Some(chunk) => Some(first_of_chunk(alloc, chunk, count - self.front_len)?),
        };
        Ok(PVec {
            front_len: self.front_len,
            len: count,
            front,
            tail,
        })
    }

    /// The items from an index on: none where there are no more than so many. This list stays as it is.
    #[tactic(auto, using(crate::proofs::Lists::rest_in_front, crate::proofs::Lists::rest_in_back, crate::proofs::Lists::rest_is_none, crate::proofs::Lists::length_both, crate::proofs::Lists::length_rest))]
    pub fn rest(&self, alloc: Global, index: usize) -> Result<PVec<T>, AllocError>
        ensures { IfOk result (λ rest. rest ≡ drop index self.now) }
    {
        if index >= self.len {
            return Ok(PVec::empty());
        }
        if index >= self.front_len {
            return rest_of_tail(alloc, &self.tail, index - self.front_len);
        }
        let front = match &self.front {
            None => None,
            Some(tree) => Some(tree.rest(alloc, index)?),
        };
        let tail = share_tail(&self.tail)?;
        Ok(PVec {
            front_len: self.front_len - index,
            len: self.len - index,
            front,
            tail,
        })
    }

    // Leaves a tail that may be pushed to and isn't full. The list stays as it is, also where memory is refused.
    fn make_room(&mut self, alloc: Global) -> Result<(), AllocError>
        ensures { self.new ≡ self.old }
    {
        if self.has_full_tail() {
            self.put_tail_into_tree(alloc)?;
        }
        own_tail(alloc, &mut self.tail)
    }

    fn has_full_tail(&self) -> bool {
        match &self.tail {
            None => false,
            Some(chunk) => chunk.len() >= WIDTH,
        }
    }

    #[tactic(auto, using(crate::proofs::Lists::append_none))]
    fn put_tail_into_tree(&mut self, alloc: Global) -> Result<(), AllocError>
        ensures { self.new ≡ self.old }
    {
        let Some(tail) = &self.tail else {
            return Ok(());
        };
        let chunk = Arc::try_clone(tail)?;
        let tree = match &self.front {
            None => leaf(chunk),
            Some(tree) => tree.append(alloc, chunk)?,
        };
        self.front_len = self.len;
        self.front = Some(tree);
        self.tail = None;
        Ok(())
    }
}
