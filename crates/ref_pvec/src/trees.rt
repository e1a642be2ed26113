//! Trees of chunks.
ghost use Rattle.std.specs.Prelude.{◌≡◌, ◌+◌, ◌<◌, ◌≤◌, ◌++◌, take, drop, length, slice_get, option_copied, IfOk};
ghost use Rattle.ref_pvec.specs.Chunks.{chunk_items, IsRun};
ghost use Rattle.ref_pvec.specs.declared.trees.Branch.TheVariants.{Sides};

use crate::chunks::{Chunk, first_of_chunk, item_at, rest_of_chunk, run_of_chunk};
use std::alloc::{AllocError, Global};
use std::marker::Model;
use std::sync::Arc;

/// One chunk or more, in order. Contracts see the items, and the height.
#[cycle(tree)]
#[derive(Drop)]
pub(crate) struct Tree<T> {
    node: Node<T>,
}

#[cycle(tree)]
#[derive(Drop)]
enum Node<T> {
    Leaf(Chunk<T>),
    Fork(Arc<Branch<T>>),
}

// How many items the left side has, and how many both have; the sides. (It is an enum, since definitions can take apart an
// enum of this cycle of types, and no struct.)
#[cycle(tree)]
#[derive(Drop)]
enum Branch<T> {
    Sides(usize, usize, Tree<T>, Tree<T>),
}

impl<T> Model for Tree<T> {
    ghost use Rattle.std.specs.Prelude.{List, ℕ};

    ghost Value = { List T × ℕ };

    ghost use Rattle.ref_pvec.specs.Trees.{tree_of, IsTree};

    ghost view = { λ a. tree_of a.node };

    ghost invariant = { λ a. IsTree a.node };

    ghost size = { λ t. t.1 };

    ghost use Rattle.ref_pvec.specs.Falls.{falls};

    ghost size_decreases = { λ a h. falls a.node };
}

fn sides<T>(branch: &Branch<T>) -> (usize, usize, &Tree<T>, &Tree<T>)
    ensures { branch.now ≡ Sides result.0 result.1 result.2.now result.3.now }
{
    let Branch::Sides(left_len, len, left, right) = branch;
    (*left_len, *len, left, right)
}

/// A tree of one chunk.
pub(crate) fn leaf<T: Drop>(chunk: Chunk<T>) -> Tree<T>
    ensures { result.0 ≡ chunk_items chunk }
{
    Tree {
        node: Node::Leaf(chunk),
    }
}

#[tactic(auto, using(crate::proofs::Lists::length_both))]
fn fork<T: Drop>(alloc: Global, left: Tree<T>, right: Tree<T>) -> Result<Tree<T>, AllocError>
    ensures { IfOk result (λ tree. tree.0 ≡ left.0 ++ right.0) }
{
    let left_len = left.len();
    let Some(len) = left_len.checked_add(right.len()) else {
        return Err(AllocError);
    };
    let branch = Arc::new(alloc, Branch::Sides(left_len, len, left, right))?;
    Ok(Tree {
        node: Node::Fork(branch),
    })
}

impl<T: Drop> Tree<T> {
    #[tactic(auto, using(crate::proofs::Lists::length_values, crate::proofs::Lists::length_both))]
    pub(crate) fn len(&self) -> usize
        ensures { result ≡ length self.now.0 }
    {
        match &self.node {
            Node::Leaf(chunk) => chunk.len(),
            Node::Fork(branch) => {
                let (_, len, _, _) = sides(branch);
                len
            }
        }
    }

    pub(crate) fn share(&self) -> Result<Tree<T>, AllocError>
        ensures { IfOk result (λ tree. tree ≡ self.now) }
    {
        match &self.node {
            Node::Leaf(chunk) => {
                let node = Node::Leaf(Arc::try_clone(chunk)?);
                Ok(Tree { node })
            }
            Node::Fork(branch) => {
                let node = Node::Fork(Arc::try_clone(branch)?);
                Ok(Tree { node })
            }
        }
    }

    #[tactic(auto, using(crate::proofs::Lists::get_front, crate::proofs::Lists::get_back))]
    pub(crate) fn get(&self, index: usize) -> Option<&T>
        ensures { option_copied result ≡ slice_get self.now.0 index }
    {
        match &self.node {
            Node::Leaf(chunk) => item_at(chunk, index),
            Node::Fork(branch) => {
                let (left_len, _, left, right) = sides(branch);
                if index < left_len {
                    left.get(index)
                } else {
                    right.get(index - left_len)
                }
            }
        }
    }

    /// The items from an index on that lie in one chunk.
    #[tactic(auto, using(crate::proofs::Lists::run_in_front, crate::proofs::Lists::run_in_back, crate::proofs::Lists::length_both))]
    pub(crate) fn run_from(&self, index: usize) -> &[Arc<T>]
        requires { index < length self.now.0 }
        ensures run { IsRun self.now.0 index result.now }
        ensures some { 0 < length result.now }
    {
        match &self.node {
            Node::Leaf(chunk) => run_of_chunk(chunk, index),
            Node::Fork(branch) => {
                let (left_len, _, left, right) = sides(branch);
                if index < left_len {
                    left.run_from(index)
                } else {
                    right.run_from(index - left_len)
                }
            }
        }
    }

    /// The first items, so many. All chunks but the last of them are shared.
    #[tactic(auto, using(crate::proofs::Lists::first_in_front, crate::proofs::Lists::first_in_back, crate::proofs::Lists::length_both))]
    pub(crate) fn first(&self, alloc: Global, count: usize) -> Result<Tree<T>, AllocError>
        requires { count ≤ length self.now.0 }
        ensures { IfOk result (λ tree. tree.0 ≡ take count self.now.0) }
    {
        match &self.node {
            Node::Leaf(chunk) => {
                let first = first_of_chunk(alloc, chunk, count)?;
                Ok(leaf(first))
            }
            Node::Fork(branch) => {
                let (left_len, _, left, right) = sides(branch);
                if count <= left_len {
                    left.first(alloc, count)
                } else {
                    let left = left.share()?;
                    let ended = right.first(alloc, count - left_len)?;
                    fork(alloc, left, ended)
                }
            }
        }
    }

    /// The items from an index on. All chunks but the one that has the index are shared.
    #[tactic(auto, using(crate::proofs::Lists::rest_in_front, crate::proofs::Lists::rest_in_back, crate::proofs::Lists::length_both))]
    pub(crate) fn rest(&self, alloc: Global, index: usize) -> Result<Tree<T>, AllocError>
        requires { index < length self.now.0 }
        ensures { IfOk result (λ tree. tree.0 ≡ drop index self.now.0) }
    {
        match &self.node {
            Node::Leaf(chunk) => {
                let rest = rest_of_chunk(alloc, chunk, index)?;
                Ok(leaf(rest))
            }
            Node::Fork(branch) => {
                let (left_len, _, left, right) = sides(branch);
                if index < left_len {
                    let begun = left.rest(alloc, index)?;
                    let right = right.share()?;
                    fork(alloc, begun, right)
                } else {
                    right.rest(alloc, index - left_len)
                }
            }
        }
    }

    /// These items and those of a chunk behind them. In a tree that grew from nothing the left side of each fork is full, so
    /// a fork whose sides are of one length is full: it becomes the left side of a new one. In a rest the leftmost sides are
    /// shorter, and no tree is made higher by that.
    #[tactic(auto, using(crate::proofs::Lists::append_associates, crate::proofs::Lists::length_both))]
    pub(crate) fn append(&self, alloc: Global, chunk: Chunk<T>) -> Result<Tree<T>, AllocError>
        ensures { IfOk result (λ tree. tree.0 ≡ self.now.0 ++ chunk_items chunk) }
    {
        match &self.node {
            Node::Leaf(_) => {
                let same = self.share()?;
                fork(alloc, same, leaf(chunk))
            }
            Node::Fork(branch) => {
                let (left_len, len, left, right) = sides(branch);
                if len - left_len == left_len {
                    let same = self.share()?;
                    fork(alloc, same, leaf(chunk))
                } else {
                    let left = left.share()?;
                    let right = right.append(alloc, chunk)?;
                    fork(alloc, left, right)
                }
            }
        }
    }
}
