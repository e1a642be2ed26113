//! Trees of entries.
ghost use Rattle.std.specs.Prelude.{◌≡◌, ℕ, ◌+◌, ◌/◌, ◌^◌, ◌<◌, ◌≤◌, ◌++◌, IfOk, OnErr, OnOk, IsTrue, MatchOption};
ghost use Rattle.std.specs.Option.{option_copied};
ghost use Rattle.std.specs.FinMap as map;
ghost use Rattle.ref_pmap.specs.Joined.{single};
ghost use Rattle.ref_pmap.specs.Trees.{IsFork, all_joined, height, no_sides, side_map};
ghost use Rattle.ref_pmap.specs.Whole.{shown};

use crate::blocks::{Block, Parting, SIDES, parting_of};
use std::alloc::{AllocError, Global};
use std::marker::Model;
use std::sync::Arc;
use std::{array, mem};

/// A tree of entries. Contracts see the entries as a map, and the height.
#[cycle(tree)]
#[derive(Drop)]
pub(crate) struct Tree<V> {
    node: Node<V>,
}

#[cycle(tree)]
#[derive(Drop)]
enum Node<V> {
    Empty,
    Leaf(Arc<Entry<V>>),
    Fork(Arc<Branch<V>>),
}

#[derive(Drop)]
struct Entry<V> {
    key: u32,
    value: V,
}

#[cycle(tree)]
#[derive(Drop)]
struct Branch<V> {
    block: Block,
    sides: [Tree<V>; SIDES],
}

impl<V> Model for Tree<V> {
    ghost use Rattle.std.specs.Prelude.{ℕ};
    ghost use Rattle.std.specs.Ordering.{nat_cmp};
    ghost use Rattle.std.specs.FinMap as map;
    ghost use Rattle.std.specs.Coded.{coded_ℕ, coded×};

    ghost Value = { map.FinMap nat_cmp V × ℕ };

    ghost coded = { coded× (map.code coded_ℕ V.code) coded_ℕ };

    ghost use Rattle.ref_pmap.specs.Nodes.{tree_of, IsTree};

    ghost view = { λ a. tree_of a.node };

    ghost invariant = { λ a. IsTree a.node };

    ghost size = { λ t. t.1 };

    ghost use Rattle.ref_pmap.specs.Falls.{falls};

    ghost size_decreases = { λ a h. falls a.node };
}

impl<V: Drop> Branch<V> {
    // A fork without entries. It is no tree yet.
    fn bare(block: Block) -> Branch<V>
        ensures { result ≡ record { block = block; sides = no_sides } }
    {
        Branch {
            block,
            sides: array::from_fn(|_| Tree::empty()),
        }
    }

    // The same fork once more, which shares the sides.
    fn copied(&self) -> Result<Branch<V>, AllocError>
        requires { IsFork self.now.block self.now.sides }
        ensures { IfOk result (λ branch. branch ≡ self.now) }
    {
        let mut copy = Branch::bare(self.block);
        for i in 0..SIDES {
            copy.sides[i] = self.sides[i].share()?;
        }
        Ok(copy)
    }

    // A side such that all others are empty, if there is one.
    fn only_side(&self) -> Option<usize>
        requires { IsFork self.now.block self.now.sides }
        ensures { MatchOption result (Unit {0}) (λ i. (i < 16) × ((j : ℕ) → (j ≡ i → ⊥) → side_map self.now.sides j ≡ map.empty)) }
    {
        let mut only = None;
        for i in 0..SIDES {
            if self.sides[i].is_empty() {
                continue;
            }
            if only.is_some() {
                return None;
            }
            only = Some(i);
        }
        only.or(Some(0))
    }

    // The tree of the entries: a fork, where more than one side has any.
    fn into_tree(mut self, alloc: Global) -> Result<Tree<V>, AllocError>
        requires { IsFork self.block self.sides }
        ensures { IfOk result (λ t. t.0 ≡ all_joined self.sides) }
    {
        match self.only_side() {
            Some(side) => Ok(mem::replace(&mut self.sides[side], Tree::empty())),
            None => fork(alloc, self),
        }
    }
}

fn leaf<V: Drop>(alloc: Global, key: u32, value: V) -> Result<Tree<V>, AllocError>
    ensures { IfOk result (λ t. t ≡ (single key value, 0)) }
{
    let entry = Arc::new(alloc, Entry { key, value })?;
    Ok(Tree {
        node: Node::Leaf(entry),
    })
}

fn fork<V: Drop>(alloc: Global, branch: Branch<V>) -> Result<Tree<V>, AllocError>
    requires { IsFork branch.block branch.sides }
    ensures { IfOk result (λ t. t ≡ (all_joined branch.sides, height branch.sides)) }
{
    let branch = Arc::new(alloc, branch)?;
    Ok(Tree {
        node: Node::Fork(branch),
    })
}

impl<V: Drop> Tree<V> {
    /// A tree without entries.
    pub(crate) fn empty() -> Tree<V>
        ensures { result ≡ (map.empty, 0) }
    {
        Tree { node: Node::Empty }
    }

    fn is_empty(&self) -> bool
        ensures { IsTrue result → self.now.0 ≡ map.empty }
    {
        matches!(&self.node, Node::Empty)
    }

    pub(crate) fn share(&self) -> Result<Tree<V>, AllocError>
        ensures { IfOk result (λ t. t ≡ self.now) }
    {
        let node = match &self.node {
            Node::Empty => Node::Empty,
            Node::Leaf(entry) => Node::Leaf(Arc::try_clone(entry)?),
            Node::Fork(branch) => Node::Fork(Arc::try_clone(branch)?),
        };
        Ok(Tree { node })
    }

    #[tactic(auto, using(crate::proofs::Sides::get_here, crate::proofs::Sides::get_outside, crate::proofs::Joins::get_single))]
    pub(crate) fn get(&self, key: u32) -> Option<&V>
        ensures { option_copied result ≡ map.get self.now.0 key }
    {
        match &self.node {
            Node::Empty => None,
            Node::Leaf(entry) => {
                if entry.key == key {
                    Some(&entry.value)
                } else {
                    None
                }
            }
            Node::Fork(branch) => {
                let branch = &**branch;
                match branch.block.side_of(key) {
                    Some(side) => branch.sides[side].get(key),
                    None => None,
                }
            }
        }
    }

    // A fork of this tree and of a leaf for a key that has another side.
    #[inline(never)]
    fn widened(
        &self,
        alloc: Global,
        parting: Parting,
        key: u32,
        value: V,
    ) -> Result<Tree<V>, AllocError>
        requires old { (q : ℕ) → (q / 2 ^ parting.block.shift ≡ parting.block.first + parting.old_side → ⊥)
            → map.get self.now.0 q ≡ None }
        requires new { key / 2 ^ parting.block.shift ≡ parting.block.first + parting.new_side }
        ensures { IfOk result (λ t. t.0 ≡ map.insert self.now.0 key value) }
    {
        let mut branch = Branch::bare(parting.block);
        branch.sides[parting.old_side] = self.share()?;
        branch.sides[parting.new_side] = leaf(alloc, key, value)?;
        fork(alloc, branch)
    }

    /// Puts this value at the key. On its way there, what has other owners is copied, and the rest changed in place.
    #[cycle(put)]
    pub(crate) fn put(&mut self, alloc: Global, key: u32, value: V) -> Result<(), AllocError>
        ensures ok { OnOk result (self.new.0 ≡ map.insert self.old.0 key value) }
        ensures err { OnErr result (self.new ≡ self.old) }
    {
        match &mut self.node {
            Node::Empty => {
                *self = leaf(alloc, key, value)?;
            }
            Node::Leaf(entry) => {
                let old = entry.key;
                if old != key {
                    let parting = parting_of(0, old, key);
                    *self = self.widened(alloc, parting, key, value)?;
                    return Ok(());
                }
                put_value(entry, alloc, value)?;
            }
            Node::Fork(branch) => {
                let block = branch.block;
                let Some(side) = block.side_of(key) else {
                    let parting = block.parting_from(key);
                    *self = self.widened(alloc, parting, key, value)?;
                    return Ok(());
                };
                put_in_side(branch, alloc, side, key, value)?;
            }
        }
        Ok(())
    }

    /// The tree without the key.
    pub(crate) fn without(&self, alloc: Global, key: u32) -> Result<Tree<V>, AllocError>
        ensures { IfOk result (λ t. t.0 ≡ map.remove self.now.0 key) }
    {
        match &self.node {
            Node::Empty => Ok(Tree::empty()),
            Node::Leaf(entry) => {
                if entry.key == key {
                    Ok(Tree::empty())
                } else {
                    self.share()
                }
            }
            Node::Fork(branch) => {
                let branch = &**branch;
                let Some(side) = branch.block.side_of(key) else {
                    return self.share();
                };
                let rest = branch.sides[side].without(alloc, key)?;
                let mut copy = branch.copied()?;
                copy.sides[side] = rest;
                copy.into_tree(alloc)
            }
        }
    }
}

// Puts another value into an entry.
fn put_value<V: Drop>(entry: &mut Arc<Entry<V>>, alloc: Global, value: V) -> Result<(), AllocError>
    ensures ok { OnOk result (entry.new.value ≡ record { key = entry.old.value.key; value = value }) }
    ensures err { OnErr result (entry.new.value ≡ entry.old.value) }
{
    if let Some(own) = Arc::get_mut(entry) {
        own.value = value;
        return Ok(());
    }
    let key = entry.key;
    *entry = Arc::new(alloc, Entry { key, value })?;
    Ok(())
}

// Puts a value at a key that belongs to this side of a fork.
#[cycle(put)]
fn put_in_side<V: Drop>(
    branch: &mut Arc<Branch<V>>,
    alloc: Global,
    side: usize,
    key: u32,
    value: V,
) -> Result<(), AllocError>
    requires fork { IsFork branch.old.value.block branch.old.value.sides }
    requires within { side < 16 }
    requires place { key / 2 ^ branch.old.value.block.shift ≡ branch.old.value.block.first + side }
    ensures fork { IsFork branch.new.value.block branch.new.value.sides }
    ensures ok { OnOk result (all_joined branch.new.value.sides ≡ map.insert (all_joined branch.old.value.sides) key value) }
    ensures err { OnErr result (branch.new.value ≡ branch.old.value) }
{
    if let Some(own) = Arc::get_mut(branch) {
        return own.sides[side].put(alloc, key, value);
    }
    *branch = put_in_copy(branch, alloc, side, key, value)?;
    Ok(())
}

// The same fork once more, with a value put at a key that belongs to this side. A function of its own, since a function clears the memory of
// its locals where it begins, and those of this one are large.
#[inline(never)]
#[cycle(put)]
fn put_in_copy<V: Drop>(
    branch: &Branch<V>,
    alloc: Global,
    side: usize,
    key: u32,
    value: V,
) -> Result<Arc<Branch<V>>, AllocError>
    requires fork { IsFork branch.now.block branch.now.sides }
    requires within { side < 16 }
    requires place { key / 2 ^ branch.now.block.shift ≡ branch.now.block.first + side }
    ensures fork { IfOk result (λ copy. IsFork copy.value.block copy.value.sides) }
    ensures ok { IfOk result (λ copy. all_joined copy.value.sides ≡ map.insert (all_joined branch.now.sides) key value) }
{
    let mut copy = branch.copied()?;
    copy.sides[side].put(alloc, key, value)?;
    let copy = Arc::new(alloc, copy)?;
    Ok(copy)
}

/// Puts the tree's entries, in the order of their keys, behind those that are there.
pub(crate) fn add_entries<'a, V: Drop>(
    tree: &'a Tree<V>,
    out: &mut Vec<(u32, &'a V)>,
) -> Result<(), AllocError>
    ensures { OnOk result (shown out.new.items ≡ shown out.old.items ++ map.entries tree.now.0) }
{
    match &tree.node {
        Node::Empty => Ok(()),
        Node::Leaf(entry) => {
            let entry = &**entry;
            out.push((entry.key, &entry.value))?;
            Ok(())
        }
        Node::Fork(branch) => {
            let branch = &**branch;
            for side in &branch.sides {
                add_entries(side, out)?;
            }
            Ok(())
        }
    }
}
