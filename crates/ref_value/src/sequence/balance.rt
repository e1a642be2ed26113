//! Trees whose sides are put right after a change.
ghost use Rattle.std.specs.Prelude.{◌≡◌, ◌≤◌, ◌++◌, IfOk, IfSome};
ghost use Rattle.ref_value.specs.Chunks.{members_of};

use crate::sequence::chunks::{Chunk, WIDTH};
use crate::sequence::trees::{Limb, Tree, fork, leaf};
use std::alloc::{AllocError, Global};

// `a (b c)`
fn fork_right(alloc: Global, a: &Tree, b: &Tree, c: &Tree) -> Result<Tree, AllocError>
    ensures { IfOk result (λ t. t.0 ≡ a.now.0 ++ (b.now.0 ++ c.now.0)) }
{
    let right = fork(alloc, b.share()?, c.share()?)?;
    fork(alloc, a.share()?, right)
}

// `(a b) c`
fn fork_left(alloc: Global, a: &Tree, b: &Tree, c: &Tree) -> Result<Tree, AllocError>
    ensures { IfOk result (λ t. t.0 ≡ (a.now.0 ++ b.now.0) ++ c.now.0) }
{
    let left = fork(alloc, a.share()?, b.share()?)?;
    fork(alloc, left, c.share()?)
}

// `(a b) (c d)`
fn fork_twice(alloc: Global, a: &Tree, b: &Tree, c: &Tree, d: &Tree) -> Result<Tree, AllocError>
    ensures { IfOk result (λ t. t.0 ≡ (a.now.0 ++ b.now.0) ++ (c.now.0 ++ d.now.0)) }
{
    let left = fork(alloc, a.share()?, b.share()?)?;
    let right = fork(alloc, c.share()?, d.share()?)?;
    fork(alloc, left, right)
}

// A fork of these, where the left side is the higher one: once to the right, or once to the left and once to the right.
#[tactic(auto, using(crate::proofs::Pieces::append_assoc_named))]
fn rotated_right(alloc: Global, left: &Tree, right: &Tree) -> Result<Tree, AllocError>
    ensures { IfOk result (λ t. t.0 ≡ left.now.0 ++ right.now.0) }
{
    let Limb::Fork {
        left: a,
        right: b,
        ..
    } = &*left.limb
    else {
        return Err(AllocError);
    };
    if b.height() <= a.height() {
        return fork_right(alloc, a, b, right);
    }
    let Limb::Fork {
        left: c,
        right: d,
        ..
    } = &*b.limb
    else {
        return Err(AllocError);
    };
    fork_twice(alloc, a, c, d, right)
}

// A fork of these, where the right side is the higher one.
#[tactic(auto, using(crate::proofs::Pieces::append_assoc_named))]
fn rotated_left(alloc: Global, left: &Tree, right: &Tree) -> Result<Tree, AllocError>
    ensures { IfOk result (λ t. t.0 ≡ left.now.0 ++ right.now.0) }
{
    let Limb::Fork {
        left: a,
        right: b,
        ..
    } = &*right.limb
    else {
        return Err(AllocError);
    };
    if a.height() <= b.height() {
        return fork_left(alloc, left, a, b);
    }
    let Limb::Fork {
        left: c,
        right: d,
        ..
    } = &*a.limb
    else {
        return Err(AllocError);
    };
    fork_twice(alloc, left, c, d, b)
}

// One leaf, where these are two that leave half of it free.
fn merged(alloc: Global, left: &Tree, right: &Tree) -> Option<Tree>
    ensures { IfSome result (λ t. t.0 ≡ left.now.0 ++ right.now.0) }
{
    let Limb::Leaf(_, mark, a) = &*left.limb else {
        return None;
    };
    let Limb::Leaf(_, _, b) = &*right.limb else {
        return None;
    };
    if a.len().saturating_add(b.len()) > WIDTH / 2 {
        return None;
    }
    let chunk = Chunk::joined(alloc, a, b).ok()?;
    leaf(alloc, *mark, chunk).ok()
}

impl Tree {
    /// Where a side is empty, or higher than the other by more than one, or both are small leaves, sets that right, if
    /// there is memory.
    pub(super) fn mend(&mut self, alloc: Global)
        ensures members { self.new.0 ≡ self.old.0 }
        ensures height { self.new.1 ≤ self.old.1 }
        ensures mark { self.new.2 ≡ self.old.2 }
    {
        if let Some(tree) = self.mended(alloc) {
            if tree.height() <= self.height() && tree.mark() == self.mark() {
                *self = tree;
            }
        }
    }

    fn mended(&self, alloc: Global) -> Option<Tree>
        ensures { IfSome result (λ t. t.0 ≡ self.now.0) }
    {
        let Limb::Fork { left, right, .. } = &*self.limb else {
            return None;
        };
        if let Some(tree) = merged(alloc, left, right) {
            return Some(tree);
        }
        let (a, b) = (left.height(), right.height());
        if a > b.saturating_add(1) {
            return rotated_right(alloc, left, right).ok();
        }
        if b > a.saturating_add(1) {
            return rotated_left(alloc, left, right).ok();
        }
        if left.len() == 0 {
            return right.share().ok();
        }
        if right.len() == 0 {
            return left.share().ok();
        }
        None
    }
}
