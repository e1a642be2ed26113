//! Trees with one member more, one less, or another one. A refusal changes nothing.
ghost use Rattle.std.specs.Prelude.{◌≡◌, ◌+◌, ◌<◌, ◌≤◌, [], ◌∷◌, ◌++◌, length, insert, remove, slice_set, IfOk, IfSome, OnOk, OnErr};
ghost use Rattle.ref_value.specs.Chunks.{members_of};
ghost use Rattle.ref_value.specs.Moves.{member_of};

use crate::data::Value;
use crate::sequence::chunks::{Chunk, Member, WIDTH, insert_in, remove_in, replace_in};
use crate::sequence::trees::{Limb, Tree, fork, leaf};
use crate::vectors::larger;
use std::alloc::{AllocError, Global};
use std::sync::Arc;

impl Member {
    // A chunk of this alone, with room for others behind it.
    fn alone(self, alloc: Global) -> Result<Chunk, AllocError>
        ensures { IfOk result (λ c. members_of c ≡ member_of self ∷ []) }
    {
        match self {
            Member::One(x) => {
                let mut values = Vec::with_capacity(alloc, WIDTH)?;
                values.push(x)?;
                Ok(Chunk::Values(values))
            }
            Member::Two(key, x) => {
                let mut pairs = Vec::with_capacity(alloc, WIDTH)?;
                pairs.push((key, x))?;
                Ok(Chunk::Pairs(pairs))
            }
        }
    }
}

// A chunk with one more member.
fn grown(chunk: Chunk, i: usize, member: Member) -> Result<Chunk, AllocError>
    requires { i ≤ length (members_of chunk) }
    ensures { IfOk result (λ c. members_of c ≡ insert (members_of chunk) i (member_of member)) }
{
    let mut chunk = chunk;
    let mut deepest = chunk.deepest();
    insert_in(&mut deepest, &mut chunk, i, member)?;
    Ok(chunk)
}

fn leaves(alloc: Global, mark: bool, left: Chunk, right: Chunk) -> Result<Tree, AllocError>
    ensures members { IfOk result (λ t. t.0 ≡ members_of left ++ members_of right) }
    ensures mark { IfOk result (λ t. t.2 ≡ mark) }
{
    let left = leaf(alloc, mark, left)?;
    let right = leaf(alloc, mark, right)?;
    fork(alloc, left, right)
}

// The members of a full chunk and one more, in two leaves.
#[tactic(auto, using(crate::proofs::Pieces::parts_left, crate::proofs::Pieces::parts_right, crate::proofs::Pieces::length_taken, crate::proofs::Pieces::length_dropped))]
fn halves(
    alloc: Global,
    mark: bool,
    chunk: &Chunk,
    middle: usize,
    i: usize,
    member: Member,
) -> Result<Tree, AllocError>
    requires middle { middle ≤ length (members_of chunk.now) }
    requires place { i ≤ length (members_of chunk.now) }
    ensures members { IfOk result (λ t. t.0 ≡ insert (members_of chunk.now) i (member_of member)) }
    ensures mark { IfOk result (λ t. t.2 ≡ mark) }
{
    let left = chunk.front(alloc, middle, WIDTH)?;
    let right = chunk.back(alloc, middle, WIDTH)?;
    if i <= middle {
        let left = grown(left, i, member)?;
        leaves(alloc, mark, left, right)
    } else {
        let right = grown(right, i - middle, member)?;
        leaves(alloc, mark, left, right)
    }
}

impl Tree {
    // The chunk of a leaf that has no room.
    fn full_leaf(&self) -> Option<&Chunk>
        ensures { IfSome result (λ c. members_of c.now ≡ self.now.0) }
    {
        match &*self.limb {
            Limb::Leaf(_, _, chunk) => {
                if chunk.len() < WIDTH {
                    None
                } else {
                    Some(chunk)
                }
            }
            Limb::Fork { .. } => None,
        }
    }

    // A full leaf and one more member, as two leaves. A leaf behind which it goes stays as it is.
    #[tactic(auto, using(crate::proofs::Pieces::insert_end))]
    fn split(
        &self,
        alloc: Global,
        chunk: &Chunk,
        i: usize,
        member: Member,
    ) -> Result<Tree, AllocError>
        requires place { i ≤ length self.now.0 }
        requires chunk { members_of chunk.now ≡ self.now.0 }
        ensures members { IfOk result (λ t. t.0 ≡ insert self.now.0 i (member_of member)) }
        ensures mark { IfOk result (λ t. t.2 ≡ self.now.2) }
    {
        let len = chunk.len();
        if i == len {
            let last = leaf(alloc, self.mark(), member.alone(alloc)?)?;
            let same = self.share()?;
            fork(alloc, same, last)
        } else {
            halves(alloc, self.mark(), chunk, len / 2, i, member)
        }
    }

    /// Puts a member in. On its way there, what has other owners is copied.
    #[tactic(auto, using(crate::proofs::Pieces::insert_left, crate::proofs::Pieces::insert_right, crate::proofs::Pieces::insert_length, crate::proofs::Pieces::length_both, crate::proofs::Edited::deepest_both))]
    pub(crate) fn insert(
        &mut self,
        alloc: Global,
        i: usize,
        member: Member,
    ) -> Result<(), AllocError>
        requires { i ≤ length self.old.0 }
        ensures ok { OnOk result (self.new.0 ≡ insert self.old.0 i (member_of member)) }
        ensures height { self.new.1 ≤ self.old.1 + 1 }
        ensures mark { self.new.2 ≡ self.old.2 }
        ensures err { OnErr result (self.new ≡ self.old) }
    {
        if let Some(chunk) = self.full_leaf() {
            let more = self.split(alloc, chunk, i, member)?;
            if more.height() > self.height().saturating_add(1) {
                return Err(AllocError);
            }
            *self = more;
            return Ok(());
        }
        self.unshare(alloc)?;
        let Some(limb) = Arc::get_mut(&mut self.limb) else {
            return Err(AllocError);
        };
        match limb {
            Limb::Leaf(deepest, _, chunk) => {
                insert_in(deepest, chunk, i, member)?;
            }
            Limb::Fork {
                deepest,
                height,
                len,
                left,
                right,
                ..
            } => {
                let Some(more) = len.checked_add(1) else {
                    return Err(AllocError);
                };
                if *height == 255 {
                    return Err(AllocError);
                }
                let before = left.len();
                if i <= before {
                    left.insert(alloc, i, member)?;
                } else {
                    right.insert(alloc, i - before, member)?;
                }
                *len = more;
                *height = larger(left.height(), right.height()) + 1;
                *deepest = larger(left.deepest(), right.deepest());
            }
        }
        self.mend(alloc);
        Ok(())
    }

    /// Replaces a pair by another. On its way there, what has other owners is copied.
    #[tactic(auto, using(crate::proofs::Pieces::set_left, crate::proofs::Pieces::set_right, crate::proofs::Pieces::set_length, crate::proofs::Pieces::length_both, crate::proofs::Edited::deepest_both))]
    pub(crate) fn replace(
        &mut self,
        alloc: Global,
        i: usize,
        key: Value,
        x: Value,
    ) -> Result<(), AllocError>
        requires { i < length self.old.0 }
        ensures ok { OnOk result (self.new.0 ≡ slice_set self.old.0 i (key, x)) }
        ensures height { self.new.1 ≡ self.old.1 }
        ensures mark { self.new.2 ≡ self.old.2 }
        ensures err { OnErr result (self.new ≡ self.old) }
    {
        self.unshare(alloc)?;
        let Some(limb) = Arc::get_mut(&mut self.limb) else {
            return Err(AllocError);
        };
        match limb {
            Limb::Leaf(deepest, _, chunk) => {
                replace_in(deepest, chunk, i, key, x)?;
            }
            Limb::Fork {
                deepest,
                left,
                right,
                ..
            } => {
                let before = left.len();
                if i < before {
                    left.replace(alloc, i, key, x)?;
                } else {
                    right.replace(alloc, i - before, key, x)?;
                }
                *deepest = larger(left.deepest(), right.deepest());
            }
        }
        Ok(())
    }

    /// Takes a member out. On its way there, what has other owners is copied.
    #[tactic(auto, using(crate::proofs::Pieces::remove_left, crate::proofs::Pieces::remove_right, crate::proofs::Pieces::remove_length, crate::proofs::Pieces::length_both, crate::proofs::Edited::deepest_both))]
    pub(crate) fn remove(&mut self, alloc: Global, i: usize) -> Result<(), AllocError>
        requires { i < length self.old.0 }
        ensures ok { OnOk result (self.new.0 ≡ remove self.old.0 i) }
        ensures height { self.new.1 ≤ self.old.1 }
        ensures mark { self.new.2 ≡ self.old.2 }
        ensures err { OnErr result (self.new ≡ self.old) }
    {
        self.unshare(alloc)?;
        let Some(limb) = Arc::get_mut(&mut self.limb) else {
            return Err(AllocError);
        };
        match limb {
            Limb::Leaf(deepest, _, chunk) => {
                remove_in(deepest, chunk, i)?;
            }
            Limb::Fork {
                deepest,
                height,
                len,
                left,
                right,
                ..
            } => {
                // The type says that it fits.
                let _height = *height;
                let before = left.len();
                if i < before {
                    left.remove(alloc, i)?;
                } else {
                    right.remove(alloc, i - before)?;
                }
                *len -= 1;
                *height = larger(left.height(), right.height()) + 1;
                *deepest = larger(left.deepest(), right.deepest());
            }
        }
        self.mend(alloc);
        Ok(())
    }
}
