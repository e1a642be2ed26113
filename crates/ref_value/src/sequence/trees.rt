//! Trees of chunks.
ghost use Rattle.std.specs.Prelude.{◌≡◌, ◌+◌, ◌<◌, ◌≤◌, List, [], ◌++◌, length, slice_index_or, take, drop, IfOk, OnOk};
ghost use Rattle.ref_value.specs.Edn.{Edn};
ghost use Rattle.ref_value.specs.Chunks.{members_of};
ghost use Rattle.ref_value.specs.Deepest.{IsDeepestEntry};
ghost use Rattle.ref_value.specs.Members.{twins};
ghost use Rattle.ref_value.specs.Moves.{rest_of, rest_len, run_of};

use crate::data::Value;
use crate::sequence::chunks::{Chunk, Rest, Run, WIDTH};
use crate::vectors::larger;
use std::alloc::{AllocError, Global};
use std::marker::Model;
use std::mem;
use std::sync::Arc;

/// Members in order. Contracts see them as pairs, with the height and the mark.
///
/// A mark is what the owner of the tree stores with it; it stays the same in each change.
#[cycle(value)]
#[derive(Drop)]
pub(crate) struct Tree {
    pub(super) limb: Arc<Limb>,
}

/// A node: how deep the deepest member is and the mark; for a fork also its height and how many members it has.
#[cycle(value)]
#[derive(Drop)]
pub(super) enum Limb {
    Leaf(u8, bool, Chunk),
    Fork {
        deepest: u8,
        mark: bool,
        height: u8,
        len: usize,
        left: Tree,
        right: Tree,
    },
}

impl Model for Tree {
    ghost use Rattle.std.specs.Prelude.{List, ℕ, Bool, ◌*◌, ◌+◌};
    ghost use Rattle.ref_value.specs.Edn.{Edn, entries_of, entries_depth};
    ghost use Rattle.ref_value.specs.TreeCode.{tree_code};

    ghost Value = { List (Edn × Edn) × ℕ × Bool };

    ghost coded = { tree_code };

    ghost use Rattle.ref_value.specs.Trees.{tree_of, IsTree};

    ghost view = { λ a. tree_of a.limb.value };

    ghost invariant = { λ a. IsTree a.limb.value };

    ghost size = { λ t. 300 * entries_depth (entries_of t.0) + t.1 + 1 };

    ghost use Rattle.ref_value.specs.TreeFalls.{tree_falls};

    ghost size_decreases = { λ a h. tree_falls a.limb.value };
}

pub(super) fn leaf(alloc: Global, mark: bool, chunk: Chunk) -> Result<Tree, AllocError>
    ensures members { IfOk result (λ t. t.0 ≡ members_of chunk) }
    ensures mark { IfOk result (λ t. t.2 ≡ mark) }
{
    let deepest = chunk.deepest();
    Ok(Tree {
        limb: Arc::new(alloc, Limb::Leaf(deepest, mark, chunk))?,
    })
}

/// A tree of two, with the mark of the first.
#[tactic(auto, using(crate::proofs::Pieces::length_both, crate::proofs::Edited::deepest_both))]
pub(super) fn fork(alloc: Global, left: Tree, right: Tree) -> Result<Tree, AllocError>
    ensures members { IfOk result (λ t. t.0 ≡ left.0 ++ right.0) }
    ensures mark { IfOk result (λ t. t.2 ≡ left.2) }
{
    let Some(len) = left.len().checked_add(right.len()) else {
        return Err(AllocError);
    };
    let Some(height) = larger(left.height(), right.height()).checked_add(1) else {
        return Err(AllocError);
    };
    let deepest = larger(left.deepest(), right.deepest());
    let mark = left.mark();
    Ok(Tree {
        limb: Arc::new(
            alloc,
            Limb::Fork {
                deepest,
                mark,
                height,
                len,
                left,
                right,
            },
        )?,
    })
}

// The same items without room for more. They move into a block of just their size, and the other one is dropped whole, so
// that the next collection can be read into it; cut to size, it would leave a piece that is of use to nobody.
fn fitted<T: Drop>(items: Vec<T>) -> Result<Vec<T>, AllocError>
    ensures { IfOk result (λ v. v.items ≡ items.items) }
{
    if items.capacity() == items.len() {
        return Ok(items);
    }
    let mut items = items;
    items.split_off(0)
}

// Up to a chunk's width of values, as a chunk without room for more.
#[tactic(auto, using(crate::proofs::Pieces::alone_is))]
fn value_chunk(values: Vec<Value>) -> Result<Chunk, AllocError>
    ensures { IfOk result (λ c. members_of c ≡ twins values.items) }
{
    if values.len() != 1 {
        return Ok(Chunk::Values(fitted(values)?));
    }
    let mut values = values;
    Ok(Chunk::One(values.remove(0)))
}

// The same of a list, whose room stays.
#[tactic(auto, using(crate::proofs::Pieces::alone_is))]
fn drained_chunk(list: &mut Vec<Value>) -> Result<Chunk, AllocError>
    ensures { IfOk result (λ c. members_of c ≡ twins list.old.items) }
{
    if list.len() != 1 {
        return Ok(Chunk::Values(list.split_off(0)?));
    }
    Ok(Chunk::One(list.remove(0)))
}

// Where so many members are cut into chunks, what has become chunks is given back on the way, so that they don't take their
// room twice.
const MANY: usize = 65_536;

// The last members, as a tree whose chunks are full, but for the last.
#[tactic(auto, using(crate::proofs::Pieces::append_assoc_named))]
fn built(alloc: Global, mark: bool, rest: &mut Rest, n: usize) -> Result<Tree, AllocError>
    requires { n ≤ rest_len rest.old }
    ensures members { IfOk result (λ t. rest_of rest.old ≡ rest_of rest.new ++ t.0) }
    ensures mark { IfOk result (λ t. t.2 ≡ mark) }
    ensures len { OnOk result (rest_len rest.new + n ≡ rest_len rest.old) }
{
    if n <= WIDTH {
        let chunk = rest.chunk(n)?;
        return leaf(alloc, mark, chunk);
    }
    let chunks = n / WIDTH;
    let first = ((chunks + 1) / 2) * WIDTH;
    let right = built(alloc, mark, rest, n - first)?;
    if n > MANY {
        rest.trim();
    }
    let left = built(alloc, mark, rest, first)?;
    fork(alloc, left, right)
}

impl Tree {
    /// The values of a `Vec`, each with itself. Up to a chunk's width the `Vec` itself is the chunk where it has no room
    /// left.
    pub(crate) fn of_values(
        alloc: Global,
        mark: bool,
        values: Vec<Value>,
    ) -> Result<Tree, AllocError>
        ensures members { IfOk result (λ t. t.0 ≡ twins values.items) }
        ensures mark { IfOk result (λ t. t.2 ≡ mark) }
    {
        let n = values.len();
        if n <= WIDTH {
            let chunk = value_chunk(values)?;
            return leaf(alloc, mark, chunk);
        }
        let mut rest = Rest::Values(values);
        built(alloc, mark, &mut rest, n)
    }

    /// The values of a list, each with itself, which leave it. Up to a chunk's width leave it its room.
    pub(crate) fn drained(
        alloc: Global,
        mark: bool,
        list: &mut Vec<Value>,
    ) -> Result<Tree, AllocError>
        ensures members { IfOk result (λ t. t.0 ≡ twins list.old.items) }
        ensures mark { IfOk result (λ t. t.2 ≡ mark) }
    {
        if list.len() > WIDTH {
            return Tree::of_values(alloc, mark, mem::replace(list, Vec::new(alloc)));
        }
        let chunk = drained_chunk(list)?;
        leaf(alloc, mark, chunk)
    }

    /// The pairs of a `Vec`, as `of_values` has values.
    pub(crate) fn of_pairs(
        alloc: Global,
        mark: bool,
        pairs: Vec<(Value, Value)>,
    ) -> Result<Tree, AllocError>
        ensures members { IfOk result (λ t. t.0 ≡ pairs.items) }
        ensures mark { IfOk result (λ t. t.2 ≡ mark) }
    {
        let n = pairs.len();
        if n <= WIDTH {
            return leaf(alloc, mark, Chunk::Pairs(fitted(pairs)?));
        }
        let mut rest = Rest::Pairs(pairs);
        built(alloc, mark, &mut rest, n)
    }

    pub(crate) fn len(&self) -> usize
        ensures { result ≡ length self.now.0 }
    {
        match &*self.limb {
            Limb::Leaf(_, _, chunk) => chunk.len(),
            Limb::Fork { len, .. } => *len,
        }
    }

    pub(crate) fn height(&self) -> u8
        ensures { result ≡ self.now.1 }
    {
        match &*self.limb {
            Limb::Leaf(_, _, _) => 0,
            Limb::Fork { height, .. } => *height,
        }
    }

    pub(crate) fn mark(&self) -> bool
        ensures { result ≡ self.now.2 }
    {
        match &*self.limb {
            Limb::Leaf(_, mark, _) => *mark,
            Limb::Fork { mark, .. } => *mark,
        }
    }

    /// The depth of the deepest member.
    pub(crate) fn deepest(&self) -> u8
        ensures { IsDeepestEntry result self.now.0 }
    {
        match &*self.limb {
            Limb::Leaf(deepest, _, _) => *deepest,
            Limb::Fork { deepest, .. } => *deepest,
        }
    }

    /// One more owner. It takes no memory; only the count of owners can refuse.
    pub(crate) fn share(&self) -> Result<Tree, AllocError>
        ensures { IfOk result (λ t. t ≡ self.now) }
    {
        Ok(Tree {
            limb: Arc::try_clone(&self.limb)?,
        })
    }

    #[tactic(auto, using(crate::proofs::Pieces::at_left, crate::proofs::Pieces::at_right, crate::proofs::Pieces::length_both))]
    pub(crate) fn pair_at(&self, i: usize) -> (&Value, &Value)
        requires { i < length self.now.0 }
        ensures { let entry : Edn × Edn = (result.0.now, result.1.now) in entry ≡ slice_index_or self.now.0 i entry }
    {
        match &*self.limb {
            Limb::Leaf(_, _, chunk) => chunk.pair_at(i),
            Limb::Fork { left, right, .. } => {
                let before = left.len();
                if i < before {
                    left.pair_at(i)
                } else {
                    right.pair_at(i - before)
                }
            }
        }
    }

    /// The members from a place on to the end of their chunk.
    #[tactic(auto, using(crate::proofs::Pieces::run_whole, crate::proofs::Pieces::run_some, crate::proofs::Pieces::run_left, crate::proofs::Pieces::run_right, crate::proofs::Pieces::length_both))]
    pub(crate) fn run_from(&self, i: usize) -> Run<'_>
        requires { i < length self.now.0 }
        ensures some { 0 < length (run_of result) }
        ensures members { run_of result ≡ take (length (run_of result)) (drop i self.now.0) }
    {
        match &*self.limb {
            Limb::Leaf(_, _, chunk) => chunk.run_from(i),
            Limb::Fork { left, right, .. } => {
                let before = left.len();
                if i < before {
                    left.run_from(i)
                } else {
                    right.run_from(i - before)
                }
            }
        }
    }

    /// How many of the first members are seen to be the same in both at a glance: as far as the trees have one shape, and no
    /// member is a collection.
    #[tactic(auto, using(crate::proofs::Pieces::length_both, crate::proofs::Pieces::same_left, crate::proofs::Pieces::same_right))]
    pub(crate) fn same_first(&self, other: &Tree) -> usize
        ensures there { (result ≤ length self.now.0) × (result ≤ length other.now.0) }
        ensures same { take result self.now.0 ≡ take result other.now.0 }
    {
        match &*self.limb {
            Limb::Leaf(_, _, chunk) => match &*other.limb {
                Limb::Leaf(_, _, others) => chunk.same_first(others),
                Limb::Fork { .. } => 0,
            },
            Limb::Fork { left, right, .. } => match &*other.limb {
                Limb::Leaf(_, _, _) => 0,
                Limb::Fork {
                    left: other_left,
                    right: other_right,
                    ..
                } => {
                    let n = left.same_first(other_left);
                    if n < left.len() {
                        return n;
                    }
                    if n < other_left.len() {
                        return n;
                    }
                    let _len = self.len();
                    n + right.same_first(other_right)
                }
            },
        }
    }

    // The same tree in a block of its own, whose children are shared.
    fn copied(&self, alloc: Global) -> Result<Tree, AllocError>
        ensures { IfOk result (λ t. t ≡ self.now) }
    {
        let limb = match &*self.limb {
            Limb::Leaf(deepest, mark, chunk) => Limb::Leaf(*deepest, *mark, chunk.copied(alloc)?),
            Limb::Fork {
                deepest,
                mark,
                height,
                len,
                left,
                right,
            } => Limb::Fork {
                deepest: *deepest,
                mark: *mark,
                height: *height,
                len: *len,
                left: left.share()?,
                right: right.share()?,
            },
        };
        Ok(Tree {
            limb: Arc::new(alloc, limb)?,
        })
    }

    // Whether it is a value without a block of its own.
    fn is_one(&self) -> bool {
        match &*self.limb {
            Limb::Leaf(_, _, Chunk::One(_)) => true,
            _ => false,
        }
    }

    // Copies the node where it has other owners, or is a chunk that isn't changed.
    pub(super) fn unshare(&mut self, alloc: Global) -> Result<(), AllocError>
        ensures { self.new ≡ self.old }
    {
        if !self.is_one() {
            if let Some(_) = Arc::get_mut(&mut self.limb) {
                return Ok(());
            }
        }
        *self = self.copied(alloc)?;
        Ok(())
    }
}
