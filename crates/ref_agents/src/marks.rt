//! Which of many numbers are marked.
ghost use Rattle.std.specs.Prelude.{◌≡◌, ◌≤◌, ◌<◌, ◌++◌, ◌∷◌, [], true, false, length, IfSome, OnOk, OnErr, None, ℕ, ◌-◌, ◌*◌, take, slice_set};
ghost use Rattle.ref_agents.specs.Marks.{AreClear, is_set};

use std::alloc::{AllocError, Global};
use std::marker::Model;

// How many marks a block has.
const BLOCK: usize = 1024;

/// Marks, numbered from 0, each of which is set or not. The next one that is set is found by blocks: where none of a block is set, it
/// is passed over.
#[derive(Drop)]
pub(crate) struct Marks {
    marks: Vec<bool>,
    // Of each block whether one of its marks may be set.
    blocks: Vec<bool>,
}

impl Model for Marks {
    ghost use Rattle.std.specs.Prelude.{List, Bool};
    ghost use Rattle.ref_agents.specs.Marks.{HaveBlocks};

    ghost Value = { List Bool };

    ghost view = { λ a. a.marks.items };

    ghost invariant = { λ a. HaveBlocks a.marks.items a.blocks.items };
}

impl Marks {
    /// No marks. It takes no memory.
    pub(crate) fn new(alloc: Global) -> Marks
        ensures { result ≡ [] }
    {
        Marks {
            marks: Vec::new(alloc),
            blocks: Vec::new(alloc),
        }
    }

    /// How many marks there are.
    pub(crate) fn len(&self) -> usize
        ensures { result ≡ length self.now }
    {
        self.marks.len()
    }

    /// One more mark, which isn't set. A refused call changes nothing.
    pub(crate) fn push(&mut self) -> Result<(), AllocError>
        ensures ok { OnOk result (self.new ≡ self.old ++ false ∷ []) }
        ensures err { OnErr result (self.new ≡ self.old) }
    {
        self.marks.reserve(1)?;
        if self.marks.len() / BLOCK >= self.blocks.len() {
            self.blocks.push(false)?;
        }
        self.marks.push_reserved(false);
        Ok(())
    }

    /// Takes the last mark away.
    pub(crate) fn pop(&mut self)
        ensures { self.new ≡ take (length self.old - 1) self.old }
    {
        self.marks.pop();
    }

    /// Sets a mark, or not.
    pub(crate) fn set(&mut self, i: usize, is_set: bool)
        requires { i < length self.old }
        ensures { self.new ≡ slice_set self.old i is_set }
    {
        self.marks[i] = is_set;
        if is_set {
            let block = i / BLOCK;
            self.blocks[block] = true;
        }
    }

    /// The first number from one on whose mark is set, if there is one. The time is linear in the size of a block and in the number of
    /// blocks: but for that of the number itself, a block that is looked at in vain isn't looked at again before one of its marks is set.
    pub(crate) fn first_from(&mut self, from: usize) -> Option<usize>
        ensures set { IfSome result (λ i. is_set self.old i ≡ true) }
        ensures first { IfSome result (λ i. (from ≤ i) × AreClear self.old from i) }
        ensures none { result ≡ None → (i : ℕ) → from ≤ i → is_set self.old i ≡ false }
        ensures same { self.new ≡ self.old }
    {
        let block = from / BLOCK;
        if let Some(i) = first_of(&self.marks, from, (block + 1).saturating_mul(BLOCK)) {
            return Some(i);
        }
        self.first_behind(block + 1)
    }

    // The first number of a block, or of one behind it, whose mark is set.
    fn first_behind(&mut self, first: usize) -> Option<usize>
        ensures set { IfSome result (λ i. is_set self.old i ≡ true) }
        ensures first { IfSome result (λ i. (1024 * first ≤ i) × AreClear self.old (1024 * first) i) }
        ensures none { result ≡ None → (i : ℕ) → 1024 * first ≤ i → is_set self.old i ≡ false }
        ensures same { self.new ≡ self.old }
    {
        for block in first..self.blocks.len() {
            if !self.blocks[block] {
                continue;
            }
            if let Some(i) = first_of(
                &self.marks,
                block.saturating_mul(BLOCK),
                (block + 1).saturating_mul(BLOCK),
            ) {
                return Some(i);
            }
            self.blocks[block] = false;
        }
        None
    }
}

// The first number from one on, before another, whose mark is set.
fn first_of(marks: &[bool], from: usize, end: usize) -> Option<usize>
    ensures set { IfSome result (λ i. is_set marks.now i ≡ true) }
    ensures first { IfSome result (λ i. (from ≤ i) × (i < end) × AreClear marks.now from i) }
    ensures none { result ≡ None → AreClear marks.now from end }
{
    for i in from..end.min(marks.len()) {
        if marks[i] {
            return Some(i);
        }
    }
    None
}
