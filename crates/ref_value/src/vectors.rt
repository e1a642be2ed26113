//! The elements of a vector.
ghost use Rattle.std.specs.Prelude.{◌≡◌, ◌≤◌, ◌<◌, ◌↔◌, ◌++◌, ◌∷◌, [], ◌^◌, IsTrue, length, IfOk, OnOk, OnErr, slice_index_or, slice_get, option_copied, max};
ghost use Rattle.std.specs.Slice.{IsItemAt};
ghost use Rattle.std.specs.Iterator.{YieldsFirstRef, item_count};
ghost use Rattle.ref_value.specs.Edn.{Edn, items_of, items_depth};
ghost use Rattle.ref_value.specs.Lawful.{AreLawful};
ghost use Rattle.ref_value.specs.Moves.{HavePassed};
ghost use Rattle.ref_value.specs.Limits.{most_nested};

use crate::data::Value;
use crate::sequence::chunks::Member;
use crate::sequence::trees::Tree;
use crate::sequence::walks::Walk;
use std::alloc::{AllocError, Global};
use std::marker::Model;

/// Values in the order in which they were put there; they may have several owners. Contracts see a list.
#[cycle(value)]
#[derive(Drop)]
pub struct Items {
    tree: Tree,
}

impl Model for Items {
    ghost use Rattle.std.specs.Prelude.{List, ◌≡◌, ◌≤◌, ◌*◌, ◌+◌};
    ghost use Rattle.std.specs.Coded.{coded_list};
    ghost use Rattle.std.proofs.Common.{arith};
    ghost use Rattle.ref_value.specs.Edn.{Edn, items_of, items_depth};
    ghost use Rattle.ref_value.specs.Code.{edn_code};
    ghost use Rattle.ref_value.specs.Members.{singles, AreTwins};
    ghost use Rattle.ref_value.specs.Most.{depth_of_twins};

    ghost Value = { List Edn };

    ghost coded = { coded_list edn_code };

    ghost view = { λ a. singles a.tree.0 };

    ghost invariant = { λ a. AreTwins a.tree.0 × (a.tree.1 ≤ 255) };

    ghost size = { λ xs. 300 * items_depth (items_of xs) + 299 };

    ghost size_decreases = { λ a h. omega (arith, h.1, depth_of_twins a.tree.0 h.0) };
}

pub(crate) fn larger(a: u8, b: u8) -> u8
    ensures { result ≡ max a b }
{
    if a < b { b } else { a }
}

// The depth of the deepest of these values.
#[tactic(auto, using(crate::proofs::Depths::items_depth_at))]
pub(crate) fn deepest_of(values: &[Value]) -> u8
    ensures value { result ≡ items_depth (items_of values.now) }
    ensures bound { result ≤ most_nested }
    ensures lawful { AreLawful (items_of values.now) }
{
    let mut most = 0;
    for x in values {
        most = larger(most, x.depth());
    }
    most
}

impl Items {
    /// The elements that a `Vec` holds, in linear time; up to 32 of them aren't moved where the `Vec` has no room left.
    #[tactic(auto, using(crate::proofs::Pairing::singles_twins, crate::proofs::Pairing::twins_are))]
    pub fn of(alloc: Global, values: Vec<Value>) -> Result<Items, AllocError>
        ensures { IfOk result (λ xs. xs ≡ values.items) }
    {
        let tree = Tree::of_values(alloc, false, values)?;
        let _height = tree.height();
        Ok(Items { tree })
    }

    /// The elements of a list, which is empty afterwards. Where they are at most 32, the list still has its capacity, to be filled again.
    #[tactic(auto, using(crate::proofs::Pairing::singles_twins, crate::proofs::Pairing::twins_are))]
    pub fn drained(alloc: Global, list: &mut Vec<Value>) -> Result<Items, AllocError>
        ensures { IfOk result (λ xs. xs ≡ list.old.items) }
    {
        let tree = Tree::drained(alloc, false, list)?;
        let _height = tree.height();
        Ok(Items { tree })
    }

    /// How many elements there are, in constant time.
    #[tactic(auto, using(crate::proofs::Pairing::length_singles))]
    pub fn len(&self) -> usize
        ensures { result ≡ length self.now }
    {
        self.tree.len()
    }

    /// Whether there are no elements.
    pub fn is_empty(&self) -> bool
        ensures { IsTrue result ↔ (self.now ≡ []) }
    {
        self.len() == 0
    }

    /// It takes log n steps; for all in order take `iter`.
    #[tactic(auto, using(crate::proofs::Pairing::length_singles, crate::proofs::Pairing::singles_at))]
    pub fn at(&self, i: usize) -> &Value
        requires { i < length self.now }
        ensures { result.now ≡ slice_index_or self.now i result.now }
    {
        self.tree.pair_at(i).0
    }

    /// The element at an index, or `None` past the end, in a logarithm of the length.
    #[tactic(auto, using(crate::proofs::Pieces::get_some, crate::proofs::Pieces::get_none))]
    pub fn get(&self, i: usize) -> Option<&Value>
        ensures value { option_copied result ≡ slice_get self.now i }
        ensures item { IsItemAt self.now i result }
    {
        if i < self.len() {
            Some(self.at(i))
        } else {
            None
        }
    }

    /// The elements from the first on, in constant time each, taken over many.
    #[tactic(auto, using(crate::proofs::Pairing::length_singles))]
    pub fn iter(&self) -> Iter<'_>
        ensures value { result ≡ self.now }
        ensures fits { length result < 2 ^ 64 }
    {
        Iter {
            walk: self.tree.walk(),
        }
    }

    // What both have behind that which comes first and is the same at a glance.
    pub(crate) fn iter_beside<'a, 'b>(&'a self, other: &'b Items) -> (Iter<'a>, Iter<'b>)
        ensures { HavePassed self.now other.now result.0 result.1 }
    {
        let (walk, others) = self.tree.walk_beside(&other.tree);
        (Iter { walk }, Iter { walk: others })
    }

    /// One more owner. It takes no memory; only the count of owners can refuse.
    pub fn share(&self) -> Result<Items, AllocError>
        ensures { IfOk result (λ xs. xs ≡ self.now) }
    {
        Ok(Items {
            tree: self.tree.share()?,
        })
    }

    /// The depth of the deepest element, 0 where there is none. Constant time.
    #[tactic(auto, using(crate::proofs::Pairing::singles_deepest))]
    pub fn deepest(&self) -> u8
        ensures value { result ≡ items_depth (items_of self.now) }
        ensures bound { result ≤ most_nested }
        ensures lawful { AreLawful (items_of self.now) }
    {
        self.tree.deepest()
    }

    /// These elements and one more behind them, as `push` has them.
    pub fn with(&self, alloc: Global, x: Value) -> Result<Items, AllocError>
        ensures { IfOk result (λ xs. xs ≡ self.now ++ x ∷ []) }
    {
        let mut all = self.share()?;
        all.push(alloc, x)?;
        Ok(all)
    }

    /// Puts one more element behind these, in log n steps. What has other owners, whose elements stay, is copied
    /// along the way: log n nodes and one list of up to 32. A refusal changes nothing.
    #[tactic(auto, using(crate::proofs::Pairing::length_singles, crate::proofs::Pairing::singles_insert, crate::proofs::Pairing::are_twins_insert, crate::proofs::Pieces::insert_end))]
    pub fn push(&mut self, alloc: Global, x: Value) -> Result<(), AllocError>
        ensures ok { OnOk result (self.new ≡ self.old ++ x ∷ []) }
        ensures err { OnErr result (self.new ≡ self.old) }
    {
        let end = self.tree.len();
        self.tree.insert(alloc, end, Member::One(x))?;
        let _height = self.tree.height();
        Ok(())
    }
}

/// The elements of a vector or of a set, from a place on. Contracts see those that are left.
#[derive(Drop)]
pub struct Iter<'a> {
    pub(crate) walk: Walk<'a>,
}

impl<'a> Model for Iter<'a> {
    ghost use Rattle.std.specs.Prelude.{List};
    ghost use Rattle.std.specs.Coded.{coded_list};
    ghost use Rattle.ref_value.specs.Edn.{Edn};
    ghost use Rattle.ref_value.specs.Code.{edn_code};
    ghost use Rattle.ref_value.specs.Members.{singles};

    ghost Value = { List Edn };

    ghost coded = { coded_list edn_code };

    ghost view = { λ a. singles a.walk };
}

impl<'a> Iter<'a> {
    // Goes past what comes next in both and is the same: as many as one glance shows.
    #[tactic(auto, using(crate::proofs::Passing::singles_passed))]
    pub(crate) fn pass_same(&mut self, other: &mut Iter<'_>)
        ensures { HavePassed self.old other.old self.new other.new }
    {
        self.walk.pass_same(&mut other.walk);
    }
}

impl<'a> Iterator for Iter<'a> {
    type Item = &'a Value;

    ghost next_gives = { YieldsFirstRef (λ s. s) };

    ghost remaining = { item_count (λ s. s) };

    fn next(&mut self) -> Option<&'a Value> {
        match self.walk.next() {
            Some((x, _)) => Some(x),
            None => None,
        }
    }
}

impl<'a> IntoIterator for &'a Items {
    type Item = &'a Value;

    type IntoIter = Iter<'a>;

    ghost into_iter_gives = { λ items it. (it ≡ items.now) × (length it < 2 ^ 64) };

    fn into_iter(self) -> Iter<'a> {
        self.iter()
    }
}
