//! The elements of a set.
ghost use Rattle.std.specs.Prelude.{◌≡◌, ◌≤◌, ◌<◌, ◌↔◌, ◌^◌, [], true, false, IsTrue, length, IfOk, IfErr, OnOk, OnErr, insert, remove, slice_index_or, slice_get, option_copied};
ghost use Rattle.std.specs.Slice.{IsItemAt};
ghost use Rattle.ref_value.specs.Collections.{has_element, elements_with, elements_without, ChangesElement, IsFoundAt, IsGapAt};
ghost use Rattle.ref_value.specs.Edn.{Edn, items_of, items_depth};
ghost use Rattle.ref_value.specs.Lawful.{AreLawful};
ghost use Rattle.ref_value.specs.Order.{edn_cmp, elements_ascend};
ghost use Rattle.ref_value.specs.Moves.{HavePassed};
ghost use Rattle.ref_value.specs.Limits.{most_nested};

use crate::data::Value;
use crate::order::compare;
use crate::sequence::chunks::Member;
use crate::sequence::trees::Tree;
use crate::vectors::Iter;
use std::alloc::{AllocError, Global};
use std::cmp::Ordering;
use std::marker::Model;

/// Elements; they may have several owners. Contracts see a list.
///
/// In a [`Value`] the elements stand in value order without equals. Elements can be made in any order: they know
/// whether they ascend, so that nobody has to look twice.
#[cycle(value)]
#[derive(Drop)]
pub struct Elements {
    tree: Tree,
}

impl Model for Elements {
    ghost use Rattle.std.specs.Prelude.{List, ◌≡◌, ◌≤◌, ◌*◌, ◌+◌};
    ghost use Rattle.std.specs.Coded.{coded_list};
    ghost use Rattle.std.proofs.Common.{arith};
    ghost use Rattle.ref_value.specs.Edn.{Edn, items_of, items_depth};
    ghost use Rattle.ref_value.specs.Code.{edn_code};
    ghost use Rattle.ref_value.specs.Members.{singles, AreTwins};
    ghost use Rattle.ref_value.specs.Most.{depth_of_twins};
    ghost use Rattle.ref_value.specs.Order.{elements_ascend};

    ghost Value = { List Edn };

    ghost coded = { coded_list edn_code };

    ghost view = { λ a. singles a.tree.0 };

    ghost invariant = { λ a. AreTwins a.tree.0 × (a.tree.1 ≤ 255) ×
        (a.tree.2 ≡ elements_ascend (items_of (singles a.tree.0))) };

    ghost size = { λ xs. 300 * items_depth (items_of xs) + 299 };

    ghost size_decreases = { λ a h. omega (arith, h.1, depth_of_twins a.tree.0 h.0) };
}

#[tactic(auto, using(crate::proofs::Ascending::ascending_at, crate::proofs::Ascending::ascending_end))]
fn do_elements_ascend(values: &[Value]) -> bool
    ensures { result ≡ elements_ascend (items_of values.now) }
{
    for i in 1..values.len() {
        if compare(&values[i - 1], &values[i]) != Ordering::Less {
            return false;
        }
    }
    true
}

impl Elements {
    /// The elements that a `Vec` holds, in its order and in linear time; up to 32 of them aren't moved where the `Vec` has no room left.
    #[tactic(auto, using(crate::proofs::Pairing::singles_twins, crate::proofs::Pairing::twins_are))]
    pub fn of(alloc: Global, values: Vec<Value>) -> Result<Elements, AllocError>
        ensures { IfOk result (λ xs. xs ≡ values.items) }
    {
        let ascends = do_elements_ascend(&values);
        let tree = Tree::of_values(alloc, ascends, values)?;
        let _height = tree.height();
        Ok(Elements { tree })
    }

    /// How many elements there are, in constant time.
    #[tactic(auto, using(crate::proofs::Pairing::length_singles))]
    pub fn len(&self) -> usize
        ensures { result ≡ length self.now }
    {
        self.tree.len()
    }

    /// Whether there are no elements.
    pub fn is_empty(&self) -> bool
        ensures { IsTrue result ↔ (self.now ≡ []) }
    {
        self.len() == 0
    }

    /// It takes log n steps; for all in order take `iter`.
    #[tactic(auto, using(crate::proofs::Pairing::length_singles, crate::proofs::Pairing::singles_at))]
    pub fn at(&self, i: usize) -> &Value
        requires { i < length self.now }
        ensures { result.now ≡ slice_index_or self.now i result.now }
    {
        self.tree.pair_at(i).0
    }

    // What both have behind that which comes first and is the same at a glance.
    pub(crate) fn iter_beside<'a, 'b>(&'a self, other: &'b Elements) -> (Iter<'a>, Iter<'b>)
        ensures { HavePassed self.now other.now result.0 result.1 }
    {
        let (walk, others) = self.tree.walk_beside(&other.tree);
        (Iter { walk }, Iter { walk: others })
    }

    /// One more owner. It takes no memory; only the count of owners can refuse.
    pub fn share(&self) -> Result<Elements, AllocError>
        ensures { IfOk result (λ xs. xs ≡ self.now) }
    {
        Ok(Elements {
            tree: self.tree.share()?,
        })
    }

    /// The depth of the deepest element, 0 where there is none. Constant time.
    #[tactic(auto, using(crate::proofs::Pairing::singles_deepest))]
    pub fn deepest(&self) -> u8
        ensures value { result ≡ items_depth (items_of self.now) }
        ensures bound { result ≤ most_nested }
        ensures lawful { AreLawful (items_of self.now) }
    {
        self.tree.deepest()
    }

    /// Whether each element stands before the next in value order. Constant time.
    pub fn ascends(&self) -> bool
        ensures { result ≡ elements_ascend (items_of self.now) }
    {
        self.tree.mark()
    }

    /// The element at an index in value order, or `None` past the end, in a logarithm of the length.
    #[tactic(auto, using(crate::proofs::Pieces::get_some, crate::proofs::Pieces::get_none))]
    pub fn get(&self, i: usize) -> Option<&Value>
        ensures value { option_copied result ≡ slice_get self.now i }
        ensures item { IsItemAt self.now i result }
    {
        if i < self.len() {
            Some(self.at(i))
        } else {
            None
        }
    }

    /// The elements from the first on, in constant time each, taken over many.
    #[tactic(auto, using(crate::proofs::Pairing::length_singles))]
    pub fn iter(&self) -> Iter<'_>
        ensures value { result ≡ self.now }
        ensures fits { length result < 2 ^ 64 }
    {
        Iter {
            walk: self.tree.walk(),
        }
    }

    /// Whether an equal element is there. It takes log n comparisons.
    pub fn contains(&self, x: &Value) -> bool
        requires { IsTrue (elements_ascend (items_of self.now)) }
        ensures { result ≡ has_element self.now x.now }
    {
        self.search(x).is_ok()
    }

    /// These elements and this one, as `insert` has them; themselves where an equal one is there.
    pub fn with(&self, alloc: Global, x: Value) -> Result<Elements, AllocError>
        requires { IsTrue (elements_ascend (items_of self.now)) }
        ensures elements { IfOk result (λ xs. xs ≡ elements_with self.now x) }
        ensures ascends { IfOk result (λ xs. IsTrue (elements_ascend (items_of xs))) }
        ensures set { IfOk result (λ xs. ChangesElement self.now xs x true) }
    {
        let mut all = self.share()?;
        all.insert(alloc, x)?;
        Ok(all)
    }

    /// These elements without this one, as `remove` leaves them; themselves where no equal one is there.
    pub fn without(&self, alloc: Global, x: &Value) -> Result<Elements, AllocError>
        requires { IsTrue (elements_ascend (items_of self.now)) }
        ensures elements { IfOk result (λ xs. xs ≡ elements_without self.now x.now) }
        ensures ascends { IfOk result (λ xs. IsTrue (elements_ascend (items_of xs))) }
        ensures set { IfOk result (λ xs. ChangesElement self.now xs x.now false) }
    {
        let mut all = self.share()?;
        all.remove(alloc, x)?;
        Ok(all)
    }

    /// Puts this element among these; where an equal one is there, nothing changes. It takes log n comparisons and
    /// steps. What has other owners, whose elements stay, is copied along the way: log n nodes and one list of up
    /// to 32. A refusal changes nothing.
    pub fn insert(&mut self, alloc: Global, x: Value) -> Result<(), AllocError>
        requires { IsTrue (elements_ascend (items_of self.old)) }
        ensures elements { OnOk result (self.new ≡ elements_with self.old x) }
        ensures set { OnOk result (ChangesElement self.old self.new x true) }
        ensures err { OnErr result (self.new ≡ self.old) }
        ensures ascends { IsTrue (elements_ascend (items_of self.new)) }
    {
        match self.search(&x) {
            Ok(_) => Ok(()),
            Err(i) => self.insert_at(alloc, i, x),
        }
    }

    /// Takes this element out; where no equal one is there, nothing changes. It takes what `insert` takes. A refusal
    /// changes nothing.
    pub fn remove(&mut self, alloc: Global, x: &Value) -> Result<(), AllocError>
        requires { IsTrue (elements_ascend (items_of self.old)) }
        ensures elements { OnOk result (self.new ≡ elements_without self.old x.now) }
        ensures set { OnOk result (ChangesElement self.old self.new x.now false) }
        ensures err { OnErr result (self.new ≡ self.old) }
        ensures ascends { IsTrue (elements_ascend (items_of self.new)) }
    {
        match self.search(x) {
            Ok(i) => self.remove_at(alloc, i),
            Err(_) => Ok(()),
        }
    }

    // Where the element is, or where it would go.
    #[tactic(auto, using(crate::proofs::Pairing::singles_ascend))]
    fn search(&self, x: &Value) -> Result<usize, usize>
        requires { IsTrue (elements_ascend (items_of self.now)) }
        ensures found { IfOk result (IsFoundAt (λ y. edn_cmp y x.now) self.now) }
        ensures absent { IfErr result (IsGapAt (λ y. edn_cmp y x.now) self.now) }
    {
        self.tree.search(x)
    }

    #[tactic(auto, using(crate::proofs::Pairing::length_singles, crate::proofs::Pairing::singles_insert, crate::proofs::Pairing::are_twins_insert))]
    fn insert_at(&mut self, alloc: Global, i: usize, x: Value) -> Result<(), AllocError>
        requires in_range { i ≤ length self.old }
        requires sorted { IsTrue (elements_ascend (items_of self.old)) }
        requires ascends { IsTrue (elements_ascend (items_of (insert self.old i x))) }
        ensures ok { OnOk result (self.new ≡ insert self.old i x) }
        ensures err { OnErr result (self.new ≡ self.old) }
    {
        self.tree.insert(alloc, i, Member::One(x))?;
        let _height = self.tree.height();
        Ok(())
    }

    #[tactic(auto, using(crate::proofs::Pairing::length_singles, crate::proofs::Pairing::singles_remove, crate::proofs::Pairing::are_twins_remove))]
    fn remove_at(&mut self, alloc: Global, i: usize) -> Result<(), AllocError>
        requires in_range { i < length self.old }
        requires sorted { IsTrue (elements_ascend (items_of self.old)) }
        requires ascends { IsTrue (elements_ascend (items_of (remove self.old i))) }
        ensures ok { OnOk result (self.new ≡ remove self.old i) }
        ensures err { OnErr result (self.new ≡ self.old) }
    {
        self.tree.remove(alloc, i)?;
        Ok(())
    }

    /// Members that are known to ascend, as a collection, without a look at their order.
    #[tactic(auto, using(crate::proofs::Pairing::singles_twins, crate::proofs::Pairing::twins_are))]
    pub fn built(alloc: Global, values: Vec<Value>) -> Result<Elements, AllocError>
        requires { IsTrue (elements_ascend (items_of values.items)) }
        ensures { IfOk result (λ xs. xs ≡ values.items) }
    {
        let tree = Tree::of_values(alloc, true, values)?;
        let _height = tree.height();
        Ok(Elements { tree })
    }
}

impl<'a> IntoIterator for &'a Elements {
    type Item = &'a Value;

    type IntoIter = Iter<'a>;

    ghost into_iter_gives = { λ elements it. (it ≡ elements.now) × (length it < 2 ^ 64) };

    fn into_iter(self) -> Iter<'a> {
        self.iter()
    }
}
