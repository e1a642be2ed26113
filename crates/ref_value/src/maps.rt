//! The entries of a map.
ghost use Rattle.std.specs.Prelude.{◌≡◌, ◌≤◌, ◌<◌, ◌↔◌, ◌^◌, [], IsTrue, length, IfOk, IfErr, OnOk, OnErr, insert, remove, slice_set, slice_index_or, option_copied};
ghost use Rattle.std.specs.Iterator.{YieldsFirstBy, item_count};
ghost use Rattle.ref_value.specs.Collections.{value_at, entries_with, entries_without, ChangesKey, IsFoundAt, IsGapAt};
ghost use Rattle.ref_value.specs.Edn.{Edn, entries_of, entries_depth};
ghost use Rattle.ref_value.specs.Lawful.{AreLawfulEntries};
ghost use Rattle.ref_value.specs.Order.{edn_cmp, keys_ascend};
ghost use Rattle.ref_value.specs.Moves.{HavePassed};
ghost use Rattle.ref_value.specs.Limits.{most_nested};

use crate::data::Value;
use crate::order::compare;
use crate::sequence::chunks::Member;
use crate::sequence::trees::Tree;
use crate::sequence::walks::Walk;
use crate::vectors::larger;
use std::alloc::{AllocError, Global};
use std::cmp::Ordering;
use std::marker::Model;

/// Pairs of a key and its value; they may have several owners. Contracts see a list of pairs.
///
/// In a [`Value`] the keys stand in value order without equals. Entries can be made in any order: they know whether
/// their keys ascend, so that nobody has to look twice.
#[cycle(value)]
#[derive(Drop)]
pub struct Entries {
    tree: Tree,
}

impl Model for Entries {
    ghost use Rattle.std.specs.Prelude.{List, ◌≡◌, ◌≤◌, ◌*◌, ◌+◌};
    ghost use Rattle.std.specs.Coded.{coded_list, coded×};
    ghost use Rattle.std.proofs.Common.{arith};
    ghost use Rattle.ref_value.specs.Edn.{Edn, entries_of, entries_depth};
    ghost use Rattle.ref_value.specs.Code.{edn_code};
    ghost use Rattle.ref_value.specs.Order.{keys_ascend};

    ghost Value = { List (Edn × Edn) };

    ghost coded = { coded_list (coded× edn_code edn_code) };

    ghost view = { λ a. a.tree.0 };

    ghost invariant = { λ a. (a.tree.1 ≤ 255) × (a.tree.2 ≡ keys_ascend (entries_of a.tree.0)) };

    ghost size = { λ es. 300 * entries_depth (entries_of es) + 299 };

    ghost size_decreases = { λ a h. omega (arith, h.0) };
}

// The depth of the deepest of these keys and values.
#[tactic(auto, using(crate::proofs::Depths::entries_depth_at))]
pub(crate) fn deepest_of(pairs: &[(Value, Value)]) -> u8
    ensures value { result ≡ entries_depth (entries_of pairs.now) }
    ensures bound { result ≤ most_nested }
    ensures lawful { AreLawfulEntries (entries_of pairs.now) }
{
    let mut most = 0;
    for (key, x) in pairs {
        most = larger(larger(most, key.depth()), x.depth());
    }
    most
}

#[tactic(auto, using(crate::proofs::Ascending::keys_at, crate::proofs::Ascending::keys_end))]
fn do_keys_ascend(pairs: &[(Value, Value)]) -> bool
    ensures { result ≡ keys_ascend (entries_of pairs.now) }
{
    for i in 1..pairs.len() {
        let (before, _) = &pairs[i - 1];
        let (key, _) = &pairs[i];
        if compare(before, key) != Ordering::Less {
            return false;
        }
    }
    true
}

impl Entries {
    /// The entries that a `Vec` holds, in its order and in linear time; up to 32 of them aren't moved where the `Vec` has no room left.
    pub fn of(alloc: Global, pairs: Vec<(Value, Value)>) -> Result<Entries, AllocError>
        ensures { IfOk result (λ es. es ≡ pairs.items) }
    {
        let ascends = do_keys_ascend(&pairs);
        let tree = Tree::of_pairs(alloc, ascends, pairs)?;
        let _height = tree.height();
        Ok(Entries { tree })
    }

    /// How many entries there are, in constant time.
    pub fn len(&self) -> usize
        ensures { result ≡ length self.now }
    {
        self.tree.len()
    }

    /// Whether there are no entries.
    pub fn is_empty(&self) -> bool
        ensures { IsTrue result ↔ (self.now ≡ []) }
    {
        self.len() == 0
    }

    /// The key and the value at a place. It takes log n steps; for all in order take `iter`.
    pub fn at(&self, i: usize) -> (&Value, &Value)
        requires { i < length self.now }
        ensures { let entry : Edn × Edn = (result.0.now, result.1.now) in entry ≡ slice_index_or self.now i entry }
    {
        self.tree.pair_at(i)
    }

    // What both have behind that which comes first and is the same at a glance.
    pub(crate) fn iter_beside<'a, 'b>(&'a self, other: &'b Entries) -> (Iter<'a>, Iter<'b>)
        ensures { HavePassed self.now other.now result.0 result.1 }
    {
        let (walk, others) = self.tree.walk_beside(&other.tree);
        (Iter { walk }, Iter { walk: others })
    }

    /// One more owner. It takes no memory; only the count of owners can refuse.
    pub fn share(&self) -> Result<Entries, AllocError>
        ensures { IfOk result (λ es. es ≡ self.now) }
    {
        Ok(Entries {
            tree: self.tree.share()?,
        })
    }

    /// The depth of the deepest key or value, 0 where there is none. Constant time.
    pub fn deepest(&self) -> u8
        ensures value { result ≡ entries_depth (entries_of self.now) }
        ensures bound { result ≤ most_nested }
        ensures lawful { AreLawfulEntries (entries_of self.now) }
    {
        self.tree.deepest()
    }

    /// Whether each key stands before the next in value order. Constant time.
    pub fn ascends(&self) -> bool
        ensures { result ≡ keys_ascend (entries_of self.now) }
    {
        self.tree.mark()
    }

    /// The entries from the first on, each as its key and its value, in constant time each, taken over many.
    pub fn iter(&self) -> Iter<'_>
        ensures value { result ≡ self.now }
        ensures fits { length result < 2 ^ 64 }
    {
        Iter {
            walk: self.tree.walk(),
        }
    }

    /// The value of a key. It takes log n comparisons.
    pub fn get(&self, key: &Value) -> Option<&Value>
        requires { IsTrue (keys_ascend (entries_of self.now)) }
        ensures { option_copied result ≡ value_at self.now key.now }
    {
        match self.search(key) {
            Ok(i) => Some(self.at(i).1),
            Err(_) => None,
        }
    }

    /// These entries and this one, which takes the place of one with an equal key, as `insert` has them.
    pub fn with(&self, alloc: Global, key: Value, value: Value) -> Result<Entries, AllocError>
        requires { IsTrue (keys_ascend (entries_of self.now)) }
        ensures entries { IfOk result (λ es. es ≡ entries_with self.now key value) }
        ensures ascends { IfOk result (λ es. IsTrue (keys_ascend (entries_of es))) }
        ensures map { IfOk result (λ es. ChangesKey self.now es key (Some value)) }
    {
        let mut all = self.share()?;
        all.insert(alloc, key, value)?;
        Ok(all)
    }

    /// The entries of other keys, as `remove` leaves them; these themselves where the key isn't there.
    pub fn without(&self, alloc: Global, key: &Value) -> Result<Entries, AllocError>
        requires { IsTrue (keys_ascend (entries_of self.now)) }
        ensures entries { IfOk result (λ es. es ≡ entries_without self.now key.now) }
        ensures ascends { IfOk result (λ es. IsTrue (keys_ascend (entries_of es))) }
        ensures map { IfOk result (λ es. ChangesKey self.now es key.now None) }
    {
        let mut all = self.share()?;
        all.remove(alloc, key)?;
        Ok(all)
    }

    /// Puts this entry among these, instead of one with an equal key. It takes log n comparisons and steps. What has
    /// other owners, whose entries stay, is copied along the way: log n nodes and one list of up to 32. A refusal
    /// changes nothing.
    pub fn insert(&mut self, alloc: Global, key: Value, value: Value) -> Result<(), AllocError>
        requires { IsTrue (keys_ascend (entries_of self.old)) }
        ensures entries { OnOk result (self.new ≡ entries_with self.old key value) }
        ensures map { OnOk result (ChangesKey self.old self.new key (Some value)) }
        ensures err { OnErr result (self.new ≡ self.old) }
        ensures ascends { IsTrue (keys_ascend (entries_of self.new)) }
    {
        match self.search(&key) {
            Ok(i) => self.replace_at(alloc, i, key, value),
            Err(i) => self.insert_at(alloc, i, key, value),
        }
    }

    /// Takes the entry of a key out; where the key isn't there, nothing changes. It takes what `insert` takes. A refusal
    /// changes nothing.
    pub fn remove(&mut self, alloc: Global, key: &Value) -> Result<(), AllocError>
        requires { IsTrue (keys_ascend (entries_of self.old)) }
        ensures entries { OnOk result (self.new ≡ entries_without self.old key.now) }
        ensures map { OnOk result (ChangesKey self.old self.new key.now None) }
        ensures err { OnErr result (self.new ≡ self.old) }
        ensures ascends { IsTrue (keys_ascend (entries_of self.new)) }
    {
        match self.search(key) {
            Ok(i) => self.remove_at(alloc, i),
            Err(_) => Ok(()),
        }
    }

    // Where the key is, or where it would go.
    fn search(&self, key: &Value) -> Result<usize, usize>
        requires { IsTrue (keys_ascend (entries_of self.now)) }
        ensures found { IfOk result (IsFoundAt (λ e. edn_cmp e.0 key.now) self.now) }
        ensures absent { IfErr result (IsGapAt (λ e. edn_cmp e.0 key.now) self.now) }
    {
        self.tree.search(key)
    }

    fn insert_at(
        &mut self,
        alloc: Global,
        i: usize,
        key: Value,
        value: Value,
    ) -> Result<(), AllocError>
        requires in_range { i ≤ length self.old }
        requires sorted { IsTrue (keys_ascend (entries_of self.old)) }
        requires ascends { IsTrue (keys_ascend (entries_of (insert self.old i (key, value)))) }
        ensures ok { OnOk result (self.new ≡ insert self.old i (key, value)) }
        ensures err { OnErr result (self.new ≡ self.old) }
    {
        self.tree.insert(alloc, i, Member::Two(key, value))?;
        let _height = self.tree.height();
        Ok(())
    }

    fn replace_at(
        &mut self,
        alloc: Global,
        i: usize,
        key: Value,
        value: Value,
    ) -> Result<(), AllocError>
        requires in_range { i < length self.old }
        requires sorted { IsTrue (keys_ascend (entries_of self.old)) }
        requires ascends { IsTrue (keys_ascend (entries_of (slice_set self.old i (key, value)))) }
        ensures ok { OnOk result (self.new ≡ slice_set self.old i (key, value)) }
        ensures err { OnErr result (self.new ≡ self.old) }
    {
        self.tree.replace(alloc, i, key, value)?;
        Ok(())
    }

    fn remove_at(&mut self, alloc: Global, i: usize) -> Result<(), AllocError>
        requires in_range { i < length self.old }
        requires sorted { IsTrue (keys_ascend (entries_of self.old)) }
        requires ascends { IsTrue (keys_ascend (entries_of (remove self.old i))) }
        ensures ok { OnOk result (self.new ≡ remove self.old i) }
        ensures err { OnErr result (self.new ≡ self.old) }
    {
        self.tree.remove(alloc, i)?;
        Ok(())
    }

    /// Members that are known to ascend, as a collection, without a look at their order.
    pub fn built(alloc: Global, pairs: Vec<(Value, Value)>) -> Result<Entries, AllocError>
        requires { IsTrue (keys_ascend (entries_of pairs.items)) }
        ensures { IfOk result (λ es. es ≡ pairs.items) }
    {
        let tree = Tree::of_pairs(alloc, true, pairs)?;
        let _height = tree.height();
        Ok(Entries { tree })
    }
}

/// The entries from a place on. Contracts see those that are left.
#[derive(Drop)]
pub struct Iter<'a> {
    walk: Walk<'a>,
}

impl<'a> Model for Iter<'a> {
    ghost use Rattle.std.specs.Prelude.{List};
    ghost use Rattle.std.specs.Coded.{coded_list, coded×};
    ghost use Rattle.ref_value.specs.Edn.{Edn};
    ghost use Rattle.ref_value.specs.Code.{edn_code};

    ghost Value = { List (Edn × Edn) };

    ghost coded = { coded_list (coded× edn_code edn_code) };

    ghost view = { λ a. a.walk };
}

impl<'a> Iter<'a> {
    // Goes past what comes next in both and is the same: as many as one glance shows.
    pub(crate) fn pass_same(&mut self, other: &mut Iter<'_>)
        ensures { HavePassed self.old other.old self.new other.new }
    {
        self.walk.pass_same(&mut other.walk);
    }
}

impl<'a> Iterator for Iter<'a> {
    type Item = (&'a Value, &'a Value);

    ghost next_gives = { YieldsFirstBy (λ e. (e.0.now, e.1.now)) (λ s. s) };

    ghost remaining = { item_count (λ s. s) };

    fn next(&mut self) -> Option<(&'a Value, &'a Value)> {
        self.walk.next()
    }
}

impl<'a> IntoIterator for &'a Entries {
    type Item = (&'a Value, &'a Value);

    type IntoIter = Iter<'a>;

    ghost into_iter_gives = { λ entries it. (it ≡ entries.now) × (length it < 2 ^ 64) };

    fn into_iter(self) -> Iter<'a> {
        self.iter()
    }
}
