//! Lists with several owners, and what can have several owners.
ghost use Rattle.std.specs.Prelude.{◌≡◌, ◌≢◌, ◌<◌, ◌↔◌, [], ◌∷◌, ◌++◌, ◌^◌, IsTrue, length, IfNone, IfOk, IfErr, IfSome, OnErr, OnOk, slice_get, slice_index_or, option_copied, vec_capacity, vec_len};
ghost use Rattle.std.specs.Mem.{FitsInMemory};
ghost use Rattle.std.specs.Slice.{IsItemAt};
ghost use Rattle.ref_fun.specs.Lists.{items_in};
ghost use Rattle.ref_fun.specs.declared.lists.Inside.TheVariants as Inside;
ghost use Rattle.std.specs.Iterator.{YieldsFirstRef, item_count};

use ref_value::Value;
use std::alloc::{AllocError, Global};
use std::marker::Model;
use std::sync::Arc;
use std::{mem, slice};

/// What can have one more owner.
pub trait Shareable: Drop {
    /// One more owner. It takes no memory; only the count of owners can refuse.
    fn share(&self) -> Result<Self, AllocError>
        ensures { IfOk result (λ x. x ≡ self.now) };
}

/// One more owner of each of these.
pub fn share_all<T: Shareable>(alloc: Global, items: &[T]) -> Result<Vec<T>, AllocError>
    ensures { IfOk result (λ all. all.items ≡ items.now) }
{
    let mut all = Vec::with_capacity(alloc, items.len())?;
    for item in items {
        all.push(item.share()?)?;
    }
    Ok(all)
}

// A single item lies next to the count of its owners, so that it takes one block and not two.
pub(crate) enum Inside<T> {
    Empty,
    One(Arc<Only<T>>),
    Many(Arc<Vec<T>>),
}

#[derive(Drop)]
pub(crate) struct Only<T> {
    item: T,
}

impl<T: Drop> Inside<T> {
    // The single item.
    fn single(self) -> Option<Arc<Only<T>>>
        ensures some { IfSome result (λ only. only.value.item ∷ [] ≡ items_in self) }
        ensures none { IfNone result ((only : _) → self ≡ Inside.One only → ⊥) }
    {
        match self {
            Inside::One(only) => Some(only),
            Inside::Empty | Inside::Many(_) => None,
        }
    }
}

// A function of its own, which each place that drops one calls; a derived one would be written out there.
impl<T: Drop> Drop for Inside<T> {
    fn drop(self) {
        match self {
            Inside::Empty => {}
            Inside::One(_item) => {}
            Inside::Many(_items) => {}
        }
    }
}

/// Items that may have several owners. What the others have doesn't change. No items take no block of memory, a single one takes one, and
/// more take two. Contracts see a list.
pub struct SharedVec<T> {
    inside: Inside<T>,
}

impl<T: Drop> Drop for SharedVec<T> {
    fn drop(self) {
        let SharedVec { inside: _inside } = self;
    }
}

impl<T> Model for SharedVec<T> {
    ghost use Rattle.std.specs.Prelude.{List};
    ghost use Rattle.std.specs.Coded.{coded_list};
    ghost use Rattle.ref_fun.specs.Lists.{items_in};

    ghost Value = { List T };

    ghost coded = { coded_list T.code };

    ghost view = { λ a. items_in a.inside };
}

impl<T: Drop> SharedVec<T> {
    /// No items. It takes no memory.
    pub fn none() -> SharedVec<T>
        ensures { result ≡ [] }
    {
        SharedVec {
            inside: Inside::Empty,
        }
    }

    /// The items that a `Vec` holds, which isn't copied. Where there are none it takes no memory.
    pub fn of(alloc: Global, items: Vec<T>) -> Result<SharedVec<T>, AllocError>
        ensures value { IfOk result (λ xs. xs ≡ items.items) }
        ensures memory { OnErr result (items.items ≢ []) }
    {
        if items.is_empty() {
            return Ok(SharedVec::none());
        }
        Ok(SharedVec {
            inside: Inside::Many(Arc::new(alloc, items)?),
        })
    }

    /// How many items there are, in constant time.
    pub fn len(&self) -> usize
        ensures { result ≡ length self.now }
    {
        match &self.inside {
            Inside::Empty => 0,
            Inside::One(_) => 1,
            Inside::Many(items) => items.len(),
        }
    }

    /// Whether there are no items.
    pub fn is_empty(&self) -> bool
        ensures { IsTrue result ↔ (self.now ≡ []) }
    {
        match &self.inside {
            Inside::Empty => true,
            Inside::One(_) => false,
            Inside::Many(items) => items.is_empty(),
        }
    }

    /// The item at an index, in constant time.
    pub fn at(&self, i: usize) -> &T
        requires { i < length self.now }
        ensures { result.now ≡ slice_index_or self.now i result.now }
    {
        match &self.inside {
            Inside::Empty => unreachable!(),
            Inside::One(only) => &only.item,
            Inside::Many(items) => &items[i],
        }
    }

    /// The item at an index, or `None` past the end, in constant time.
    pub fn get(&self, i: usize) -> Option<&T>
        ensures value { option_copied result ≡ slice_get self.now i }
        ensures item { IsItemAt self.now i result }
    {
        match &self.inside {
            Inside::Empty => None,
            Inside::One(only) => { if i == 0 { Some(&only.item) } else { None } }
            Inside::Many(items) => items.get(i),
        }
    }

    /// All items.
    pub fn as_slice(&self) -> &[T]
        requires { FitsInMemory T.row }
        ensures { result.now ≡ self.now }
    {
        match &self.inside {
            Inside::Empty => &[],
            Inside::One(only) => slice::from_ref(&only.item),
            Inside::Many(items) => items.as_slice(),
        }
    }

    /// The items from the first on.
    pub fn iter(&self) -> Iter<'_, T>
        ensures value { result ≡ self.now }
        ensures fits { length result < 2 ^ 64 }
    {
        Iter {
            items: self,
            at: 0,
            end: self.len(),
        }
    }

    /// One more owner. It takes no memory; only the count of owners can refuse.
    pub fn share(&self) -> Result<SharedVec<T>, AllocError>
        ensures { IfOk result (λ xs. xs ≡ self.now) }
    {
        let inside = match &self.inside {
            Inside::Empty => Inside::Empty,
            Inside::One(only) => Inside::One(Arc::try_clone(only)?),
            Inside::Many(items) => Inside::Many(Arc::try_clone(items)?),
        };
        Ok(SharedVec { inside })
    }
}

impl<T: Shareable> SharedVec<T> {
    /// Puts an item behind the others. The first item and the second each take a new block: for one item, then for exactly two. A longer
    /// list without another owner grows in place, with room for as many again as it holds; else its items get one more owner each, in a list
    /// of their own.
    pub fn push(&mut self, alloc: Global, item: T) -> Result<(), AllocError>
        ensures ok { OnOk result (self.new ≡ self.old ++ item ∷ []) }
        ensures err { OnErr result (self.new ≡ self.old) }
    {
        match &mut self.inside {
            Inside::Empty => {
                self.inside = Inside::One(Arc::new(alloc, Only { item })?);
                return Ok(());
            }
            Inside::One(_) => {}
            Inside::Many(items) => return push_shared(alloc, items, item),
        }
        let Some(only) = mem::replace(&mut self.inside, Inside::Empty).single() else {
            unreachable!();
        };
        match two(alloc, only, item) {
            Ok(both) => {
                self.inside = Inside::Many(both);
                Ok(())
            }
            Err(only) => {
                self.inside = Inside::One(only);
                Err(AllocError)
            }
        }
    }
}

// A list of two items, with room for no other, or the first one again. All that takes memory comes before the first is moved.
fn two<T: Shareable>(
    alloc: Global,
    first: Arc<Only<T>>,
    second: T,
) -> Result<Arc<Vec<T>>, Arc<Only<T>>>
    ensures ok { IfOk result (λ items. items.value.items ≡ first.value.item ∷ second ∷ []) }
    ensures err { IfErr result (λ only. only.value.item ≡ first.value.item) }
{
    let Ok(mut both) = room_for_two(alloc) else {
        return Err(first);
    };
    match Arc::get_mut(&mut both) {
        Some(items) => match item_of(first) {
            Ok(first) => fill(items, first, second),
            Err(first) => return Err(first),
        },
        None => return Err(first),
    }
    Ok(both)
}

// No items, with room for two.
fn room_for_two<T: Drop>(alloc: Global) -> Result<Arc<Vec<T>>, AllocError>
    ensures items { IfOk result (λ items. items.value.items ≡ []) }
    ensures room { IfOk result (λ items. (vec_len items.value ≡ 0) × (vec_capacity items.value ≡ 2)) }
{
    Ok(Arc::new(alloc, Vec::with_capacity(alloc, 2)?)?)
}

// The item, moved where it has no other owner, and else with one more owner.
fn item_of<T: Shareable>(only: Arc<Only<T>>) -> Result<T, Arc<Only<T>>>
    ensures ok { IfOk result (λ x. x ≡ only.value.item) }
    ensures err { IfErr result (λ c. c ≡ only) }
{
    match Arc::try_unwrap(only) {
        Ok(Only { item }) => Ok(item),
        Err(only) => match only.item.share() {
            Ok(item) => Ok(item),
            Err(_) => Err(only),
        },
    }
}

// Puts two items into a list that has room for them.
fn fill<T: Drop>(items: &mut Vec<T>, first: T, second: T)
    requires none { items.old.items ≡ [] }
    requires room { (vec_len items.old ≡ 0) × (vec_capacity items.old ≡ 2) }
    ensures { items.new.items ≡ first ∷ second ∷ [] }
{
    let (Ok(()), Ok(())) = (items.push(first), items.push(second)) else {
        unreachable!();
    };
}

// Puts an item behind the others.
fn push_shared<T: Shareable>(
    alloc: Global,
    items: &mut Arc<Vec<T>>,
    item: T,
) -> Result<(), AllocError>
    ensures ok { OnOk result (items.new.value.items ≡ items.old.value.items ++ item ∷ []) }
    ensures err { OnErr result (items.new.value.items ≡ items.old.value.items) }
{
    unshare(alloc, items)?;
    match Arc::get_mut(items) {
        Some(items) => push_doubling(items, item),
        None => Err(AllocError),
    }
}

// Replaces items that have other owners by as many of their own.
fn unshare<T: Shareable>(alloc: Global, items: &mut Arc<Vec<T>>) -> Result<(), AllocError>
    ensures { items.new.value.items ≡ items.old.value.items }
{
    if let Some(_) = Arc::get_mut(items) {
        return Ok(());
    }
    let own = share_all(alloc, items.as_slice())?;
    *items = Arc::new(alloc, own)?;
    Ok(())
}

// Puts an item behind the others. A full list gets room for as many again.
fn push_doubling<T: Drop>(items: &mut Vec<T>, item: T) -> Result<(), AllocError>
    ensures ok { OnOk result (items.new.items ≡ items.old.items ++ item ∷ []) }
    ensures err { OnErr result (items.new.items ≡ items.old.items) }
{
    if items.len() == items.capacity() {
        items.reserve_exact(items.len())?;
    }
    items.push(item)?;
    Ok(())
}

impl Shareable for Value {
    fn share(&self) -> Result<Value, AllocError> {
        Value::share(self)
    }
}

/// The items from a place on. Contracts see those that are left.
#[derive(Drop)]
pub struct Iter<'a, T> {
    items: &'a SharedVec<T>,
    at: usize,
    end: usize,
}

impl<'a, T> Model for Iter<'a, T> {
    ghost use Rattle.std.specs.Prelude.{List, ◌≡◌, ◌≤◌, length, drop};
    ghost use Rattle.std.specs.Coded.{coded_list};

    ghost Value = { List T };

    ghost coded = { coded_list T.code };

    ghost view = { λ a. drop a.at a.items.now };

    ghost invariant = { λ a. (a.at ≤ a.end) × (a.end ≡ length a.items.now) };
}

impl<'a, T: Drop> Iterator for Iter<'a, T> {
    type Item = &'a T;

    ghost next_gives = { YieldsFirstRef (λ s. s) };

    ghost remaining = { item_count (λ s. s) };

    fn next(&mut self) -> Option<&'a T> {
        if self.at >= self.end {
            return None;
        }
        let x = self.items.at(self.at);
        self.at += 1;
        Some(x)
    }
}

impl<'a, T: Drop> IntoIterator for &'a SharedVec<T> {
    type Item = &'a T;

    type IntoIter = Iter<'a, T>;

    ghost into_iter_gives = { λ items it. (it ≡ items.now) × (length it < 2 ^ 64) };

    fn into_iter(self) -> Iter<'a, T> {
        self.iter()
    }
}
