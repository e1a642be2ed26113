//! Values by number: a map whose keys are the numbers from 0 on.
ghost use Rattle.std.specs.Prelude.{◌≡◌, ◌<◌, ◌≤◌, ◌↔◌, ◌^◌, [], ◌∷◌, ◌++◌, length, slice_get, slice_index_or, slice_set, IsTrue, IfOk, OnErr, OnOk};
ghost use Rattle.std.specs.Option.{option_copied};
ghost use Rattle.std.specs.Iterator.{YieldsFirstRef, item_count};

use crate::maps::PMap;
use std::alloc::{AllocError, Global};
use std::marker::Model;

/// Values by number, from 0 on, whose old versions stay. Contracts see the list of the values.
pub struct Numbered<V> {
    map: PMap<V>,
}

// A derived one would be written out wherever values are dropped.
impl<V: Drop> Drop for Numbered<V> {
    fn drop(self) {
        let Numbered { map: _map } = self;
    }
}

impl<V> Model for Numbered<V> {
    ghost use Rattle.std.specs.Prelude.{List};
    ghost use Rattle.std.specs.Coded.{coded_list};
    ghost use Rattle.ref_pmap.specs.ByNumber.{items_of, IsByNumber};

    ghost Value = { List V };

    ghost coded = { coded_list V.code };

    ghost view = { λ a. items_of a.map };

    ghost invariant = { λ a. IsByNumber a.map };
}

impl<V: Drop> Numbered<V> {
    /// A list without values. It takes no memory.
    pub fn empty() -> Numbered<V>
        ensures { result ≡ [] }
    {
        Numbered { map: PMap::empty() }
    }

    /// How many values there are, in constant time.
    pub fn len(&self) -> usize
        ensures value { result ≡ length self.now }
        ensures bound { result ≤ 2 ^ 32 }
    {
        self.map.len()
    }

    /// Whether there are no values.
    pub fn is_empty(&self) -> bool
        ensures { IsTrue result ↔ (self.now ≡ []) }
    {
        self.len() == 0
    }

    /// One more owner of the values as they are now. It takes no memory; only a count of owners can refuse.
    pub fn share(&self) -> Result<Numbered<V>, AllocError>
        ensures { IfOk result (λ same. same ≡ self.now) }
    {
        Ok(Numbered {
            map: self.map.share()?,
        })
    }

    /// The value with a number, or `None` if there is none, in a logarithm of the length.
    #[tactic(auto, using(crate::proofs::Listed::items_get))]
    pub fn get(&self, number: u32) -> Option<&V>
        ensures { option_copied result ≡ slice_get self.now number }
    {
        self.map.get(number)
    }

    // The value at a number that has one.
    fn at(&self, number: usize) -> &V
        requires { number < length self.now }
        ensures { result.now ≡ slice_index_or self.now number result.now }
    {
        let map = &self.map;
        match map.get(number as u32) {
            Some(value) => value,
            None => unreachable!(),
        }
    }

    /// The values with another one at a number. Where memory is refused, the value is dropped.
    pub fn with(&self, alloc: Global, number: u32, value: V) -> Result<Numbered<V>, AllocError>
        requires { number < length self.now }
        ensures { IfOk result (λ values. values ≡ slice_set self.now number value) }
    {
        Ok(Numbered {
            map: self.map.with(alloc, number, value)?,
        })
    }

    /// Puts another value at a number. What other lists share with this one stays as it is, and is copied on the way there; the rest is
    /// changed in place. Where memory is refused, the list stays as it is and the value is dropped.
    pub fn set(&mut self, alloc: Global, number: u32, value: V) -> Result<(), AllocError>
        requires { number < length self.old }
        ensures ok { OnOk result (self.new ≡ slice_set self.old number value) }
        ensures err { OnErr result (self.new ≡ self.old) }
    {
        self.map.set(alloc, number, value)
    }

    /// The values with one more, whose number is the next one. Where memory is refused, the value is dropped.
    pub fn with_next(&self, alloc: Global, value: V) -> Result<Numbered<V>, AllocError>
        ensures { IfOk result (λ values. values ≡ self.now ++ value ∷ []) }
    {
        let Ok(next) = u32::try_from(self.map.len()) else {
            return Err(AllocError);
        };
        Ok(Numbered {
            map: self.map.with(alloc, next, value)?,
        })
    }

    /// The values from the first on.
    pub fn iter(&self) -> Iter<'_, V>
        ensures value { result ≡ self.now }
        ensures fits { length result < 2 ^ 64 }
    {
        Iter {
            values: self,
            next: 0,
            end: self.len(),
        }
    }
}

/// The values from a number on. Contracts see those that are left.
#[derive(Drop)]
pub struct Iter<'a, V> {
    values: &'a Numbered<V>,
    next: usize,
    end: usize,
}

impl<'a, V> Model for Iter<'a, V> {
    ghost use Rattle.std.specs.Prelude.{List, ◌≡◌, ◌≤◌, length, drop};
    ghost use Rattle.std.specs.Coded.{coded_list};

    ghost Value = { List V };

    ghost coded = { coded_list V.code };

    ghost view = { λ a. drop a.next a.values.now };

    ghost invariant = { λ a. (a.next ≤ a.end) × (a.end ≡ length a.values.now) };
}

impl<'a, V: Drop> Iterator for Iter<'a, V> {
    type Item = &'a V;

    ghost next_gives = { YieldsFirstRef (λ s. s) };

    ghost remaining = { item_count (λ s. s) };

    fn next(&mut self) -> Option<&'a V> {
        if self.next >= self.end {
            return None;
        }
        let value = self.values.at(self.next);
        self.next += 1;
        Some(value)
    }
}

impl<'a, V: Drop> IntoIterator for &'a Numbered<V> {
    type Item = &'a V;

    type IntoIter = Iter<'a, V>;

    ghost into_iter_gives = { λ values it. (it ≡ values.now) × (length it < 2 ^ 64) };

    fn into_iter(self) -> Iter<'a, V> {
        self.iter()
    }
}
