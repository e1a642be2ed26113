//! Going over the items.
ghost use Rattle.std.specs.Prelude.{◌≡◌, ◌<◌, ◌^◌, length};
ghost use Rattle.std.specs.Iterator.{YieldsFirstRef, item_count};

use crate::vectors::PVec;
use std::marker::Model;
use std::sync::Arc;

/// The items from a place on. Contracts see those that are left.
#[derive(Drop)]
pub struct Iter<'a, T> {
    vector: &'a PVec<T>,
    // What is left of the present chunk, the index behind it, and the vector's length.
    run: &'a [Arc<T>],
    next: usize,
    end: usize,
}

impl<'a, T> Model for Iter<'a, T> {
    ghost use Rattle.std.specs.Prelude.{List, ◌≡◌, ◌≤◌, ◌++◌, length, drop};
    ghost use Rattle.ref_pvec.specs.Chunks.{values};

    ghost Value = { List T };

    ghost view = { λ a. values a.run.now ++ drop a.next a.vector.now };

    ghost invariant = { λ a. (a.next ≤ a.end) × (a.end ≡ length a.vector.now) };
}

impl<'a, T: Drop> Iter<'a, T> {
    pub(crate) fn over(vector: &'a PVec<T>) -> Iter<'a, T>
        ensures value { result ≡ vector.now }
        ensures fits { length result < 2 ^ 64 }
    {
        Iter {
            vector,
            run: &[],
            next: 0,
            end: vector.len(),
        }
    }
}

impl<'a, T: Drop> Iterator for Iter<'a, T> {
    type Item = &'a T;

    ghost next_gives = { YieldsFirstRef (λ s. s) };

    ghost remaining = { item_count (λ s. s) };

    fn next(&mut self) -> Option<&'a T> {
        if let Some((first, others)) = self.run.split_first() {
            self.run = others;
            return Some(&**first);
        }
        if self.next >= self.end {
            return None;
        }
        let run = self.vector.run_from(self.next);
        let (first, others) = run.split_first()?;
        self.next += run.len();
        self.run = others;
        Some(&**first)
    }
}

impl<'a, T: Drop> IntoIterator for &'a PVec<T> {
    type Item = &'a T;

    type IntoIter = Iter<'a, T>;

    ghost into_iter_gives = { λ vector it. (it ≡ vector.now) × (length it < 2 ^ 64) };

    fn into_iter(self) -> Iter<'a, T> {
        self.iter()
    }
}
