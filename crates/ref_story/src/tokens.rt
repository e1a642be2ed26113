// What a thread knows and holds. None of these has bytes.
ghost use Rattle.std.specs.Prelude.{◌≡◌, ◌⊎◌, ℕ, List, [], ◌∷◌, ◌++◌};
ghost use mathlib.Core.List.{IsPrefix};
ghost use base.Stored.{coded_list};
ghost use denote.Sharing.{said};
ghost use Rattle.ref_story.specs.Kept.{whole, reached};

use std::marker::{Model, PhantomData};

/// Says which entry is added for a value: an entry of type `E` for one of type `X`.
pub trait Tells<X, E> {
    ghost tells: { X → E };
}

/// The whole history. Who has it is alone in adding to it.
pub struct Story<E> {
    marker: PhantomData<E>,
    /// Which history it is.
    pub ghost name: { ℕ },
    /// Its entries, the oldest first.
    pub ghost log: { List E } by { coded_list E.code },
}

impl<E> Model for Story<E> {
    ghost also_owns = { λ s. whole E.row.coded.code s.name s.log };
}

/// A beginning of a history: so far it has come, and it will never be otherwise.
pub struct Seen<E> {
    marker: PhantomData<E>,
    /// Of which history.
    pub ghost name: { ℕ },
    /// The entries of that beginning, the oldest first.
    pub ghost log: { List E } by { coded_list E.code },
}

impl<E> Model for Seen<E> {
    ghost also_owns = { λ s. reached E.row.coded.code s.name s.log };

    ghost also_shares = { λ s _ κ. said (reached E.row.coded.code s.name s.log) κ };
}

impl<E> Story<E> {
    /// A history with no entries.
    pub fn new() -> Story<E>
        ensures { result.log ≡ [] }
    {
        Story {
            marker: PhantomData,
        }
    }

    /// Adds an entry.
    pub fn add(&mut self, entry: &E)
        ensures { (self.new.name ≡ self.old.name) × (self.new.log ≡ self.old.log ++ entry.now ∷ []) }
    {
        // Nothing is done: the right to the history comes to be one to the longer history.
    }

    /// Adds the entry that tells of a value. The entry itself is made nowhere.
    pub fn add_as<X, N: Tells<X, E>>(&mut self, about: &X)
        ensures { (self.new.name ≡ self.old.name) × (self.new.log ≡ self.old.log ++ N.tells about.now ∷ []) }
    {}

    /// The history up to now.
    pub fn seen(&mut self) -> Seen<E>
        ensures { (result.name ≡ self.old.name) × (result.log ≡ self.old.log) × (self.new ≡ self.old) }
    {
        Seen {
            marker: PhantomData,
        }
    }

    /// Whatever was seen of this history begins it.
    pub fn bounds(&mut self, seen: &Seen<E>)
        requires { seen.now.name ≡ self.old.name }
        ensures { (self.new ≡ self.old) × IsPrefix seen.now.log self.old.log }
    {}
}

impl<E> Seen<E> {
    /// The same beginning once more.
    pub fn again(&self) -> Seen<E>
        ensures { result ≡ self.now }
    {
        Seen {
            marker: PhantomData,
        }
    }

    /// Of two beginnings of one history one begins the other.
    pub fn in_line(&self, other: &Seen<E>)
        requires { other.now.name ≡ self.now.name }
        ensures { IsPrefix self.now.log other.now.log ⊎ IsPrefix other.now.log self.now.log }
    {}
}

impl<E> Drop for Story<E> {
    fn drop(self) {
        let Self { marker: _ } = self;
    }
}

impl<E> Drop for Seen<E> {
    fn drop(self) {
        let Self { marker: _ } = self;
    }
}

unsafe impl<E> Send for Story<E> {}

unsafe impl<E> Send for Seen<E> {}

unsafe impl<E> Sync for Seen<E> {}
