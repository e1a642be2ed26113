//! A set of pairs of numbers.
ghost use Rattle.std.specs.Prelude.{◌≡◌, ◌≤◌, ◌<◌, ◌^◌, ◌==◌, ◌&&◌, ◌||◌, if◌then◌else◌, ℕ, [], true, false, IfSome, OnOk, OnErr, None};
ghost use Rattle.ref_agents.specs.Places.{has_pair};

use std::alloc::{AllocError, Global};
use std::collections::BTreeSet;
use std::marker::Model;

/// Pairs of numbers, in order.
#[derive(Drop)]
pub(crate) struct Pairs {
    pairs: BTreeSet<(u64, u64)>,
}

impl Model for Pairs {
    ghost use Rattle.std.specs.Prelude.{List, ℕ};
    ghost use Rattle.std.specs.BTreeSet.{keys};

    ghost Value = { List (ℕ × ℕ) };

    ghost view = { λ a. keys a.pairs };
}

impl Pairs {
    /// No pairs. It takes no memory.
    pub(crate) fn new(alloc: Global) -> Pairs
        ensures { result ≡ [] }
    {
        Pairs {
            pairs: BTreeSet::new(alloc),
        }
    }

    /// One more pair, if it isn't here. A refused call changes nothing.
    pub(crate) fn insert(&mut self, x: u64, y: u64) -> Result<(), AllocError>
        ensures ok { OnOk result ((a b : ℕ) → has_pair self.new a b ≡ ((x == a && y == b) || has_pair self.old a b)) }
        ensures err { OnErr result (self.new ≡ self.old) }
    {
        self.pairs.insert((x, y))?;
        Ok(())
    }

    /// Takes a pair away, if it is here.
    pub(crate) fn remove(&mut self, x: u64, y: u64)
        ensures { (a b : ℕ) → has_pair self.new a b ≡ (if x == a && y == b then false else has_pair self.old a b) }
    {
        self.pairs.remove(&(x, y));
    }

    /// Takes all away.
    pub(crate) fn clear(&mut self)
        ensures { self.new ≡ [] }
    {
        self.pairs.clear();
    }

    /// The least second number, from one on, of a pair with this first number.
    pub(crate) fn first_from(&self, x: u64, from: u64) -> Option<u64>
        ensures here { IfSome result (λ y. has_pair self.now x y ≡ true) }
        ensures from { IfSome result (λ y. from ≤ y) }
        ensures first { IfSome result (λ y. (b : ℕ) → from ≤ b → b < y → has_pair self.now x b ≡ false) }
        ensures none { result ≡ None → (b : ℕ) → from ≤ b → b < 2 ^ 64 → has_pair self.now x b ≡ false }
    {
        let (_, y) = *self.pairs.range((x, from)..=(x, u64::MAX)).next()?;
        Some(y)
    }

    /// The greatest second number of a pair with this first number.
    pub(crate) fn last_of(&self, x: u64) -> Option<u64>
        ensures here { IfSome result (λ y. has_pair self.now x y ≡ true) }
        ensures last { IfSome result (λ y. (b : ℕ) → y < b → b < 2 ^ 64 → has_pair self.now x b ≡ false) }
        ensures none { result ≡ None → (b : ℕ) → b < 2 ^ 64 → has_pair self.now x b ≡ false }
    {
        let (_, y) = *self.pairs.range((x, 0)..=(x, u64::MAX)).next_back()?;
        Some(y)
    }
}
