//! The map: a tree where there are entries, and their number.
ghost use Rattle.std.specs.Prelude.{◌≡◌, ◌↔◌, IsTrue, IfOk, OnErr, OnOk, is_some, true};
ghost use Rattle.std.specs.Option.{option_copied};
ghost use Rattle.std.specs.FinMap as map;
ghost use Rattle.ref_pmap.specs.Whole.{shown};

use crate::trees::{Tree, add_entries};
use std::alloc::{AllocError, Global};
use std::marker::Model;

/// A map from `u32` whose old versions stay. Contracts see a finite map.
#[derive(Drop)]
pub struct PMap<V> {
    len: usize,
    tree: Tree<V>,
}

impl<V> Model for PMap<V> {
    ghost use Rattle.std.specs.Prelude.{◌≡◌};
    ghost use Rattle.std.specs.Ordering.{nat_cmp};
    ghost use Rattle.std.specs.FinMap as map;
    ghost use Rattle.std.specs.Coded.{coded_ℕ};

    ghost Value = { map.FinMap nat_cmp V };

    ghost coded = { map.code coded_ℕ V.code };

    ghost view = { λ a. a.tree.0 };

    ghost invariant = { λ a. a.len ≡ map.len a.tree.0 };
}

impl<V: Drop> PMap<V> {
    /// A map without entries. It takes no memory.
    #[tactic(auto, using(crate::proofs::WholeMaps::maps))]
    pub fn empty() -> PMap<V>
        ensures { result ≡ map.empty }
    {
        PMap {
            len: 0,
            tree: Tree::empty(),
        }
    }

    /// How many entries there are, in constant time.
    pub fn len(&self) -> usize
        ensures { result ≡ map.len self.now }
    {
        self.len
    }

    /// Whether there are no entries.
    pub fn is_empty(&self) -> bool
        ensures { IsTrue result ↔ (self.now ≡ map.empty) }
    {
        self.len == 0
    }

    /// One more owner of the map. It takes no memory; only a count of owners can refuse.
    pub fn share(&self) -> Result<PMap<V>, AllocError>
        ensures { IfOk result (λ m. m ≡ self.now) }
    {
        Ok(PMap {
            len: self.len,
            tree: self.tree.share()?,
        })
    }

    /// The value at a key, or `None` if there is none, in as many steps as the tree is deep: 8 forks at most.
    #[tactic(auto, using(crate::proofs::WholeMaps::maps))]
    pub fn get(&self, key: u32) -> Option<&V>
        ensures { option_copied result ≡ map.get self.now key }
    {
        self.tree.get(key)
    }

    /// The map with this value at the key, instead of the one that may be there. Where memory is refused, the value is dropped.
    #[tactic(auto, using(crate::proofs::WholeMaps::maps))]
    pub fn with(&self, alloc: Global, key: u32, value: V) -> Result<PMap<V>, AllocError>
        ensures { IfOk result (λ m. m ≡ map.insert self.now key value) }
    {
        let len = match self.get(key) {
            Some(_) => self.len,
            None => self.len.checked_add(1).ok_or(AllocError)?,
        };
        let mut tree = self.tree.share()?;
        tree.put(alloc, key, value)?;
        Ok(PMap { len, tree })
    }

    /// Puts this value at the key, instead of the one that is there. On its way there, what other maps have too is copied, and the rest
    /// is changed in place. Where memory is refused, the map stays as it is and the value is dropped.
    #[tactic(auto, using(crate::proofs::WholeMaps::maps, crate::proofs::WholeMaps::as_many))]
    pub fn set(&mut self, alloc: Global, key: u32, value: V) -> Result<(), AllocError>
        requires { is_some (map.get self.old key) ≡ true }
        ensures ok { OnOk result (self.new ≡ map.insert self.old key value) }
        ensures err { OnErr result (self.new ≡ self.old) }
    {
        self.tree.put(alloc, key, value)
    }

    /// The map without the key: one more owner of this one, where the key isn't there.
    #[tactic(auto, using(crate::proofs::WholeMaps::maps, crate::proofs::WholeMaps::gone_already, crate::proofs::WholeMaps::one_less))]
    pub fn without(&self, alloc: Global, key: u32) -> Result<PMap<V>, AllocError>
        ensures { IfOk result (λ m. m ≡ map.remove self.now key) }
    {
        if self.tree.get(key).is_none() {
            return self.share();
        }
        Ok(PMap {
            len: self.len.saturating_sub(1),
            tree: self.tree.without(alloc, key)?,
        })
    }

    /// The entries in the order of their keys.
    pub fn walk(&self, alloc: Global) -> Result<Vec<(u32, &V)>, AllocError>
        ensures { IfOk result (λ entries. shown entries.items ≡ map.entries self.now) }
    {
        let mut entries = Vec::new(alloc);
        add_entries(&self.tree, &mut entries)?;
        Ok(entries)
    }
}
