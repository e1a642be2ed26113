//! The refs now: a snapshot, and changes that it has yet to take.
//!
//! A commit that can't fail any more has its changes noted behind the snapshot, and only then has the snapshot take them, in place where
//! nobody else has it. If memory is refused there, they stay noted, and nobody sees a difference.
ghost use Rattle.std.specs.Option.{option_map};
ghost use Rattle.std.specs.Prelude.{◌≡◌, ◌≤◌, ◌^◌, ◌↔◌, ◌++◌, ◌∷◌, [], IfOk, IsTrue, length, option_copied, slice_get};
ghost use Rattle.ref_refs.specs.Late.{all_taken};

use crate::late::Late;
use ref_tx::{Snapshot, Version};
use ref_value::Value;
use std::alloc::{AllocError, Global};
use std::marker::Model;
use std::mem::replace;

/// The refs now. Contracts see their values and the points of their last changes.
pub(crate) struct Refs {
    pub(crate) settled: Snapshot,
    pub(crate) late: Late,
}

// A derived one would be written out wherever stores are dropped.
impl Drop for Refs {
    fn drop(self) {
        let Refs {
            settled: _settled,
            late: _late,
        } = self;
    }
}

impl Model for Refs {
    ghost use Rattle.std.specs.Coded.{codes};
    ghost use Rattle.ref_value.specs.Code.{edn_code};
    ghost use Rattle.ref_tx.specs.Snapshots.{SnapshotSeen};
    ghost use Rattle.ref_refs.specs.Late.{all_taken};

    ghost Value = { SnapshotSeen };

    ghost coded = { Prim.hlevel (codes, edn_code) };

    ghost view = { λ a. all_taken a.late a.settled };
}

impl Refs {
    /// Those of a snapshot.
    pub(crate) fn of(settled: Snapshot) -> Refs
        ensures { result ≡ settled }
    {
        Refs {
            settled,
            late: Late::none(),
        }
    }

    /// How many refs there are.
    pub(crate) fn len(&self) -> usize
        ensures value { result ≡ length self.now.values }
        ensures lasts { length self.now.lasts ≡ length self.now.values }
        ensures bound { result ≤ 2 ^ 32 }
    {
        self.settled.len()
    }

    /// A ref now, if there is such a ref.
    pub(crate) fn version(&self, r: u32) -> Option<&Version>
        ensures value { option_map (λ v. v.value) (option_copied result) ≡ slice_get self.now.values r }
        ensures last { option_map (λ v. v.changed_at) (option_copied result) ≡ slice_get self.now.lasts r }
    {
        match self.settled.version(r) {
            None => None,
            Some(settled) => match self.late.latest(r) {
                Some(late) => Some(late),
                None => Some(settled),
            },
        }
    }

    /// The value of a ref, if there is such a ref.
    pub(crate) fn get(&self, r: u32) -> Option<&Value>
        ensures { option_copied result ≡ slice_get self.now.values r }
    {
        match self.version(r) {
            Some(version) => Some(&version.value),
            None => None,
        }
    }

    /// The point of a ref's last change, if there is such a ref.
    pub(crate) fn last_change(&self, r: u32) -> Option<u64>
        ensures { result ≡ slice_get self.now.lasts r }
    {
        match self.version(r) {
            Some(version) => Some(version.changed_at),
            None => None,
        }
    }

    /// A snapshot of the refs now. It takes no memory but where changes are noted for which memory was refused before.
    pub(crate) fn share(&self, alloc: Global) -> Result<Snapshot, AllocError>
        ensures { IfOk result (λ refs. refs ≡ self.now) }
    {
        let mut refs = self.settled.share()?;
        self.late.place_all(alloc, &mut refs)?;
        Ok(refs)
    }

    /// Has the snapshot take what is noted, as far as there is memory. Nobody sees a difference.
    pub(crate) fn settle(&mut self, alloc: Global)
        ensures { self.new ≡ self.old }
    {
        while !self.late.is_none() {
            if self.late.place_oldest(alloc, &mut self.settled).is_err() {
                return;
            }
        }
    }

    /// Notes changes, which come after those that are noted. It can't fail.
    pub(crate) fn note(&mut self, changes: Late)
        ensures { self.new ≡ all_taken changes self.old }
    {
        let mut late = changes;
        late.put_behind(replace(&mut self.late, Late::none()));
        self.late = late;
    }
}
