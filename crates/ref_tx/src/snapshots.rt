//! The refs at one point.
ghost use Rattle.std.specs.Prelude.{◌≡◌, ◌<◌, ◌≤◌, ◌^◌, ◌↔◌, ◌++◌, ◌∷◌, [], IfOk, IsTrue, OnErr, OnOk, length, option_copied, slice_get, slice_set};
ghost use Rattle.std.specs.Option.{option_map};
ghost use Rattle.ref_tx.specs.Snapshots.{changes_of, values_of};

use ref_pmap::Numbered;
use ref_value::Value;
use std::alloc::{AllocError, Global};
use std::marker::Model;

/// A ref at one point: its value, and the point of its last change.
#[derive(Drop)]
pub struct Version {
    pub value: Value,
    pub changed_at: u64,
}

/// The refs at one point, by number. Contracts see their values, and the points of their last changes. A snapshot has owners of its
/// own: one that is made by [`Snapshot::share`] and then gets other values shares all else with the first, which stays as it is.
///
/// A look-up and another value take time logarithmic in the number of refs.
pub struct Snapshot {
    refs: Numbered<Version>,
}

// A derived one would be written out wherever snapshots are dropped.
impl Drop for Snapshot {
    fn drop(self) {
        let Snapshot { refs: _refs } = self;
    }
}

impl Model for Snapshot {
    ghost use Rattle.std.specs.Coded.{codes};
    ghost use Rattle.ref_value.specs.Code.{edn_code};
    ghost use Rattle.ref_tx.specs.Snapshots.{SnapshotSeen, changes_of, values_of};

    ghost Value = { SnapshotSeen };

    ghost coded = { Prim.hlevel (codes, edn_code) };

    ghost view = { λ a. record { values = values_of a.refs; lasts = changes_of a.refs } };
}

impl Snapshot {
    /// Without refs. It takes no memory.
    pub fn empty() -> Snapshot
        ensures { result ≡ record { values = []; lasts = [] } }
    {
        Snapshot {
            refs: Numbered::empty(),
        }
    }

    /// How many refs there are.
    pub fn len(&self) -> usize
        ensures value { result ≡ length self.now.values }
        // Each ref has a last change.
        ensures lasts { length self.now.lasts ≡ length self.now.values }
        ensures bound { result ≤ 2 ^ 32 }
    {
        self.refs.len()
    }

    /// Whether there are no refs.
    pub fn is_empty(&self) -> bool
        ensures { IsTrue result ↔ (self.now.values ≡ []) }
    {
        self.len() == 0
    }

    /// One more owner of the snapshot. It takes no memory; only a count of owners can refuse.
    pub fn share(&self) -> Result<Snapshot, AllocError>
        ensures { IfOk result (λ same. same ≡ self.now) }
    {
        Ok(Snapshot {
            refs: self.refs.share()?,
        })
    }

    /// The value of a ref, if there is such a ref.
    pub fn get(&self, r: u32) -> Option<&Value>
        ensures { option_copied result ≡ slice_get self.now.values r }
    {
        match self.refs.get(r) {
            Some(version) => Some(&version.value),
            None => None,
        }
    }

    /// A ref at this point, if there is such a ref: one look-up for its value and the point of its last change.
    pub fn version(&self, r: u32) -> Option<&Version>
        ensures value { option_map (λ v. v.value) (option_copied result) ≡ slice_get self.now.values r }
        ensures last { option_map (λ v. v.changed_at) (option_copied result) ≡ slice_get self.now.lasts r }
    {
        self.refs.get(r)
    }

    /// The point of a ref's last change, if there is such a ref.
    pub fn last_change(&self, r: u32) -> Option<u64>
        ensures { result ≡ slice_get self.now.lasts r }
    {
        match self.refs.get(r) {
            Some(version) => Some(version.changed_at),
            None => None,
        }
    }

    /// The refs from the first on.
    pub fn versions(&self) -> &Numbered<Version>
        ensures values { values_of result.now ≡ self.now.values }
        ensures lasts { changes_of result.now ≡ self.now.lasts }
    {
        &self.refs
    }

    /// Puts another value at a ref, which changes at this point. What other snapshots share with this one stays as it is, and is copied on
    /// the way there; the rest is changed in place. Where memory is refused, the snapshot stays as it is and the value is dropped.
    pub fn set(&mut self, alloc: Global, r: u32, value: Value, at: u64) -> Result<(), AllocError>
        requires { r < length self.old.values }
        ensures values { OnOk result (self.new.values ≡ slice_set self.old.values r value) }
        ensures lasts { OnOk result (self.new.lasts ≡ slice_set self.old.lasts r at) }
        ensures err { OnErr result (self.new ≡ self.old) }
    {
        let version = Version {
            value,
            changed_at: at,
        };
        self.refs.set(alloc, r, version)
    }

    /// The refs with one more, whose number is the next one. Where memory is refused, its value is dropped.
    pub fn with_next(&self, alloc: Global, value: Value, at: u64) -> Result<Snapshot, AllocError>
        ensures values { IfOk result (λ after. after.values ≡ self.now.values ++ value ∷ []) }
        ensures lasts { IfOk result (λ after. after.lasts ≡ self.now.lasts ++ at ∷ []) }
    {
        let version = Version {
            value,
            changed_at: at,
        };
        Ok(Snapshot {
            refs: self.refs.with_next(alloc, version)?,
        })
    }
}
