//! Drafts of the refs: what they are to be after a commit.
ghost use Rattle.std.specs.Option.{option_map};
ghost use Rattle.std.specs.Prelude.{◌≡◌, ◌<◌, ◌≤◌, ◌^◌, IfOk, OnErr, OnOk, length, option_copied, slice_get, slice_set};
ghost use Rattle.ref_refs.specs.Kept.{drafted};

use crate::current::Refs;
use crate::late::{Item, Late};
use ref_tx::{Snapshot, Version};
use ref_value::Value;
use std::alloc::{AllocError, Global};
use std::marker::Model;
use std::snapshot;

// How many changes are kept as such. From there on a draft is a whole snapshot.
const MOST_CHANGES: usize = 16;

// What is kept of a draft's changes.
#[derive(Drop)]
pub(crate) enum Kept {
    Few(Late),
    Whole(Snapshot),
}

/// The refs after some changes. Contracts see the refs that they were made to, and the refs after them.
#[derive(Drop)]
pub(crate) struct Draft<'a> {
    pub(crate) base: &'a Refs,
    // How many changes there are, at most `MOST_CHANGES` where there are few.
    pub(crate) count: usize,
    pub(crate) kept: Kept,
}

impl<'a> Model for Draft<'a> {
    ghost use Rattle.std.specs.Coded.{codes};
    ghost use Rattle.ref_value.specs.Code.{edn_code};
    ghost use Rattle.ref_refs.specs.Drafts.{DraftSeen};

    ghost Value = { DraftSeen };

    ghost coded = { Prim.hlevel (codes, edn_code) };

    ghost use Rattle.ref_refs.specs.Kept.{after_kept, drafted};

    ghost view = { λ a. drafted a.base.now (after_kept a.kept a.base.now) };
}

impl<'a> Draft<'a> {
    /// Without changes. It takes no memory.
    pub(crate) fn over(base: &'a Refs) -> Draft<'a>
        ensures { result ≡ drafted base.now base.now }
    {
        Draft {
            base,
            count: 0,
            kept: Kept::Few(Late::none()),
        }
    }

    /// How many refs there are.
    pub(crate) fn len(&self) -> usize
        ensures value { result ≡ length self.now.values }
        ensures lasts { length self.now.lasts ≡ length self.now.values }
    {
        match &self.kept {
            Kept::Few(_) => self.base.len(),
            Kept::Whole(refs) => refs.len(),
        }
    }

    /// The value of a ref after the changes, if there is such a ref.
    pub(crate) fn get(&self, r: u32) -> Option<&Value>
        ensures { option_copied result ≡ slice_get self.now.values r }
    {
        match &self.kept {
            Kept::Few(late) => match self.base.get(r) {
                None => None,
                Some(before) => match late.latest(r) {
                    Some(version) => Some(&version.value),
                    None => Some(before),
                },
            },
            Kept::Whole(refs) => refs.get(r),
        }
    }

    /// Puts another value at a ref, which changes at this point. Where memory is refused, the draft stays as it is and the value is
    /// dropped.
    pub(crate) fn set(
        &mut self,
        alloc: Global,
        r: u32,
        value: Value,
        at: u64,
    ) -> Result<(), AllocError>
        requires { r < length self.old.values }
        ensures base { self.new.base ≡ self.old.base }
        ensures values { OnOk result (self.new.values ≡ slice_set self.old.values r value) }
        ensures lasts { OnOk result (self.new.lasts ≡ slice_set self.old.lasts r at) }
        ensures err { OnErr result (self.new ≡ self.old) }
    {
        if self.count >= MOST_CHANGES {
            self.make_whole(alloc)?;
        }
        let version = Version {
            value,
            changed_at: at,
        };
        match &mut self.kept {
            Kept::Few(late) => {
                late.add(alloc, Item { r, version })?;
                self.count = self.count.saturating_add(1);
                Ok(())
            }
            Kept::Whole(refs) => {
                let Version { value, changed_at } = version;
                refs.set(alloc, r, value, changed_at)
            }
        }
    }

    // Keeps all refs instead of the changes. What the draft shows stays.
    fn make_whole(&mut self, alloc: Global) -> Result<(), AllocError>
        ensures { self.new ≡ self.old }
    {
        if let Kept::Few(late) = &self.kept {
            let mut refs = self.base.share(alloc)?;
            late.place_all(alloc, &mut refs)?;
            self.kept = Kept::Whole(refs);
        }
        Ok(())
    }

    /// What is to be done to the refs.
    pub(crate) fn done(self) -> Changes
        ensures { result ≡ self.entry }
    {
        let Draft {
            base,
            count: _count,
            kept,
        } = self;
        Changes {
            kept,
            base: snapshot::Snapshot::of(base),
        }
    }
}

/// What a commit does to the refs. Contracts see the refs before it and after it.
#[derive(Drop)]
pub struct Changes {
    pub(crate) kept: Kept,
    pub(crate) base: snapshot::Snapshot<Refs>,
}

impl Model for Changes {
    ghost use Rattle.std.specs.Coded.{codes};
    ghost use Rattle.ref_value.specs.Code.{edn_code};
    ghost use Rattle.ref_refs.specs.Drafts.{DraftSeen};

    ghost Value = { DraftSeen };

    ghost coded = { Prim.hlevel (codes, edn_code) };

    ghost use Rattle.ref_refs.specs.Kept.{after_kept, drafted};

    ghost view = { λ a. drafted a.base.value (after_kept a.kept a.base.value) };
}

impl Refs {
    /// Makes these changes, which were drafted over these refs. It can't fail.
    pub(crate) fn make(&mut self, changes: Changes)
        requires { changes.base ≡ self.old }
        ensures values { self.new.values ≡ changes.values }
        ensures lasts { self.new.lasts ≡ changes.lasts }
    {
        let Changes { kept, base: _base } = changes;
        match kept {
            Kept::Few(late) => self.note(late),
            Kept::Whole(refs) => {
                *self = Refs::of(refs);
            }
        }
    }
}
