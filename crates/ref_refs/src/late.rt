//! Changes of refs that a snapshot has yet to take.
ghost use Rattle.std.specs.Prelude.{◌≡◌, ◌+◌, ◌++◌, ◌∷◌, ◌↔◌, [], ◌⊎◌, IsTrue, OnErr, OnOk, length, option_copied};
ghost use Rattle.ref_refs.specs.Late.{all_taken, latest_of, taken};

use ref_tx::{Snapshot, Version};
use std::alloc::{AllocError, AllocFailed, Global};
use std::boxed::Box;
use std::marker::Model;
use std::mem::replace;

/// The new version of a ref.
#[derive(Drop)]
pub(crate) struct Item {
    pub(crate) r: u32,
    pub(crate) version: Version,
}

/// Changes of refs, the latest first. Contracts see a list. One more, and more behind the others, need nothing of those that are there.
#[cycle(late)]
pub(crate) struct Late {
    first: Link,
}

// A derived one would be written out wherever changes are dropped.
impl Drop for Late {
    #[cycle(late)]
    fn drop(self) {
        let Late { first: _first } = self;
    }
}

#[cycle(late)]
#[derive(Drop)]
pub(crate) enum Link {
    End,
    To(Box<Change>),
}

#[cycle(late)]
#[derive(Drop)]
pub(crate) struct Change {
    item: Item,
    older: Late,
}

impl Model for Late {
    ghost use Rattle.std.specs.Prelude.{List, ℕ, length};
    ghost use Rattle.std.specs.Coded.{codes};
    ghost use Rattle.ref_value.specs.Code.{edn_code};
    ghost use Rattle.ref_refs.specs.declared.late.Item.{Item};

    ghost Value = { List Item };

    ghost coded = { Prim.hlevel (codes, edn_code) };

    ghost use Rattle.ref_refs.specs.Chained.{items_of};

    ghost view = { λ a. items_of a.first };

    ghost size = { λ t. length t };

    ghost use Rattle.ref_refs.specs.Falls.{falls};

    ghost size_decreases = { λ a h. falls a.first };
}

impl Late {
    /// No changes. It takes no memory.
    pub(crate) fn none() -> Late
        ensures { result ≡ [] }
    {
        Late { first: Link::End }
    }

    pub(crate) fn is_none(&self) -> bool
        ensures { IsTrue result ↔ (self.now ≡ []) }
    {
        matches!(self.first, Link::End)
    }

    /// Adds one more, the latest. Where memory is refused, it is dropped.
    pub(crate) fn add(&mut self, alloc: Global, item: Item) -> Result<(), AllocError>
        ensures ok { OnOk result (self.new ≡ item ∷ self.old) }
        ensures err { OnErr result (self.new ≡ self.old) }
    {
        let older = replace(self, Late::none());
        match Box::new(alloc, Change { item, older }) {
            Ok(change) => {
                self.first = Link::To(change);
                Ok(())
            }
            Err(AllocFailed { value }) => {
                let Change { item: _item, older } = value;
                *self = older;
                Err(AllocError)
            }
        }
    }

    /// The latest version of a ref among these, in as many steps as there are changes.
    pub(crate) fn latest(&self, r: u32) -> Option<&Version>
        ensures { option_copied result ≡ latest_of self.now r }
    {
        match &self.first {
            Link::End => None,
            Link::To(change) => {
                if change.item.r == r {
                    Some(&change.item.version)
                } else {
                    change.older.latest(r)
                }
            }
        }
    }

    /// Puts older changes behind these. It can't fail.
    pub(crate) fn put_behind(&mut self, mut older: Late)
        ensures { self.new ≡ self.old ++ older }
    {
        match &mut self.first {
            Link::End => {
                self.first = replace(&mut older.first, Link::End);
            }
            Link::To(change) => change.older.put_behind(older),
        }
    }

    /// Has a snapshot take the oldest change, which is then gone. Where memory is refused, both stay as they are.
    pub(crate) fn place_oldest(
        &mut self,
        alloc: Global,
        refs: &mut Snapshot,
    ) -> Result<(), AllocError>
        ensures same { all_taken self.new refs.new ≡ all_taken self.old refs.old }
        ensures shorter { OnOk result ((self.old ≡ []) ⊎ (length self.new + 1 ≡ length self.old)) }
    {
        let is_oldest = match &mut self.first {
            Link::End => return Ok(()),
            Link::To(change) => {
                if change.older.is_none() {
                    place(alloc, &change.item, refs)?;
                    true
                } else {
                    change.older.place_oldest(alloc, refs)?;
                    false
                }
            }
        };
        if is_oldest {
            self.first = Link::End;
        }
        Ok(())
    }

    /// Has a snapshot take all changes. Where memory is refused, it has taken some.
    pub(crate) fn place_all(&self, alloc: Global, refs: &mut Snapshot) -> Result<(), AllocError>
        ensures { OnOk result (refs.new ≡ all_taken self.now refs.old) }
    {
        match &self.first {
            Link::End => Ok(()),
            Link::To(change) => {
                change.older.place_all(alloc, refs)?;
                place(alloc, &change.item, refs)
            }
        }
    }
}

// Has a snapshot take a change. One of a ref that isn't there is none.
fn place(alloc: Global, item: &Item, refs: &mut Snapshot) -> Result<(), AllocError>
    ensures ok { OnOk result (refs.new ≡ taken refs.old item.now) }
    ensures err { OnErr result (refs.new ≡ refs.old) }
{
    if item.r as usize >= refs.len() {
        return Ok(());
    }
    let value = item.version.value.share()?;
    refs.set(alloc, item.r, value, item.version.changed_at)
}
