//! The watches of a reference.
ghost use Rattle.std.specs.Prelude.{◌≡◌, ◌++◌, ◌↔◌, [], false, not, IsTrue, IfOk, OnErr, OnOk, length, take};
ghost use Rattle.ref_log.specs.Watches.{AreDistinct, has_key, notices_of, with_key, without_key};

use crate::notices::{Notice, Who};
use ref_value::Value;
use std::alloc::{AllocError, Global};
use std::marker::Model;

/// The watches of a reference: their keys, in the order of adding. Contracts see a list.
///
/// It is always so that no two keys are equal.
#[derive(Drop)]
pub struct Watches {
    keys: Vec<Value>,
}

impl Model for Watches {
    ghost use Rattle.std.specs.Prelude.{List};
    ghost use Rattle.std.specs.Coded.{coded_list};
    ghost use Rattle.ref_value.specs.Edn.{Edn};
    ghost use Rattle.ref_value.specs.Code.{edn_code};
    ghost use Rattle.ref_log.specs.Watches.{AreDistinct};

    ghost Value = { List Edn };

    ghost coded = { coded_list edn_code };

    ghost view = { λ a. a.keys.items };

    ghost invariant = { λ a. AreDistinct a.keys.items };
}

impl Watches {
    /// No watch. It takes no memory.
    pub fn empty(alloc: Global) -> Watches
        ensures { result ≡ [] }
    {
        Watches {
            keys: Vec::new(alloc),
        }
    }

    /// Whether there are no watches.
    pub fn is_empty(&self) -> bool
        ensures { IsTrue result ↔ (self.now ≡ []) }
    {
        self.keys.is_empty()
    }

    /// Whether a watch has this key. Linear in the number of watches.
    pub fn has(&self, key: &Value) -> bool
        ensures has { result ≡ has_key self.now key.now }
        // No two keys are equal.
        ensures distinct { AreDistinct self.now }
    {
        self.keys.contains(key)
    }

    /// Adds a watch behind the others, and answers whether its key is new; a key that is there stays where it is. Linear in
    /// the number of watches. A refused call changes nothing.
    #[tactic(auto, using(crate::proofs::Guarded::distinct_more))]
    pub fn add(&mut self, key: Value) -> Result<bool, AllocError>
        ensures new { IfOk result (λ is_new. is_new ≡ not (has_key self.old key)) }
        ensures adds { OnOk result (self.new ≡ with_key self.old key) }
        ensures memory { OnErr result (has_key self.old key ≡ false) }
        ensures err { OnErr result (self.new ≡ self.old) }
    {
        if self.has(&key) {
            return Ok(false);
        }
        self.keys.push(key)?;
        Ok(true)
    }

    /// Takes the watch with this key away, and answers whether it was there. The others stay in order. It takes no memory.
    /// Linear in the number of watches.
    #[tactic(auto, using(crate::proofs::Guarded::distinct_left))]
    pub fn remove(&mut self, key: &Value) -> bool
        ensures was { result ≡ has_key self.old key.now }
        ensures removes { self.new ≡ without_key self.old key.now }
    {
        let was = self.has(key);
        self.keys.retain(|k| k != key);
        was
    }

    /// Adds a notice for each of the watches, in the order of adding: the value of `who` was `before` and is `after`. A
    /// refused call adds none.
    pub fn tell(
        &self,
        who: Who,
        before: &Value,
        after: &Value,
        all: &mut Vec<Notice>,
    ) -> Result<(), AllocError>
        ensures ok { OnOk result (all.new.items ≡ all.old.items ++ notices_of who self.now before.now after.now) }
        ensures err { OnErr result (all.new.items ≡ all.old.items) }
    {
        let count = all.len();
        let told = self.tell_each(who, before, after, all);
        if told.is_err() {
            all.truncate(count);
        }
        told
    }

    // A refused call adds those before the refusal.
    fn tell_each(
        &self,
        who: Who,
        before: &Value,
        after: &Value,
        all: &mut Vec<Notice>,
    ) -> Result<(), AllocError>
        ensures ok { OnOk result (all.new.items ≡ all.old.items ++ notices_of who self.now before.now after.now) }
        ensures kept { take (length all.old.items) all.new.items ≡ all.old.items }
    {
        for key in &self.keys {
            all.push(Notice {
                who,
                key: key.share()?,
                before: before.share()?,
                after: after.share()?,
            })?;
        }
        Ok(())
    }
}
