//! The transactions that actors have open.
ghost use Rattle.std.specs.Prelude.{◌≡◌, ◌≢◌, None, Some, IsSome, IfSome, OnOk, OnErr, option_copied};
ghost use Rattle.std.specs.Bool.{OnTrue, OnFalse};
ghost use Rattle.ref_play.specs.Present.{put};
ghost use Rattle.ref_play.specs.Runs.{AreServed};
ghost use Rattle.ref_play.specs.Sims.{slot_of, txs_of};

use ref_fun::{Functions, Meaning};
use ref_refs::check_served;
use ref_tx::Tx;
use std::alloc::{AllocError, Global};
use std::collections::BTreeMap;
use std::marker::Model;

// Of each actor that ever began a transaction the one that it has open, if any: so a transaction can be put back without memory.
#[derive(Drop)]
pub(crate) struct Actors<M: Meaning> {
    slots: BTreeMap<u32, Option<Tx<M>>>,
}

impl<M: Meaning> Model for Actors<M> {
    ghost use Rattle.std.specs.Coded.{codes};
    ghost use Rattle.ref_value.specs.Code.{edn_code};
    ghost use Rattle.ref_play.specs.Sims.{Slots};

    ghost Value = { Slots };

    ghost coded = { Prim.hlevel (codes, edn_code) };

    ghost view = { λ a. a.slots.entries };
}

impl<M: Meaning> Actors<M> {
    pub(crate) fn none(alloc: Global) -> Actors<M>
        ensures { (a : _) → txs_of result a ≡ None }
    {
        Actors {
            slots: BTreeMap::new(alloc),
        }
    }

    // The transaction that an actor has open.
    pub(crate) fn tx(&self, a: u32) -> Option<&Tx<M>>
        ensures { option_copied result ≡ txs_of self.now a }
    {
        match self.slots.get(&a) {
            Some(Some(tx)) => Some(tx),
            _ => None,
        }
    }

    // Whether a table has each function that an open transaction commutes by.
    pub(crate) fn are_served<F: Functions<M>>(&self, funs: &F) -> bool
        ensures yes { OnTrue result (AreServed (F.knows funs.now).funs (txs_of self.now)) }
        ensures no { OnFalse result (AreServed (F.knows funs.now).funs (txs_of self.now) → ⊥) }
    {
        for (_actor, slot) in self.slots.iter() {
            if let Some(tx) = slot {
                if check_served(funs, tx.dones()).is_err() {
                    return false;
                }
            }
        }
        true
    }

    // An actor has this transaction open.
    pub(crate) fn open(&mut self, a: u32, tx: Tx<M>) -> Result<(), AllocError>
        ensures ok { OnOk result (txs_of self.new ≡ put (txs_of self.old) a (Some tx)) }
        ensures err { OnErr result (self.new ≡ self.old) }
    {
        self.slots.insert(a, Some(tx))?;
        Ok(())
    }

    // Takes the transaction that an actor has open out, if it has one.
    pub(crate) fn take(&mut self, a: u32) -> Option<Tx<M>>
        ensures was { result ≡ txs_of self.old a }
        ensures takes { IsSome result → txs_of self.new ≡ put (txs_of self.old) a None }
        ensures slot { IsSome result → slot_of self.new a ≢ None }
        ensures none { result ≡ None → txs_of self.new ≡ txs_of self.old }
    {
        let Some(slot) = self.slots.get_mut(&a) else {
            return None;
        };
        slot.take()
    }

    // Puts it back, or as it is now, without memory.
    pub(crate) fn put(&mut self, a: u32, tx: Tx<M>)
        requires { slot_of self.old a ≢ None }
        ensures { txs_of self.new ≡ put (txs_of self.old) a (Some tx) }
    {
        let Ok(_old) = self.slots.insert(a, Some(tx)) else {
            unreachable!();
        };
    }
}
