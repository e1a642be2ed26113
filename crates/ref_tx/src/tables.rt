//! What the operations of a transaction say of each ref: a table of the first of them, and a look through the last ones.
ghost use Rattle.std.specs.BTreeMap.{get};
ghost use Rattle.std.specs.Option.{option_or};
ghost use Rattle.std.specs.Ordering.{nat_cmp};
ghost use Rattle.std.specs.Prelude.{◌≡◌, ◌≤◌, ◌||◌, List, [], not, length, drop, option_copied, slice_get, IfOk};
ghost use Rattle.ref_fun.specs.Meaning.{Means};
ghost use Rattle.ref_log.specs.Replay.{is_commute, is_protected};
ghost use Rattle.ref_tx.specs.Inner.{AreAnswers, is_commuted, value_after};
ghost use Rattle.ref_tx.specs.Own.{IsTabled, last_on, own_commuted, own_protected};
ghost use Rattle.ref_value.specs.Edn.{Edn};

use ref_log::Done;
use ref_value::Value;
use std::alloc::{AllocError, Global};
use std::collections::BTreeMap;

// How many operations are looked through one by one, the last ones.
const MOST_SCANNED: usize = 16;

/// The in-transaction value of a ref, whether it was commuted, and whether it is protected.
#[derive(Drop)]
pub(crate) struct Own {
    pub(crate) value: Value,
    pub(crate) commuted: bool,
    pub(crate) protected: bool,
}

/// What the first operations say of each ref, so many of them. The others are looked through.
#[derive(Drop)]
pub(crate) struct Table {
    pub(crate) first: usize,
    pub(crate) own: BTreeMap<u32, Own>,
}

impl Table {
    /// Of no operations. It takes no memory.
    pub(crate) fn empty(alloc: Global) -> Table
        ensures { (means : Means) (began : List Edn) → IsTabled means began [] result }
    {
        Table {
            first: 0,
            own: BTreeMap::new(alloc),
        }
    }

    /// The value that a ref got by these operations, if there is one of them on it.
    pub(crate) fn last_of<'a>(&'a self, dones: &'a [Done], r: u32) -> Option<&'a Value>
        requires { self.now.first ≤ length dones.now }
        ensures { (means : Means) (began : List Edn) → AreAnswers means began [] dones.now
            → IsTabled means began dones.now self.now
            → option_or (option_copied result) (slice_get began r) ≡ value_after means began dones.now r }
    {
        if dones.is_empty() {
            return None;
        }
        match last_on(others(dones, self.first), r) {
            Some(answer) => Some(answer),
            None => match self.own.get(&r) {
                Some(own) => Some(&own.value),
                None => None,
            },
        }
    }

    /// Whether one of these operations commutes the ref.
    pub(crate) fn is_commuted(&self, dones: &[Done], r: u32) -> bool
        requires { self.now.first ≤ length dones.now }
        ensures { (means : Means) (began : List Edn) → IsTabled means began dones.now self.now
            → result ≡ is_commuted dones.now r }
    {
        was_commuted(self.own.get(&r)) || commutes(others(dones, self.first), r)
    }

    /// Whether one of these operations protects the ref.
    pub(crate) fn is_protected(&self, dones: &[Done], r: u32) -> bool
        requires { self.now.first ≤ length dones.now }
        ensures { (means : Means) (began : List Edn) → IsTabled means began dones.now self.now
            → result ≡ is_protected dones.now r }
    {
        was_protected(self.own.get(&r)) || protects(others(dones, self.first), r)
    }

    /// Makes place for one more among those that are looked through: puts the first of them into the table, where they are as many as may be.
    pub(crate) fn make_place(&mut self, dones: &[Done]) -> Result<(), AllocError>
        requires { self.old.first ≤ length dones.now }
        ensures { (means : Means) (began : List Edn) → AreAnswers means began [] dones.now
            → IsTabled means began dones.now self.old → IsTabled means began dones.now self.new }
    {
        if dones.len() - self.first < MOST_SCANNED {
            return Ok(());
        }
        let done = &dones[self.first];
        let own = own_after(self.own.get(&done.r), done)?;
        self.own.insert(done.r, own)?;
        self.first += 1;
        Ok(())
    }
}

// What stands in the table for a ref after one operation more, of which this stood there.
fn own_after(former: Option<&Own>, done: &Done) -> Result<Own, AllocError>
    ensures { IfOk result (λ own. own ≡ record {
      value = done.now.answer;
      commuted = own_commuted (option_copied former.entry) || is_commute done.now.op;
      protected = own_protected (option_copied former.entry) || not (is_commute done.now.op);
    }) }
{
    let is_commute = done.op.is_commute();
    Ok(Own {
        value: done.answer.share()?,
        commuted: was_commuted(former) || is_commute,
        protected: was_protected(former) || !is_commute,
    })
}

fn was_commuted(own: Option<&Own>) -> bool
    ensures { result ≡ own_commuted (option_copied own.entry) }
{
    match own {
        Some(own) => own.commuted,
        None => false,
    }
}

fn was_protected(own: Option<&Own>) -> bool
    ensures { result ≡ own_protected (option_copied own.entry) }
{
    match own {
        Some(own) => own.protected,
        None => false,
    }
}

// The operations behind so many.
#[tactic(auto, using(crate::proofs::Tabled::rest_whole))]
fn others(dones: &[Done], first: usize) -> &[Done]
    requires { first ≤ length dones.now }
    ensures { result.now ≡ drop first dones.now }
{
    &dones[first..]
}

// The last answer of these operations on a ref, if there is one.
fn last_on(dones: &[Done], r: u32) -> Option<&Value>
    ensures { option_copied result ≡ last_on r dones.now }
{
    let mut last = None;
    for done in dones {
        if done.r == r {
            last = Some(&done.answer);
        }
    }
    last
}

// Whether one of these operations commutes the ref.
fn commutes(dones: &[Done], r: u32) -> bool
    ensures { result ≡ is_commuted dones.now r }
{
    for done in dones {
        if done.r == r && done.op.is_commute() {
            return true;
        }
    }
    false
}

// Whether one of these operations protects the ref.
fn protects(dones: &[Done], r: u32) -> bool
    ensures { result ≡ is_protected dones.now r }
{
    for done in dones {
        if done.r == r && !done.op.is_commute() {
            return true;
        }
    }
    false
}
