//! What a transaction holds of the values that it began with.
ghost use Rattle.std.specs.Prelude.{◌≡◌, ℕ, List, Option, IfOk, drop, map, option_copied, refl, slice_get};
ghost use Rattle.std.specs.Option.{option_map};
ghost use Rattle.ref_tx.specs.Starts.{HasStarts, flat, kept_at, start_in, start_of};
ghost use Rattle.ref_value.specs.Edn.{Edn};

use crate::snapshots::Snapshot;
use ref_log::Done;
use ref_value::Value;
use std::alloc::{AllocError, Global};
use std::snapshot;

/// What a transaction holds of the values that it began with: all of them while it is open, and once it is closed those that its commit
/// asks for.
pub trait Beginning: Drop {
    /// The values of all refs in the beginning.
    ghost values: { Self → List Edn };

    /// What the ref of an operation began with, by the operation's number and its ref. It is asked of operations that protect their ref.
    ghost start_at: { Self → ℕ → ℕ → Option Edn };

    /// It is the beginning of a transaction that reads as of this point.
    ghost fits: { Self → ℕ → Type 0 };
}

/// A beginning that holds the values which its transaction's operations protect, so that they can be compared.
pub trait Comparable: Beginning {
    /// What the ref of the operation of this number began with, which is on this ref.
    fn start_of(&self, i: usize, r: u32) -> Option<&Value>
        ensures { option_copied result ≡ Self.start_at self.now i r };
}

/// The beginning of a transaction that is open: it has all values.
pub trait Readable: Beginning {
    /// What is left of it once the transaction is closed.
    type Closed: Beginning;

    /// All refs in the beginning.
    fn snapshot(&self) -> &Snapshot
        ensures { result.now.values ≡ Self.values self.now };

    /// What a commit asks for, of a transaction with these operations.
    fn close(self, alloc: Global, dones: &[Done]) -> Result<Self::Closed, AllocError>
        ensures values { IfOk result (λ closed. Self.Closed.values closed ≡ Self.values self) }
        ensures starts { IfOk result (λ closed. HasStarts (Self.values self) (Self.Closed.start_at closed) dones.now) }
        ensures fits { IfOk result (λ closed. (point : ℕ) → Self.fits self point → Self.Closed.fits closed point) };

    ghost has_all: { (s : Self) (i r : ℕ) → Self.start_at s i r ≡ slice_get (Self.values s) r };
}

impl Beginning for Snapshot {
    ghost values = { λ s. s.values };

    ghost start_at = { λ s i r. slice_get s.values r };

    ghost fits = { λ s point. Unit {0} };
}

impl Comparable for Snapshot {
    fn start_of(&self, _i: usize, r: u32) -> Option<&Value> {
        self.get(r)
    }
}

impl Readable for Snapshot {
    type Closed = Starts;

    ghost has_all = { λ s i r. refl };

    fn snapshot(&self) -> &Snapshot {
        self
    }

    fn close(self, alloc: Global, dones: &[Done]) -> Result<Starts, AllocError> {
        Starts::of(alloc, &self, dones)
    }
}

/// What the refs of some operations began with, as far as these protect their refs. The values of the first two have places of their own,
/// since few transactions have more operations.
#[derive(Drop)]
pub struct Starts {
    first: Option<Value>,
    second: Option<Value>,
    others: Vec<Option<Value>>,
    began: snapshot::Snapshot<Snapshot>,
}

impl Starts {
    /// Of these operations, over these values. It takes memory for more than two operations.
    #[tactic(auto, using(crate::proofs::Kept::has_starts))]
    pub(crate) fn of(alloc: Global, began: &Snapshot, dones: &[Done]) -> Result<Starts, AllocError>
        ensures began { IfOk result (λ s. s.began.value ≡ began.now) }
        ensures starts { IfOk result (λ s. HasStarts began.now.values (λ i r. kept_at s.first s.second s.others.items i) dones.now) }
    {
        let first = start_of(began, dones.get(0))?;
        let second = start_of(began, dones.get(1))?;
        let others = starts_in(alloc, began, behind_two(dones))?;
        Ok(Starts {
            first,
            second,
            others,
            began: snapshot::Snapshot::of(began),
        })
    }
}

impl Beginning for Starts {
    ghost values = { λ s. s.began.value.values };

    ghost start_at = { λ s i r. kept_at s.first s.second s.others.items i };

    ghost fits = { λ s point. Unit {0} };
}

impl Comparable for Starts {
    #[tactic(auto, using(crate::proofs::Kept::kept_late))]
    fn start_of(&self, i: usize, _r: u32) -> Option<&Value> {
        match i {
            0 => self.first.as_ref(),
            1 => self.second.as_ref(),
            _ => match self.others.get(i - 2) {
                Some(start) => start.as_ref(),
                None => None,
            },
        }
    }
}

// All operations but the first two.
fn behind_two(dones: &[Done]) -> &[Done]
    ensures { result.now ≡ drop 2 dones.now }
{
    if dones.len() <= 2 {
        return &[];
    }
    &dones[2..]
}

// What the refs of these operations began with, each as far as it is protected by its operation.
fn starts_in(
    alloc: Global,
    began: &Snapshot,
    dones: &[Done],
) -> Result<Vec<Option<Value>>, AllocError>
    ensures { IfOk result (λ starts. starts.items ≡ map (start_in began.now.values) dones.now) }
{
    let mut starts = Vec::with_capacity(alloc, dones.len())?;
    for done in dones {
        let start = start_in(began, done)?;
        starts.push(start)?;
    }
    Ok(starts)
}

fn start_of(began: &Snapshot, done: Option<&Done>) -> Result<Option<Value>, AllocError>
    ensures { IfOk result (λ start. start ≡ start_of began.now.values (option_copied done.entry)) }
{
    match done {
        Some(done) => start_in(began, done),
        None => Ok(None),
    }
}

// What the ref of an operation began with, if the operation protects it.
fn start_in(began: &Snapshot, done: &Done) -> Result<Option<Value>, AllocError>
    ensures { IfOk result (λ start. start ≡ start_in began.now.values done.now) }
{
    if done.op.is_commute() {
        return Ok(None);
    }
    match began.get(done.r) {
        Some(value) => {
            let value = value.share()?;
            Ok(Some(value))
        }
        None => Ok(None),
    }
}
