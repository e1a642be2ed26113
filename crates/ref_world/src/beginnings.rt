//! Where a transaction began in the history of its world.
ghost use Rattle.std.specs.Prelude.{◌≡◌, ◌≤◌, ℕ, [], true, IfErr, IfOk, OnOk, length, slice_get, refl};
ghost use Rattle.std.specs.Coded.{codes};
ghost use Rattle.ref_value.specs.Code.{edn_code};
ghost use Rattle.ref_log.specs.Replay.{is_protected};
ghost use Rattle.ref_log.specs.Told.{TellsOrMemory};
ghost use Rattle.ref_refs.specs.Conflicts.{ConflictFits};
ghost use Rattle.ref_refs.specs.Seen.{changed_at};
ghost use Rattle.ref_refs.specs.declared.faults.CommitFault.TheVariants as commits;
ghost use Rattle.ref_world.specs.History.{Begins, IsLegal, changed_in, point_in, refs_in, upto};
ghost use Rattle.ref_world.specs.Shares.{knowing};
ghost use Rattle.ref_world.specs.World.{IsReady, commit_refusal, early_refusal, point_of};

use crate::booked::Booked;
use crate::histories::Front;
use crate::names::Books;
use crate::shares::Share;
use ref_fun::{Functions, Meaning};
use ref_log::{Done, Stamp};
use ref_refs::{CommitFault, Prepared};
use ref_tx::{Beginning, Readable, Snapshot, Starts, Tx};
use std::alloc::{AllocError, Global};
use std::marker::PhantomData;

/// The beginning of a transaction that [`Booked::begin`](crate::Booked::begin) began: the values of all refs, which are those after the
/// history up to the transaction's read point.
#[derive(Drop)]
pub struct Known<M: Meaning, L: Books> {
    snapshot: Snapshot,
    front: Front<L>,
    of: PhantomData<M>,
    ghost refs: { snapshot.values ≡ refs_in M.means front } by { Prim.hlevel (codes, edn_code) },
}

/// What is left of it once the transaction is closed: its place in the history, and no value.
#[derive(Drop)]
pub struct Place<M: Meaning, L: Books> {
    front: Front<L>,
    of: PhantomData<M>,
}

/// How a transaction with this beginning is begun on a world.
pub trait Opening<M: Meaning, L: Books>: Readable {
    /// See [`Booked::begin`].
    fn start(
        booked: &mut Booked<M, L>,
        alloc: Global,
        share: &mut Share<L>,
    ) -> Result<Tx<M, Self>, AllocError>
        ensures tx { IfOk result (λ tx. tx
            ≡ record {
              read_point = point_of booked.old.world;
              began = booked.old.world.refs.values;
              dones = [];
              sends = [];
              tally = booked.old.world.refs.tally;
              agents = length booked.old.world.agents.agents;
            }) }
        ensures began { IfOk result (λ tx. (tx.read_point ≡ point_in share.new.history)
            × (tx.began ≡ refs_in M.means share.new.history)) }
        ensures known { Begins share.old.history share.new.history }
        ensures legal { IsLegal M.means share.new.history }
        ensures share { share.new ≡ knowing share.old booked.old.history }
        ensures same { (booked.new.world ≡ booked.old.world) × (booked.new.history ≡ booked.old.history) };
}

/// How the commit of a transaction with this beginning is prepared.
pub trait Preparing<M: Meaning, L: Books>: Beginning {
    /// All tests of a commit, and its first growths. It changes nothing.
    fn prepare<F: Functions<M>>(
        booked: &mut Booked<M, L>,
        alloc: Global,
        funs: &F,
        stamp: Stamp,
        tx: &Tx<M, Self>,
    ) -> Result<Prepared, CommitFault>
        ensures refused { TellsOrMemory commits.Memory (early_refusal (F.knows funs.now) booked.old.world tx.now)
            (commit_refusal M.means M.accepts (F.knows funs.now) booked.old.world tx.now) result }
        ensures ready { IfOk result (IsReady M.means M.accepts booked.old.world stamp tx.now) }
        ensures conflict { IfErr result (ConflictFits tx.now (changed_at booked.old.world.refs.lasts)) }
        // What it protects hasn't changed since its read point, and it began with the values that these refs had there.
        ensures unchanged { OnOk result ((r : ℕ) → is_protected tx.now.dones r ≡ true
            → changed_in booked.old.history r ≤ tx.now.read_point) }
        ensures began { OnOk result ((r : ℕ) → is_protected tx.now.dones r ≡ true
            → slice_get tx.now.began r ≡ slice_get (refs_in M.means (upto booked.old.history tx.now.read_point)) r) }
        ensures same { (booked.new.world ≡ booked.old.world) × (booked.new.history ≡ booked.old.history)
            × (booked.new.books ≡ booked.old.books) };
}

impl<M: Meaning, L: Books> Known<M, L> {
    pub(crate) fn of(snapshot: Snapshot, front: Front<L>) -> Known<M, L>
        requires { snapshot.values ≡ refs_in M.means front }
        ensures snapshot { result.snapshot ≡ snapshot }
        ensures front { result.front ≡ front }
    {
        Known {
            snapshot,
            front,
            of: PhantomData,
        }
    }
}

impl<M: Meaning, L: Books> Beginning for Known<M, L> {
    ghost values = { λ k. k.snapshot.values };

    ghost start_at = { λ k i r. slice_get k.snapshot.values r };

    ghost fits = { λ k point. point ≡ point_in k.front };
}

impl<M: Meaning, L: Books> Readable for Known<M, L> {
    type Closed = Place<M, L>;

    ghost has_all = { λ k i r. refl };

    fn snapshot(&self) -> &Snapshot {
        &self.snapshot
    }

    fn close(self, _alloc: Global, _dones: &[Done]) -> Result<Place<M, L>, AllocError> {
        Ok(Place {
            front: self.front,
            of: PhantomData,
        })
    }
}

impl<M: Meaning, L: Books> Beginning for Place<M, L> {
    ghost values = { λ p. refs_in M.means p.front };

    ghost start_at = { λ p i r. slice_get (refs_in M.means p.front) r };

    ghost fits = { λ p point. point ≡ point_in p.front };
}

impl<M: Meaning, L: Books> Opening<M, L> for Known<M, L> {
    fn start(
        booked: &mut Booked<M, L>,
        alloc: Global,
        share: &mut Share<L>,
    ) -> Result<Tx<M, Known<M, L>>, AllocError> {
        booked.begin(alloc, share)
    }
}

impl<M: Meaning, L: Books> Opening<M, L> for Snapshot {
    fn start(
        booked: &mut Booked<M, L>,
        alloc: Global,
        share: &mut Share<L>,
    ) -> Result<Tx<M, Snapshot>, AllocError> {
        booked.inform(share);
        booked.world.begin(alloc)
    }
}

impl<M: Meaning, L: Books> Preparing<M, L> for Known<M, L> {
    fn prepare<F: Functions<M>>(
        booked: &mut Booked<M, L>,
        alloc: Global,
        funs: &F,
        stamp: Stamp,
        tx: &Tx<M, Known<M, L>>,
    ) -> Result<Prepared, CommitFault> {
        booked.prepare_own(&tx.beginning().front, alloc, funs, stamp, tx)
    }
}

impl<M: Meaning, L: Books> Preparing<M, L> for Place<M, L> {
    fn prepare<F: Functions<M>>(
        booked: &mut Booked<M, L>,
        alloc: Global,
        funs: &F,
        stamp: Stamp,
        tx: &Tx<M, Place<M, L>>,
    ) -> Result<Prepared, CommitFault> {
        booked.prepare_own(&tx.beginning().front, alloc, funs, stamp, tx)
    }
}

impl<M: Meaning, L: Books> Preparing<M, L> for Snapshot {
    fn prepare<F: Functions<M>>(
        booked: &mut Booked<M, L>,
        alloc: Global,
        funs: &F,
        stamp: Stamp,
        tx: &Tx<M, Snapshot>,
    ) -> Result<Prepared, CommitFault> {
        booked.prepare(alloc, funs, stamp, tx)
    }
}

impl<M: Meaning, L: Books> Preparing<M, L> for Starts {
    fn prepare<F: Functions<M>>(
        booked: &mut Booked<M, L>,
        alloc: Global,
        funs: &F,
        stamp: Stamp,
        tx: &Tx<M, Starts>,
    ) -> Result<Prepared, CommitFault> {
        booked.prepare(alloc, funs, stamp, tx)
    }
}
