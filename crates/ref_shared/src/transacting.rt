//! Transactions that are tried again.
ghost use Rattle.std.specs.Prelude.{◌≡◌, ◌<◌, Ok, IfOk, IfErr, OnErr};
ghost use Rattle.ref_fun.specs.Core.{core_means};
ghost use Rattle.ref_shared.specs.Commits.{HasLearned};
ghost use Rattle.ref_shared.specs.Bodies.{Committed, FaultComes, calls_of};
ghost use Rattle.ref_shared.specs.Sinks.{TakesAll};

use crate::bodies::{Body, OnTx};
use crate::faults::TransactFault;
use crate::gates::{Gate, Spot, WatchSink, tell};
use crate::shared::Shared;
use ref_fun::{Core, Functions, Meaning};
use ref_log::Stamp;
use ref_refs::CommitFault;
use ref_tx::{Dosync, Snapshot, Tx};
use ref_world::{Books, Known, Opening, Preparing, Receipt, Share};
use std::alloc::Global;
use std::sync::Wait;

impl<M: Meaning, L: Books> Shared<M, L> {
    /// Runs a body on a transaction and commits it, as Clojure's `dosync`. Where the commit is in conflict all begins anew, with
    /// the values then, at most `tries` times, at least once. After a commit the sink gets the notices for the watches,
    /// and then what the transaction sent is released, which takes the lock once more where it sent something. The answer is what
    /// the body's last call returned, and the receipt.
    ///
    /// The body is called with the lock free, at most `tries` times, each time with a transaction in which nothing was done.
    /// What its earlier calls did outside the transaction stays done. Where a fault is returned, this call has committed nothing,
    /// and no send is left of it. A fault of the body, a refused commit other than a conflict, and out of memory end it.
    ///
    /// While it waits for the lock to commit, it holds no refs as they were: the transaction is closed ([`Tx::close`]). Its commit compares no
    /// value, whatever it protects.
    ///
    /// [`Shared::transact`] takes a closure, where functions mean what [`Core`]'s mean.
    pub fn transact_body<
        R: Wait,
        F: Functions<M>,
        G: Gate,
        K: WatchSink,
        B: Body<Known<M, L>, Meaning = M>,
    >(
        &self,
        rt: &R,
        alloc: Global,
        funs: &F,
        share: &mut Share<L>,
        stamp: Stamp,
        tries: u32,
        gate: &mut G,
        sink: &mut K,
        body: &mut B,
    ) -> Result<(B::Answer, Receipt), TransactFault<B::Fault>>
        requires body { B.may body.old }
        requires tries { 0 < tries }
        ensures ok { IfOk result (λ r. Committed M.means B.does body.old body.new tries
            (Ok r.0) stamp r.1.point share.old share.new) }
        ensures stamp { IfOk result (λ r. r.1.stamp ≡ stamp) }
        ensures fault { IfErr result (λ f. FaultComes M.means share.new.history B.does body.old body.new tries f) }
        ensures learned { OnErr result (HasLearned M.means share.old share.new) }
        ensures told { IfOk result (λ r. TakesAll K.takes sink.old r.1.notices.items sink.new) }
        ensures untold { OnErr result (sink.new ≡ sink.old) }
        ensures may { B.may body.new }
    {
        self.transact_as::<Known<M, L>, R, F, G, K, B>(
            rt, alloc, funs, share, stamp, tries, gate, sink, body,
        )
    }

    /// As [`Shared::transact_body`], with a transaction whose beginning is of any kind: for a body that is one over a [`Snapshot`] alone, as a
    /// closure is. Then the values of what it protects are compared at the commit, and to close the transaction takes memory for more than two
    /// operations.
    pub fn transact_as<
        S: Opening<M, L>,
        R: Wait,
        F: Functions<M>,
        G: Gate,
        K: WatchSink,
        B: Body<S, Meaning = M>,
    >(
        &self,
        rt: &R,
        alloc: Global,
        funs: &F,
        share: &mut Share<L>,
        stamp: Stamp,
        tries: u32,
        gate: &mut G,
        sink: &mut K,
        body: &mut B,
    ) -> Result<(B::Answer, Receipt), TransactFault<B::Fault>>
    where
        S::Closed: Preparing<M, L>,
        requires body { B.may body.old }
        requires tries { 0 < tries }
        ensures ok { IfOk result (λ r. Committed M.means B.does body.old body.new tries
            (Ok r.0) stamp r.1.point share.old share.new) }
        ensures stamp { IfOk result (λ r. r.1.stamp ≡ stamp) }
        ensures fault { IfErr result (λ f. FaultComes M.means share.new.history B.does body.old body.new tries f) }
        ensures learned { OnErr result (HasLearned M.means share.old share.new) }
        ensures told { IfOk result (λ r. TakesAll K.takes sink.old r.1.notices.items sink.new) }
        ensures untold { OnErr result (sink.new ≡ sink.old) }
        ensures may { B.may body.new }
    {
        for attempt in 0..tries {
            let Ok(tx) = self.begin_as::<S, R>(rt, alloc, share) else {
                return Err(TransactFault::Memory);
            };
            let mut tx = Dosync {
                tx,
                alloc,
                funs: body.functions(),
            };
            gate.pass(Spot::BeforeBody);
            let answer = match body.run(&mut tx) {
                Ok(answer) => answer,
                Err(e) => return Err(TransactFault::Body(e)),
            };
            gate.pass(Spot::AfterBody);
            let Dosync { tx, .. } = tx;
            let Ok(tx) = tx.close(alloc) else {
                return Err(TransactFault::Memory);
            };
            let has_sends = !tx.sends().is_empty();
            match self.commit(rt, alloc, funs, share, stamp, tx) {
                Ok(receipt) => {
                    gate.pass(Spot::AfterCommit);
                    tell(sink, receipt.notices.as_slice());
                    if has_sends {
                        self.release(rt, receipt.point);
                    }
                    return Ok((answer, receipt));
                }
                Err((_, fault)) => match fault {
                    CommitFault::Conflict(conflict) => {
                        if attempt + 1 == tries {
                            return Err(TransactFault::GaveUp { tries, conflict });
                        }
                    }
                    CommitFault::Memory => return Err(TransactFault::Memory),
                    fault => return Err(TransactFault::Commit(fault)),
                },
            }
        }
        unreachable!()
    }
}

impl<L: Books> Shared<Core, L> {
    /// Runs a closure on a transaction and commits it, as Clojure's `dosync`. Where the commit is in conflict all begins anew, with
    /// the values then, at most `tries` times, at least once. After a commit the sink gets the notices for the watches,
    /// and then what the transaction sent is released, which takes the lock once more where it sent something. The answer is what
    /// the body's last call returned, and the receipt.
    ///
    /// The body is called with the lock free, at most `tries` times, each time with a transaction in which nothing was done.
    /// What its earlier calls did outside the transaction stays done. Where a fault is returned, this call has committed nothing,
    /// and no send is left of it. A fault of the body, a refused commit other than a conflict, and out of memory end it.
    ///
    /// While it waits for the lock to commit, it holds no refs as they were: the transaction is closed ([`Tx::close`]), which takes memory
    /// for more than two operations.
    ///
    /// The closure is dropped at the end. [`Shared::transact_body`] is lent its body, and takes one of any meaning.
    pub fn transact<
        R: Wait,
        F: Functions<Core>,
        T: Drop,
        E,
        G: Gate,
        S: WatchSink,
        B: FnMut(&mut Tx<Core>) -> Result<T, E>,
    >(
        &self,
        rt: &R,
        alloc: Global,
        funs: &F,
        share: &mut Share<L>,
        stamp: Stamp,
        tries: u32,
        gate: &mut G,
        sink: &mut S,
        body: B,
    ) -> Result<(T, Receipt), TransactFault<E>>
        requires body { B.IsAlwaysCallable body }
        requires tries { 0 < tries }
        ensures ok { IfOk result (λ r. (last : B)
            × Committed core_means (calls_of B.FnMut) body last tries (Ok r.0) stamp r.1.point share.old share.new) }
        ensures stamp { IfOk result (λ r. r.1.stamp ≡ stamp) }
        ensures fault { IfErr result (λ f. (last : B) × FaultComes core_means share.new.history (calls_of B.FnMut) body last tries f) }
        ensures learned { OnErr result (HasLearned core_means share.old share.new) }
        ensures told { IfOk result (λ r. TakesAll S.takes sink.old r.1.notices.items sink.new) }
        ensures untold { OnErr result (sink.new ≡ sink.old) }
    {
        let mut body = OnTx::of(body);
        self.transact_as::<Snapshot, R, F, G, S, OnTx<B, T, E>>(
            rt, alloc, funs, share, stamp, tries, gate, sink, &mut body,
        )
    }
}
