//! Waiting: for the actions that were sent to agents, and for an entry after which a transaction may be ready.
ghost use Rattle.std.specs.Prelude.{◌≡◌, ◌<◌, IfOk, IfErr, OnErr, nat_lt};
ghost use Rattle.ref_world.specs.History.{point_in};
ghost use Rattle.ref_shared.specs.Sinks.{TakesAll};
ghost use Rattle.ref_fun.specs.Core.{core_means};
ghost use Rattle.ref_shared.specs.Commits.{HasLearned};
ghost use Rattle.ref_shared.specs.Bodies.{calls_of};
ghost use Rattle.ref_shared.specs.Waits.{Landed, NamesOneOf, WaitFails};

use crate::bodies::{Body, OnTx};
use crate::faults::{AwaitFault, TransactFault, WaitFault};
use crate::gates::{Gate, Spot, WatchSink, tell};
use crate::shared::{Held, Shared};
use crate::waiters::Look;
use ref_fun::{Core, Functions, Meaning};
use ref_log::Stamp;
use ref_refs::CommitFault;
use ref_tx::{Dosync, Snapshot, Tx};
use ref_world::{Books, Known, Opening, Preparing, Receipt, Share};
use std::alloc::Global;
use std::sync::{MutexGuard, Wait};

impl<M: Meaning, L: Books> Shared<M, L> {
    /// Waits until each action that these agents had in their queues when it was called is gone: it ended, or was dropped by a
    /// restart. That is Clojure's `await`, for all actions and not for the caller's alone. For no agents it returns at once.
    ///
    /// An action is gone as soon as it has ended: the sink of the thread that ran it may still be taking its notices, and what it
    /// carried may still be held.
    ///
    /// It fails at once if one of these agents isn't there, or there is no memory. It fails when it finds that an action which it
    /// waits for stands behind the failure of its agent, and then names that agent: a restart that comes before it looks leaves
    /// nothing to find. Once the shared world is closed it fails unless all is gone. Sends of a commit that isn't released are in the
    /// queue, so it waits for them, too.
    ///
    /// It takes memory for each agent of the list, and costs a logarithm of the number of agents that are waited for, for each agent
    /// and each time when it is woken. It isn't for gates and sinks: a thread that waits there for what only it can run or release
    /// waits until `close`.
    pub fn await_agents<R: Wait>(
        &self,
        rt: &R,
        alloc: Global,
        agents: &[u32],
    ) -> Result<(), AwaitFault>
        ensures fault { IfErr result (λ f. NamesOneOf agents.now f) }
    {
        let mut held = self.lock(rt);
        let targets = held.enter_all(alloc, agents)?;
        for _ in rt.forever() {
            match held.look(targets.as_slice()) {
                Look::Through => {
                    held.leave_all(targets.as_slice());
                    return Ok(());
                }
                Look::Failed(g) => {
                    held.leave_all(targets.as_slice());
                    return Err(AwaitFault::Failed(g));
                }
                Look::Left => {}
            }
            if held.is_closed {
                held.leave_all(targets.as_slice());
                return Err(AwaitFault::Closed);
            }
            held.wake_all(targets.as_slice());
            held = self.moved.wait(rt, held);
        }
        unreachable!()
    }

    // Waits for an entry past this point. False where the shared world is closed and there is none.
    fn wait_past<R: Wait>(&self, rt: &R, share: &mut Share<L>, point: u64) -> bool
        ensures past { result ≡ nat_lt point (point_in share.new.history) }
        ensures learned { HasLearned M.means share.old share.new }
    {
        let mut held = self.lock(rt);
        for _ in rt.forever() {
            let has_come = held.booked.world.point() > point;
            if has_come || held.is_closed {
                held.booked.inform(share);
                return has_come;
            }
            held.waiters.for_entries = held.waiters.for_entries.saturating_add(1);
            held = self.moved.wait(rt, held);
            held.waiters.for_entries = held.waiters.for_entries.saturating_sub(1);
        }
        unreachable!()
    }

    // Frees the lock, and wakes those who wait for an entry if one has come.
    pub(crate) fn free_with_entry(&self, held: MutexGuard<'_, Held<M, L>>, has_come: bool) {
        let wakes = has_come && held.waiters.for_entries > 0;
        self.free_and_wake(held, wakes);
    }

    // Frees the lock, and wakes those who wait for an entry or for an agent, if asked.
    pub(crate) fn free_and_wake(&self, held: MutexGuard<'_, Held<M, L>>, wakes: bool) {
        drop(held);
        if wakes {
            self.moved.notify_all();
        }
    }
}

impl<M: Meaning, L: Books> Shared<M, L> {
    /// As [`Shared::transact_body`], but the body may also return None, which says that it isn't ready. Then the transaction is dropped,
    /// the thread sleeps until an entry has come since the transaction began, and all begins anew. That is `retry` of Haskell's
    /// STM, by the world's point alone: each commit, each change of an atom and each making of a ref or atom wakes each transaction
    /// that waits. `tries` counts the commits that were tried, so it doesn't limit how often the body is called.
    ///
    /// It fails with [`WaitFault::Closed`] if the shared world is closed, the body isn't ready, and no entry has come since the
    /// transaction began; with [`WaitFault::Transact`] as `transact_body`.
    pub fn transact_body_when<
        R: Wait,
        F: Functions<M>,
        T: Drop,
        G: Gate,
        K: WatchSink,
        B: Body<Known<M, L>, Meaning = M, Answer = Option<T>>,
    >(
        &self,
        rt: &R,
        alloc: Global,
        funs: &F,
        share: &mut Share<L>,
        stamp: Stamp,
        tries: u32,
        gate: &mut G,
        sink: &mut K,
        body: &mut B,
    ) -> Result<(T, Receipt), WaitFault<B::Fault>>
        requires body { B.may body.old }
        requires tries { 0 < tries }
        ensures ok { IfOk result (λ r. Landed M.means B.does body.old body.new tries
            r.0 stamp r.1.point share.old share.new) }
        ensures stamp { IfOk result (λ r. r.1.stamp ≡ stamp) }
        ensures fault { IfErr result (λ f. WaitFails M.means share.new.history B.does body.old body.new tries f) }
        ensures learned { OnErr result (HasLearned M.means share.old share.new) }
        ensures told { IfOk result (λ r. TakesAll K.takes sink.old r.1.notices.items sink.new) }
        ensures untold { OnErr result (sink.new ≡ sink.old) }
        ensures may { B.may body.new }
    {
        self.transact_as_when::<Known<M, L>, R, F, T, G, K, B>(
            rt, alloc, funs, share, stamp, tries, gate, sink, body,
        )
    }

    /// As [`Shared::transact_body_when`], with a transaction whose beginning is of any kind, as [`Shared::transact_as`] is to
    /// [`Shared::transact_body`].
    pub fn transact_as_when<
        S: Opening<M, L>,
        R: Wait,
        F: Functions<M>,
        T: Drop,
        G: Gate,
        K: WatchSink,
        B: Body<S, Meaning = M, Answer = Option<T>>,
    >(
        &self,
        rt: &R,
        alloc: Global,
        funs: &F,
        share: &mut Share<L>,
        stamp: Stamp,
        tries: u32,
        gate: &mut G,
        sink: &mut K,
        body: &mut B,
    ) -> Result<(T, Receipt), WaitFault<B::Fault>>
    where
        S::Closed: Preparing<M, L>,
        requires body { B.may body.old }
        requires tries { 0 < tries }
        ensures ok { IfOk result (λ r. Landed M.means B.does body.old body.new tries
            r.0 stamp r.1.point share.old share.new) }
        ensures stamp { IfOk result (λ r. r.1.stamp ≡ stamp) }
        ensures fault { IfErr result (λ f. WaitFails M.means share.new.history B.does body.old body.new tries f) }
        ensures learned { OnErr result (HasLearned M.means share.old share.new) }
        ensures told { IfOk result (λ r. TakesAll K.takes sink.old r.1.notices.items sink.new) }
        ensures untold { OnErr result (sink.new ≡ sink.old) }
        ensures may { B.may body.new }
    {
        let mut conflicts = 0u32;
        for _ in rt.forever() {
            let Ok(tx) = self.begin_as::<S, R>(rt, alloc, share) else {
                return Err(WaitFault::Transact(TransactFault::Memory));
            };
            let mut tx = Dosync {
                tx,
                alloc,
                funs: body.functions(),
            };
            let point = tx.tx.read_point();
            gate.pass(Spot::BeforeBody);
            let answer = match body.run(&mut tx) {
                Ok(answer) => answer,
                Err(e) => return Err(WaitFault::Transact(TransactFault::Body(e))),
            };
            gate.pass(Spot::AfterBody);
            let Dosync { tx, .. } = tx;
            let Some(answer) = answer else {
                // What the transaction began with is dropped before the thread sleeps.
                drop(tx);
                if !self.wait_past(rt, share, point) {
                    return Err(WaitFault::Closed);
                }
                continue;
            };
            let Ok(tx) = tx.close(alloc) else {
                return Err(WaitFault::Transact(TransactFault::Memory));
            };
            let has_sends = !tx.sends().is_empty();
            match self.commit(rt, alloc, funs, share, stamp, tx) {
                Ok(receipt) => {
                    gate.pass(Spot::AfterCommit);
                    tell(sink, receipt.notices.as_slice());
                    if has_sends {
                        self.release(rt, receipt.point);
                    }
                    return Ok((answer, receipt));
                }
                Err((_, fault)) => match fault {
                    CommitFault::Conflict(conflict) => {
                        conflicts += 1;
                        if conflicts == tries {
                            return Err(WaitFault::Transact(TransactFault::GaveUp {
                                tries,
                                conflict,
                            }));
                        }
                    }
                    CommitFault::Memory => return Err(WaitFault::Transact(TransactFault::Memory)),
                    fault => return Err(WaitFault::Transact(TransactFault::Commit(fault))),
                },
            }
        }
        unreachable!()
    }
}

impl<L: Books> Shared<Core, L> {
    /// As [`Shared::transact`], but the closure may also return None, which says that it isn't ready. Then the transaction is dropped,
    /// the thread sleeps until an entry has come since the transaction began, and all begins anew. That is `retry` of Haskell's
    /// STM, by the world's point alone: each commit, each change of an atom and each making of a ref or atom wakes each transaction
    /// that waits. `tries` counts the commits that were tried, so it doesn't limit how often the body is called.
    ///
    /// It fails with [`WaitFault::Closed`] if the shared world is closed, the body isn't ready, and no entry has come since the
    /// transaction began; with [`WaitFault::Transact`] as `transact`.
    pub fn transact_when<
        R: Wait,
        F: Functions<Core>,
        T: Drop,
        E,
        G: Gate,
        S: WatchSink,
        B: FnMut(&mut Tx<Core>) -> Result<Option<T>, E>,
    >(
        &self,
        rt: &R,
        alloc: Global,
        funs: &F,
        share: &mut Share<L>,
        stamp: Stamp,
        tries: u32,
        gate: &mut G,
        sink: &mut S,
        body: B,
    ) -> Result<(T, Receipt), WaitFault<E>>
        requires body { B.IsAlwaysCallable body }
        requires tries { 0 < tries }
        ensures ok { IfOk result (λ r. (last : B) × Landed core_means (calls_of B.FnMut) body last tries
            r.0 stamp r.1.point share.old share.new) }
        ensures stamp { IfOk result (λ r. r.1.stamp ≡ stamp) }
        ensures fault { IfErr result (λ f. (last : B) × WaitFails core_means share.new.history (calls_of B.FnMut) body last tries f) }
        ensures learned { OnErr result (HasLearned core_means share.old share.new) }
        ensures told { IfOk result (λ r. TakesAll S.takes sink.old r.1.notices.items sink.new) }
        ensures untold { OnErr result (sink.new ≡ sink.old) }
    {
        let mut body = OnTx::of(body);
        self.transact_as_when::<Snapshot, R, F, T, G, S, OnTx<B, Option<T>, E>>(
            rt, alloc, funs, share, stamp, tries, gate, sink, &mut body,
        )
    }
}
