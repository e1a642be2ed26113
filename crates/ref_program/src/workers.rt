//! What a thread has.
ghost use Rattle.std.specs.Prelude.{◌≡◌, ◌⊎◌, ◌+◌, ◌<◌, ◌≤◌, true, false, List, Ok, IfOk, IfErr, OnErr, OnOk};
ghost use Rattle.ref_fun.specs.Core.{core_means};
ghost use Rattle.ref_fun.specs.declared.actions.Action.{Action};
ghost use Rattle.ref_log.specs.Replay.{place};
ghost use Rattle.ref_log.specs.declared.notices.Notice.{Notice};
ghost use Rattle.ref_log.specs.declared.notices.Who.TheVariants as who;
ghost use Rattle.ref_log.specs.declared.operations.Op.TheVariants.{Alter, Set};
ghost use Rattle.ref_program.specs.Seen.{IsSameWorker};
ghost use Rattle.ref_program.specs.Stamps.{HasNoStamp, IsNext, IsNoEarlier};
ghost use Rattle.ref_refs.specs.declared.faults.CommitFault.TheVariants as commits;
ghost use Rattle.ref_shared.specs.Bodies.{Committed, FaultComes, calls_of};
ghost use Rattle.ref_shared.specs.Commits.{AreNotices, HasChanged, HasLearned, IsLater, IsValueIn};
ghost use Rattle.ref_shared.specs.Sinks.{TakesAll};
ghost use Rattle.ref_shared.specs.Waits.{Landed, NamesOneOf, WaitFails};
ghost use Rattle.ref_shared.specs.declared.faults.TransactFault.TheVariants as transacts;
ghost use Rattle.ref_shared.specs.declared.faults.WaitFault.TheVariants as waits;
ghost use Rattle.ref_value.specs.Edn.{Edn};
ghost use Rattle.ref_world.specs.History.{point_in};
ghost use Rattle.ref_world.specs.Shares.{forgotten};
ghost use Rattle.ref_world.specs.declared.faults.CheckpointFault.TheVariants as checkpoints;

use crate::stamps::Stamps;
use ref_agents::SendFault;
use ref_atoms::{AtomFault, Cas, Swapped};
use ref_fun::{Action, Core, CoreFunctions, Functions, IntoArgs, IntoValue, Meaning};
use ref_log::Who;
use ref_refs::CommitFault;
use ref_shared::{
    AwaitFault, Body, OnDosync, Open, Quiet, Shared, TransactFault, WaitFault, WatchSink, tell,
};
use ref_tx::{Dosync, Snapshot};
use ref_value::Value;
use ref_world::{Books, CheckpointFault, Front, Known, Opening, Preparing, Receipt, Share};
use std::alloc::{AllocError, Global};
use std::marker::Model;
use std::sync::Wait;

/// What a thread has: a number, a part of the share, a sink, the stamps of its commits, and the shared world, which it is lent.
///
/// L names the world's books and R is the right to wait. A program whose functions are Core's writes `Worker<'_, L, R>`; the others are the
/// meaning of functions, what functions are called by, and the sink that gets the notices of watches.
#[derive(Drop)]
pub struct Worker<
    'a,
    L: Books,
    R: Wait,
    M: Meaning = Core,
    F: Functions<M> = CoreFunctions,
    S: WatchSink = Quiet,
> {
    pub(crate) rt: &'a R,
    pub(crate) alloc: Global,
    pub(crate) shared: &'a Shared<M, L>,
    pub(crate) funs: F,
    pub(crate) number: u32,
    pub(crate) stamps: Stamps,
    pub(crate) tries: u32,
    pub(crate) point: u64,
    pub(crate) share: Share<L>,
    pub(crate) sink: S,
}

impl<'a, L: Books, R: Wait, M: Meaning, F: Functions<M>, S: WatchSink> Model
    for Worker<'a, L, R, M, F, S> {
    ghost use Rattle.std.specs.Prelude.{◌≡◌, ◌<◌};
    ghost use Rattle.std.specs.Coded.{codes};
    ghost use Rattle.ref_program.specs.Seen.{WorkerSeen};
    ghost use Rattle.ref_value.specs.Code.{edn_code};

    ghost Value = { WorkerSeen S };

    ghost coded = { Prim.hlevel (codes, edn_code) };

    ghost view = { λ w. record {
      number = w.number;
      next = w.stamps.next;
      workers = w.stamps.workers;
      tries = w.tries;
      point = w.point;
      share = w.share;
      sink = w.sink;
    } };

    ghost invariant = { λ w. (0 < w.tries) × (w.share.parts ≡ 1) };
}

impl<'a, L: Books, R: Wait, M: Meaning, F: Functions<M>, S: WatchSink> Worker<'a, L, R, M, F, S> {
    /// Its number: from 0 on, below the number of workers.
    pub fn number(&self) -> u32
        ensures { result ≡ self.now.number }
    {
        self.number
    }

    pub fn alloc(&self) -> Global {
        self.alloc
    }

    /// The shared world, for calls that a worker doesn't have. They take [`Worker::rt`], [`Worker::alloc`] and [`Worker::functions`].
    pub fn shared(&self) -> &'a Shared<M, L> {
        self.shared
    }

    /// The right to wait.
    pub fn rt(&self) -> &'a R {
        self.rt
    }

    /// What functions are called by.
    pub fn functions(&self) -> &F {
        &self.funs
    }

    /// The sink, which has got the notices of this worker's changes.
    pub fn sink(&self) -> &S
        ensures { result.now ≡ self.now.sink }
    {
        &self.sink
    }

    /// The point of the latest transaction that this worker committed; 0 before the first.
    pub fn point(&self) -> u64
        ensures { result ≡ self.now.point }
    {
        self.point
    }

    /// How far this worker knows the history of the world.
    pub fn front(&self) -> &Front<L>
        ensures { result.now ≡ self.now.share.history }
    {
        self.share.front()
    }

    /// Runs a body on a transaction and commits it, as [`Worker::transact`]: a [`Body`] may be of a meaning of the program's own.
    pub fn transact_body<B: Body<Known<M, L>, Meaning = M>>(
        &mut self,
        body: &mut B,
    ) -> Result<B::Answer, TransactFault<B::Fault>>
        requires { B.may body.old }
        ensures ok { IfOk result (λ t. Committed M.means B.does body.old body.new self.old.tries (Ok t)
            self.old.next self.new.point self.old.share self.new.share) }
        ensures fault { IfErr result (λ f. HasNoStamp self.old.next self.old.workers
            × (f ≡ transacts.Commit commits.PointLimit) × (body.new ≡ body.old)
            ⊎ FaultComes M.means self.new.share.history B.does body.old body.new self.old.tries f) }
        ensures same { OnErr result (IsLater self.old.share self.new.share × (self.new.sink ≡ self.old.sink)
            × (self.new.point ≡ self.old.point)) }
        ensures told { OnOk result ((notices : List Notice) × TakesAll S.takes self.old.sink notices self.new.sink) }
        ensures stamp { OnOk result (IsNext self.old.workers self.old.next self.new.next) }
        ensures stamps { IsNoEarlier self.old.workers self.old.next self.new.next }
        ensures worker { IsSameWorker self.old self.new }
        ensures may { B.may body.new }
    {
        self.transact_as::<Known<M, L>, B>(body)
    }

    /// As [`Worker::transact_body`], for a body over a transaction whose beginning is of any kind.
    pub fn transact_as<K: Opening<M, L>, B: Body<K, Meaning = M>>(
        &mut self,
        body: &mut B,
    ) -> Result<B::Answer, TransactFault<B::Fault>>
    where
        K::Closed: Preparing<M, L>,
        requires { B.may body.old }
        ensures ok { IfOk result (λ t. Committed M.means B.does body.old body.new self.old.tries (Ok t)
            self.old.next self.new.point self.old.share self.new.share) }
        ensures fault { IfErr result (λ f. HasNoStamp self.old.next self.old.workers
            × (f ≡ transacts.Commit commits.PointLimit) × (body.new ≡ body.old)
            ⊎ FaultComes M.means self.new.share.history B.does body.old body.new self.old.tries f) }
        ensures same { OnErr result (IsLater self.old.share self.new.share × (self.new.sink ≡ self.old.sink)
            × (self.new.point ≡ self.old.point)) }
        ensures told { OnOk result ((notices : List Notice) × TakesAll S.takes self.old.sink notices self.new.sink) }
        ensures stamp { OnOk result (IsNext self.old.workers self.old.next self.new.next) }
        ensures stamps { IsNoEarlier self.old.workers self.old.next self.new.next }
        ensures worker { IsSameWorker self.old self.new }
        ensures may { B.may body.new }
    {
        let Some(stamp) = self.stamps.next() else {
            return Err(TransactFault::Commit(CommitFault::PointLimit));
        };
        match self.shared.transact_as(
            self.rt,
            self.alloc,
            &self.funs,
            &mut self.share,
            stamp,
            self.tries,
            &mut Open,
            &mut self.sink,
            body,
        ) {
            Ok((answer, receipt)) => {
                self.point = receipt.point;
                Ok(answer)
            }
            Err(fault) => Err(fault),
        }
    }

    /// As [`Worker::transact_when`], for a [`Body`].
    pub fn transact_body_when<T: Drop, B: Body<Known<M, L>, Meaning = M, Answer = Option<T>>>(
        &mut self,
        body: &mut B,
    ) -> Result<T, WaitFault<B::Fault>>
        requires { B.may body.old }
        ensures ok { IfOk result (λ t. Landed M.means B.does body.old body.new self.old.tries t
            self.old.next self.new.point self.old.share self.new.share) }
        ensures fault { IfErr result (λ f. HasNoStamp self.old.next self.old.workers
            × (f ≡ waits.Transact (transacts.Commit commits.PointLimit)) × (body.new ≡ body.old)
            ⊎ WaitFails M.means self.new.share.history B.does body.old body.new self.old.tries f) }
        ensures same { OnErr result (IsLater self.old.share self.new.share × (self.new.sink ≡ self.old.sink)
            × (self.new.point ≡ self.old.point)) }
        ensures told { OnOk result ((notices : List Notice) × TakesAll S.takes self.old.sink notices self.new.sink) }
        ensures stamp { OnOk result (IsNext self.old.workers self.old.next self.new.next) }
        ensures stamps { IsNoEarlier self.old.workers self.old.next self.new.next }
        ensures worker { IsSameWorker self.old self.new }
        ensures may { B.may body.new }
    {
        self.transact_as_when::<Known<M, L>, T, B>(body)
    }

    /// As [`Worker::transact_body_when`], for a body over a transaction whose beginning is of any kind.
    pub fn transact_as_when<K: Opening<M, L>, T: Drop, B: Body<K, Meaning = M, Answer = Option<T>>>(
        &mut self,
        body: &mut B,
    ) -> Result<T, WaitFault<B::Fault>>
    where
        K::Closed: Preparing<M, L>,
        requires { B.may body.old }
        ensures ok { IfOk result (λ t. Landed M.means B.does body.old body.new self.old.tries t
            self.old.next self.new.point self.old.share self.new.share) }
        ensures fault { IfErr result (λ f. HasNoStamp self.old.next self.old.workers
            × (f ≡ waits.Transact (transacts.Commit commits.PointLimit)) × (body.new ≡ body.old)
            ⊎ WaitFails M.means self.new.share.history B.does body.old body.new self.old.tries f) }
        ensures same { OnErr result (IsLater self.old.share self.new.share × (self.new.sink ≡ self.old.sink)
            × (self.new.point ≡ self.old.point)) }
        ensures told { OnOk result ((notices : List Notice) × TakesAll S.takes self.old.sink notices self.new.sink) }
        ensures stamp { OnOk result (IsNext self.old.workers self.old.next self.new.next) }
        ensures stamps { IsNoEarlier self.old.workers self.old.next self.new.next }
        ensures worker { IsSameWorker self.old self.new }
        ensures may { B.may body.new }
    {
        let Some(stamp) = self.stamps.next() else {
            return Err(WaitFault::Transact(TransactFault::Commit(CommitFault::PointLimit)));
        };
        match self.shared.transact_as_when(
            self.rt,
            self.alloc,
            &self.funs,
            &mut self.share,
            stamp,
            self.tries,
            &mut Open,
            &mut self.sink,
            body,
        ) {
            Ok((answer, receipt)) => {
                self.point = receipt.point;
                Ok(answer)
            }
            Err(fault) => Err(fault),
        }
    }

    /// Sets an atom to the function of its value and the arguments: Clojure's `swap!`. The sink gets the notices.
    pub fn swap<A: IntoArgs>(&mut self, a: u32, code: u32, args: A) -> Result<Swapped, AtomFault>
        ensures share { IfOk result (λ s. (given : List Edn) × A.are args given
            × (place M.means (Alter code given) s.old ≡ Ok s.new)
            × HasChanged M.means a (Alter code given) s.old s.new self.old.share self.new.share) }
        ensures told { IfOk result (λ s. AreNotices (who.Atom a) s.old s.new s.notices.items
            × TakesAll S.takes self.old.sink s.notices.items self.new.sink) }
        ensures same { OnErr result ((self.new ≡ record self.old { share = self.new.share })
            × IsLater self.old.share self.new.share) }
        ensures rest { self.new ≡ record self.old { share = self.new.share; sink = self.new.sink } }
    {
        let args = args.into_args(self.alloc)?;
        let swapped = self.shared.swap(
            self.rt,
            self.alloc,
            &self.funs,
            &mut self.share,
            a,
            code,
            args,
        )?;
        tell(&mut self.sink, swapped.notices.as_slice());
        Ok(swapped)
    }

    /// Sets an atom to a value: Clojure's `reset!`. The sink gets the notices.
    pub fn reset<V: IntoValue>(&mut self, a: u32, value: V) -> Result<Swapped, AtomFault>
        ensures share { IfOk result (λ s. V.is value s.new
            × HasChanged M.means a (Set s.new) s.old s.new self.old.share self.new.share) }
        ensures told { IfOk result (λ s. AreNotices (who.Atom a) s.old s.new s.notices.items
            × TakesAll S.takes self.old.sink s.notices.items self.new.sink) }
        ensures same { OnErr result ((self.new ≡ record self.old { share = self.new.share })
            × IsLater self.old.share self.new.share) }
        ensures rest { self.new ≡ record self.old { share = self.new.share; sink = self.new.sink } }
    {
        let value = value.into_value(self.alloc)?;
        let swapped = self
            .shared
            .reset(self.rt, self.alloc, &self.funs, &mut self.share, a, value)?;
        tell(&mut self.sink, swapped.notices.as_slice());
        Ok(swapped)
    }

    /// Sets an atom to a new value if it has the old one, and answers whether it did: Clojure's `compare-and-set!`. The sink gets the notices.
    pub fn compare_and_set<V: IntoValue>(
        &mut self,
        a: u32,
        old: &Value,
        new: V,
    ) -> Result<bool, AtomFault>
        ensures done { IfOk result (λ done. done ≡ true → (v : Edn) × V.is new v
            × HasChanged M.means a (Set v) old.now v self.old.share self.new.share
            × (notices : List Notice) × AreNotices (who.Atom a) old.now v notices
            × TakesAll S.takes self.old.sink notices self.new.sink) }
        ensures undone { IfOk result (λ done. done ≡ false → (self.new ≡ record self.old { share = self.new.share })
            × IsLater self.old.share self.new.share) }
        ensures same { OnErr result ((self.new ≡ record self.old { share = self.new.share })
            × IsLater self.old.share self.new.share) }
        ensures rest { self.new ≡ record self.old { share = self.new.share; sink = self.new.sink } }
    {
        let new = new.into_value(self.alloc)?;
        let compared = self.shared.compare_and_set(
            self.rt,
            self.alloc,
            &self.funs,
            &mut self.share,
            a,
            old,
            new,
        )?;
        tell(&mut self.sink, compared.notices.as_slice());
        Ok(compared.done)
    }

    /// Sends an action to an agent: Clojure's `send` outside of a transaction.
    pub fn send<A: IntoArgs>(&self, g: u32, code: u32, args: A) -> Result<(), SendFault> {
        let args = args.into_args(self.alloc)?;
        self.send_action(g, Action::new(code, args))
    }

    /// Sends an action that may carry sends of its own.
    pub fn send_action(&self, g: u32, action: Action) -> Result<(), SendFault> {
        self.shared.send(self.rt, g, action)
    }

    /// The value of a reference now: Clojure's `deref` outside of a transaction. That of a ref or atom is the one after all of the history that
    /// the worker then knows.
    pub fn value_of(&mut self, who: Who) -> Result<Option<Value>, AllocError>
        ensures value { IfOk result (IsValueIn M.means self.new.share.history who) }
        ensures learned { HasLearned M.means self.old.share self.new.share }
        ensures rest { self.new ≡ record self.old { share = self.new.share } }
    {
        let mut front = self.share.front().again();
        let value = self.shared.value_of(self.rt, &mut front, who);
        self.share.catch_up(front);
        value
    }

    /// Waits until these agents have done what was sent to them by now: Clojure's `await`. A crew without helpers runs nothing: there it waits
    /// for ever, or until a fault of another worker ends the run.
    pub fn await_agents(&self, agents: &[u32]) -> Result<(), AwaitFault>
        // It fails with an agent only if that is one of these.
        ensures fault { IfErr result (λ f. NamesOneOf agents.now f) }
    {
        self.shared.await_agents(self.rt, self.alloc, agents)
    }

    /// Drops the receipts of entries that a checkpoint has folded.
    pub fn forget(&mut self)
        ensures rest { self.new ≡ record self.old { share = self.new.share } }
        ensures share { (point : _) × (self.new.share ≡ forgotten self.old.share point) }
        ensures books { (self.new.share.commits ≡ self.old.share.commits) × (self.new.share.added ≡ self.old.share.added)
            × (self.new.share.taken ≡ self.old.share.taken) }
    {
        self.shared.forget(self.rt, &mut self.share);
    }

    /// Folds the entries up to a point into the base, in bites of so many, between which the lock is free. It returns how many these were.
    pub fn checkpoint(&mut self, point: u64, bite: u32) -> Result<u64, CheckpointFault>
        requires { 0 < bite }
        ensures point { OnOk result (point ≤ point_in self.new.share.history) }
        ensures absent { IfErr result (λ f. f ≡ checkpoints.NoSuchPoint → point_in self.new.share.history < point) }
        ensures learned { HasLearned M.means self.old.share self.new.share }
        ensures rest { self.new ≡ record self.old { share = self.new.share } }
    {
        let mut front = self.share.front().again();
        let folded = self
            .shared
            .checkpoint_in_bites(self.rt, self.alloc, &self.funs, &mut front, point, bite);
        self.share.catch_up(front);
        folded
    }

    /// Folds the actions that an agent has handled into its start. It returns whether it did: the agent is there, and nothing that its last
    /// action carried is held.
    pub fn fold_agent(&self, g: u32) -> Result<bool, AllocError> {
        self.shared.fold_agent(self.rt, g)
    }
}

impl<'a, L: Books, R: Wait, S: WatchSink> Worker<'a, L, R, Core, CoreFunctions, S> {
    /// Runs a body on a transaction and commits it: Clojure's `dosync`. Where the commit is in conflict all begins anew, with the values
    /// then, as often as the crew's tries say. The answer is what the body's last call returned.
    ///
    /// What the body did outside the transaction in an earlier call stays done. On a fault nothing is committed, and nothing is sent.
    pub fn transact<T: Drop, E, D: FnMut(&mut Dosync) -> Result<T, E>>(
        &mut self,
        body: D,
    ) -> Result<T, TransactFault<E>>
        requires { D.IsAlwaysCallable body }
        ensures ok { IfOk result (λ t. (last : D) × Committed core_means (calls_of D.FnMut) body last self.old.tries (Ok t)
            self.old.next self.new.point self.old.share self.new.share) }
        ensures fault { IfErr result (λ f. HasNoStamp self.old.next self.old.workers
            × (f ≡ transacts.Commit commits.PointLimit)
            ⊎ (last : D) × FaultComes core_means self.new.share.history (calls_of D.FnMut) body last self.old.tries f) }
        ensures same { OnErr result (IsLater self.old.share self.new.share × (self.new.sink ≡ self.old.sink)
            × (self.new.point ≡ self.old.point)) }
        ensures told { OnOk result ((notices : List Notice) × TakesAll S.takes self.old.sink notices self.new.sink) }
        ensures stamp { OnOk result (IsNext self.old.workers self.old.next self.new.next) }
        ensures stamps { IsNoEarlier self.old.workers self.old.next self.new.next }
        ensures worker { IsSameWorker self.old self.new }
    {
        let mut body = OnDosync::of(body);
        self.transact_as::<Snapshot, OnDosync<D, T, E>>(&mut body)
    }

    /// As [`Worker::transact`], but the body may return None, which says that it isn't ready. Then the thread sleeps until something has
    /// changed, and all begins anew. It fails with [`WaitFault::Closed`] if a fault of another thread ends the run before it is ready. A run
    /// waits for all of its workers: where the others are done, and nothing has made it ready, it waits for ever.
    pub fn transact_when<T: Drop, E, D: FnMut(&mut Dosync) -> Result<Option<T>, E>>(
        &mut self,
        body: D,
    ) -> Result<T, WaitFault<E>>
        requires { D.IsAlwaysCallable body }
        ensures ok { IfOk result (λ t. (last : D) × Landed core_means (calls_of D.FnMut) body last self.old.tries t
            self.old.next self.new.point self.old.share self.new.share) }
        ensures fault { IfErr result (λ f. HasNoStamp self.old.next self.old.workers
            × (f ≡ waits.Transact (transacts.Commit commits.PointLimit))
            ⊎ (last : D) × WaitFails core_means self.new.share.history (calls_of D.FnMut) body last self.old.tries f) }
        ensures same { OnErr result (IsLater self.old.share self.new.share × (self.new.sink ≡ self.old.sink)
            × (self.new.point ≡ self.old.point)) }
        ensures told { OnOk result ((notices : List Notice) × TakesAll S.takes self.old.sink notices self.new.sink) }
        ensures stamp { OnOk result (IsNext self.old.workers self.old.next self.new.next) }
        ensures stamps { IsNoEarlier self.old.workers self.old.next self.new.next }
        ensures worker { IsSameWorker self.old self.new }
    {
        let mut body = OnDosync::of(body);
        self.transact_as_when::<Snapshot, T, OnDosync<D, Option<T>, E>>(&mut body)
    }

    /// Runs a body as so many transactions, one after the other: Clojure's `(dotimes [_ times] (dosync ..))`. The first fault ends it.
    pub fn dotimes<T: Drop, E, D: FnMut(&mut Dosync) -> Result<T, E>>(
        &mut self,
        times: u32,
        body: D,
    ) -> Result<(), TransactFault<E>>
        requires { D.IsAlwaysCallable body }
        ensures commits { OnOk result (self.new.share.commits ≡ self.old.share.commits + times) }
        ensures few { OnErr result (self.new.share.commits < self.old.share.commits + times) }
        ensures worker { IsSameWorker self.old self.new }
    {
        let mut body = OnDosync::of(body);
        for _ in 0..times {
            let _ = self.transact_as::<Snapshot, OnDosync<D, T, E>>(&mut body)?;
        }
        Ok(())
    }
}
