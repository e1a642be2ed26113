//! An open transaction.
ghost use Rattle.ref_log.specs.Told.{AnswersOrMemory, Tells, TellsThenMemory};
ghost use Rattle.std.specs.Prelude.{◌≡◌, ◌≢◌, ◌<◌, [], true, false, Ok, Err, Some, None, IfOk, IfErr, OnOk, OnErr, length, option_copied, slice_get};
ghost use Rattle.ref_log.specs.declared.operations.Done.{Done};
ghost use Rattle.ref_log.specs.Replay.{codes_of, is_commute, is_protected, missing, place};
ghost use Rattle.ref_log.specs.declared.operations.Op.TheVariants.{Set, Alter, Commute, Ensure};
ghost use Rattle.ref_log.specs.Tally.{is_tally};
ghost use Rattle.ref_tx.specs.Inner.{IsTx, inner_value, has_ref, is_commuted, refusal, refusal_by, early_refusal, answer_of, and_place, called, send_refusal, unmet, with_done, with_sent};
ghost use Rattle.ref_tx.specs.declared.faults.TxFault.TheVariants.{NoSuchRef, Memory};

use crate::beginnings::{Beginning, Comparable, Readable};
use crate::faults::TxFault;
use crate::snapshots::Snapshot;
use crate::tables::Table;
use ref_fun::{Action, CallFault, Functions, Meaning, Rule, absent_agent, missing_fun};
use ref_log::{Args, Done, Op, Sent, SharedVec};
use ref_value::Value;
use std::alloc::{AllocError, Global};
use std::marker::{Model, PhantomData};

/// A transaction. Contracts see its read point, the values that it began with, its operations with their
/// answers, what it sends, the number of the tally, and how many agents there were.
///
/// It is open if S is [`Readable`], as [`Snapshot`] is, which S is where it isn't written. [`Tx::close`] makes it one that only a commit
/// takes; what contracts see stays the same.
///
/// A call costs a look-up among the refs that the transaction has operated on, and its function.
#[derive(Drop)]
pub struct Tx<M: Meaning, S: Beginning = Snapshot> {
    read_point: u64,
    began: S,
    dones: SharedVec<Done>,
    sends: SharedVec<Sent>,
    tally: Option<u32>,
    agents: usize,
    table: Table,
    of: PhantomData<M>,
}

impl<M: Meaning, S: Beginning> Model for Tx<M, S> {
    ghost use Rattle.std.specs.Coded.{codes};
    ghost use Rattle.ref_value.specs.Code.{edn_code};
    ghost use Rattle.ref_tx.specs.Inner.{IsTx};
    ghost use Rattle.ref_tx.specs.Own.{IsTabled};
    ghost use Rattle.ref_tx.specs.Seen.{TxSeen};

    ghost Value = { TxSeen };

    ghost coded = { Prim.hlevel (codes, edn_code) };

    ghost view = { λ a. record {
      read_point = a.read_point;
      began = S.values a.began;
      dones = a.dones;
      sends = a.sends;
      tally = a.tally;
      agents = a.agents;
    } };

    ghost use Rattle.ref_tx.specs.Starts.{HasStarts};

    ghost invariant = { λ a. IsTx M.means (S.values a.began) a.dones a.tally
        × IsTabled M.means (S.values a.began) a.dones a.table
        × HasStarts (S.values a.began) (S.start_at a.began) a.dones
        × S.fits a.began a.read_point };
}

impl<M: Meaning, S: Readable> Tx<M, S> {
    /// A transaction that has done nothing. It reads this beginning, which is that of this point; the tally is the ref of this
    /// number, and there are so many agents. It takes no memory.
    pub fn start(
        alloc: Global,
        read_point: u64,
        began: S,
        tally: Option<u32>,
        agents: usize,
    ) -> Tx<M, S>
        requires { S.fits began read_point }
        ensures { result
            ≡ record {
              read_point = read_point;
              began = S.values began;
              dones = [];
              sends = [];
              tally = tally;
              agents = agents;
            } }
    {
        Tx {
            read_point,
            began,
            dones: SharedVec::none(),
            sends: SharedVec::none(),
            tally,
            agents,
            table: Table::empty(alloc),
            of: PhantomData,
        }
    }

    /// All refs as of the read point.
    pub fn began(&self) -> &Snapshot
        ensures { result.now.values ≡ self.now.began }
    {
        self.began.snapshot()
    }

    /// The transaction once its body is done, for a commit: nothing more can be done in it. Of the values that it began with it holds what S
    /// needs for a commit, and drops all others, so that they can be changed in place. That of a [`Snapshot`] holds those of the refs that it
    /// protects: then it is linear in the number of operations, and takes memory for more than two. If that is refused, the transaction is
    /// dropped.
    pub fn close(self, alloc: Global) -> Result<Tx<M, S::Closed>, AllocError>
        ensures { IfOk result (λ tx. tx ≡ self) }
    {
        let Tx {
            read_point,
            began,
            dones,
            sends,
            tally: number,
            agents,
            table,
            of,
        } = self;
        let began = began.close(alloc, dones.as_slice())?;
        Ok(Tx {
            read_point,
            began,
            dones,
            sends,
            tally: number,
            agents,
            table,
            of,
        })
    }

    /// The in-transaction value of a ref: Clojure's `deref`. It takes no memory.
    #[tactic(auto, using(crate::proofs::Grown::none_stays))]
    pub fn deref(&self, r: u32) -> Result<&Value, TxFault>
        ensures ok { IfOk result (λ v. inner_value M.means self.now r ≡ Some v.now) }
        ensures there { IfOk result (λ v. has_ref self.now r ≡ true) }
        ensures err { IfErr result (λ f. (f ≡ NoSuchRef) × (has_ref self.now r ≡ false)) }
        ensures none { OnErr result (inner_value M.means self.now r ≡ None) }
    {
        match self.began.snapshot().get(r) {
            None => Err(TxFault::NoSuchRef),
            Some(began) => match self.table.last_of(self.dones.as_slice(), r) {
                Some(answer) => Ok(answer),
                None => Ok(began),
            },
        }
    }

    /// Sets a ref to a value, and answers it: Clojure's `ref-set`.
    pub fn ref_set(&mut self, alloc: Global, r: u32, value: Value) -> Result<Value, TxFault>
        ensures answers { AnswersOrMemory Memory (early_refusal (λ code. true) self.old r (Set value))
            (answer_of M.means (λ code. true) self.old r (Set value)) result }
        ensures adds { IfOk result (λ v. self.new ≡ with_done self.old r (Set value) v) }
        ensures inner { IfOk result (λ v. inner_value M.means self.new r ≡ Some v) }
        ensures err { OnErr result (self.new ≡ self.old) }
    {
        self.check(r, true, false)?;
        let op = Op::Set(value.share()?);
        self.record(alloc, r, op, value)
    }

    /// Sets a ref to what a function makes of the in-transaction value and the arguments, and answers it: Clojure's
    /// `alter`.
    pub fn alter<F: Functions<M>>(
        &mut self,
        alloc: Global,
        funs: &F,
        r: u32,
        code: u32,
        args: Args,
    ) -> Result<Value, TxFault>
        ensures answers { AnswersOrMemory Memory (early_refusal (F.knows funs.now).funs self.old r (Alter code args))
            (answer_of M.means (F.knows funs.now).funs self.old r (Alter code args)) result }
        ensures adds { IfOk result (λ v. self.new ≡ with_done self.old r (Alter code args) v) }
        ensures inner { IfOk result (λ v. inner_value M.means self.new r ≡ Some v) }
        ensures err { OnErr result (self.new ≡ self.old) }
    {
        let before = self.check(r, true, false)?;
        let op = Op::Alter(code, args);
        let value = call(alloc, funs, &op, before)?;
        self.record(alloc, r, op, value)
    }

    /// Sets a ref to what a function makes of the in-transaction value and the arguments, and answers it; at the commit
    /// the function is called again, with the latest value: Clojure's `commute`.
    pub fn commute<F: Functions<M>>(
        &mut self,
        alloc: Global,
        funs: &F,
        r: u32,
        code: u32,
        args: Args,
    ) -> Result<Value, TxFault>
        ensures answers { AnswersOrMemory Memory
            (early_refusal (F.knows funs.now).funs self.old r (Commute code args))
            (answer_of M.means (F.knows funs.now).funs self.old r (Commute code args)) result }
        ensures adds { IfOk result (λ v. self.new ≡ with_done self.old r (Commute code args) v) }
        ensures inner { IfOk result (λ v. inner_value M.means self.new r ≡ Some v) }
        ensures err { OnErr result (self.new ≡ self.old) }
    {
        let op = Op::Commute(code, args);
        let before = self.check(r, false, op.fits_tally())?;
        let value = call(alloc, funs, &op, before)?;
        self.record(alloc, r, op, value)
    }

    /// Protects a ref until the commit, and answers its in-transaction value: Clojure's `ensure`.
    pub fn ensure(&mut self, alloc: Global, r: u32) -> Result<Value, TxFault>
        ensures answers { AnswersOrMemory Memory (early_refusal (λ code. true) self.old r Ensure)
            (answer_of M.means (λ code. true) self.old r Ensure) result }
        ensures adds { IfOk result (λ v. self.new ≡ with_done self.old r Ensure v) }
        ensures inner { IfOk result (λ v. inner_value M.means self.new r ≡ Some v) }
        ensures err { OnErr result (self.new ≡ self.old) }
    {
        let value = self.check(r, false, true)?.share()?;
        self.record(alloc, r, Op::Ensure, value)
    }

    /// Sends an action to an agent: Clojure's `send` in a transaction, which holds it until the commit. The table has to have
    /// its function and the functions of what it carries, and isn't asked for more; the agent and those that it carries sends to
    /// have to have been there when the transaction began. Behind it stands what is sent later.
    pub fn send<F: Functions<M>>(
        &mut self,
        alloc: Global,
        funs: &F,
        g: u32,
        action: Action,
    ) -> Result<(), TxFault>
        ensures refused { TellsThenMemory Memory (send_refusal (F.knows funs.now).funs self.old g action) result }
        ensures adds { OnOk result (self.new ≡ with_sent self.old g action) }
        ensures err { OnErr result (self.new ≡ self.old) }
    {
        if let Some(code) = missing_fun(funs, &action) {
            return Err(TxFault::NoSuchFun(code));
        }
        if absent_agent(self.agents, g, &action).is_some() {
            return Err(TxFault::NoSuchAgent);
        }
        self.sends.push(alloc, Sent { agent: g, action })?;
        Ok(())
    }

    /// Asks whether a rule accepts the in-transaction value of a ref. It adds no operation and takes no memory.
    pub fn require<F: Functions<M>>(&self, funs: &F, r: u32, rule: &Rule) -> Result<(), TxFault>
        ensures refused { Tells (unmet M.accepts (F.knows funs.now).preds rule.now
            (inner_value M.means self.now r)) result }
    {
        let value = self.deref(r)?;
        match funs.test(rule.code, value, rule.args.as_slice()) {
            None => Err(TxFault::NoSuchFun(rule.code)),
            Some(true) => Ok(()),
            Some(false) => Err(TxFault::NotMet),
        }
    }

    // The in-transaction value of a ref, where an operation isn't refused before its function is asked for.
    fn check(&self, r: u32, sets: bool, fits_tally: bool) -> Result<&Value, TxFault>
        ensures refused { Tells (refusal_by self.now r sets fits_tally) result }
        ensures value { IfOk result (λ v. inner_value M.means self.now r ≡ Some v.now) }
        ensures told { IfErr result (λ f. f ≢ Memory) }
    {
        let value = self.deref(r)?;
        if sets && self.is_commuted(r) {
            return Err(TxFault::SetAfterCommute);
        }
        if self.is_tally(r) && !fits_tally {
            return Err(TxFault::TallyOnly);
        }
        Ok(value)
    }

    fn is_commuted(&self, r: u32) -> bool
        ensures { result ≡ is_commuted self.now.dones r }
    {
        self.table.is_commuted(self.dones.as_slice(), r)
    }

    fn is_tally(&self, r: u32) -> bool
        ensures { result ≡ is_tally self.now.tally r }
    {
        match self.tally {
            Some(tally) => tally == r,
            None => false,
        }
    }

    // Adds an operation, whose answer is this value.
    #[tactic(auto, using(crate::proofs::Grown::value_more))]
    fn record(&mut self, alloc: Global, r: u32, op: Op, value: Value) -> Result<Value, TxFault>
        requires allowed { refusal self.old r op ≡ None }
        requires answer { and_place M.means op (inner_value M.means self.old r) ≡ Some value }
        ensures ok { IfOk result (λ v. v ≡ value) }
        ensures adds { OnOk result (self.new ≡ with_done self.old r op value) }
        ensures fault { IfErr result (λ f. f ≡ Memory) }
        ensures inner { IfOk result (λ v. inner_value M.means self.new r ≡ Some v) }
        ensures err { OnErr result (self.new ≡ self.old) }
    {
        let answer = value.share()?;
        self.table.make_place(self.dones.as_slice())?;
        self.dones.push(alloc, Done { r, op, answer })?;
        Ok(value)
    }
}

impl<M: Meaning, S: Beginning> Tx<M, S> {
    /// The point as of which it reads.
    pub fn read_point(&self) -> u64
        ensures { result ≡ self.now.read_point }
    {
        self.read_point
    }

    /// What it holds of the values that it began with.
    pub fn beginning(&self) -> &S
        ensures values { S.values result.now ≡ self.now.began }
        ensures fits { S.fits result.now self.now.read_point }
    {
        &self.began
    }

    /// The operations so far, each with its answer: the in-transaction value after it.
    pub fn dones(&self) -> &[Done]
        ensures value { result.now ≡ self.now.dones }
        ensures kept { IsTx M.means self.now.began self.now.dones self.now.tally }
    {
        SharedVec::as_slice(&self.dones)
    }

    /// The operations so far, for one more owner of them all.
    pub fn shared_dones(&self) -> &SharedVec<Done>
        ensures { result.now ≡ self.now.dones }
    {
        &self.dones
    }

    /// Whether it has set, altered or ensured a ref. A look-up among the refs that it has operated on.
    pub fn is_protected(&self, r: u32) -> bool
        ensures { result ≡ is_protected self.now.dones r }
    {
        self.table.is_protected(self.dones.as_slice(), r)
    }

    /// What it sends when it is committed, in the order in which it was sent.
    pub fn sends(&self) -> &[Sent]
        ensures { result.now ≡ self.now.sends }
    {
        self.sends.as_slice()
    }

    /// What it sends when it is committed, for one more owner of it all.
    pub fn shared_sends(&self) -> &SharedVec<Sent>
        ensures { result.now ≡ self.now.sends }
    {
        &self.sends
    }
}

impl<M: Meaning, S: Comparable> Tx<M, S> {
    /// What the ref of an operation had in the beginning, for the operation of this number, where that protects its ref.
    pub fn start_of(&self, i: usize) -> Option<&Value>
        requires { i < length self.now.dones }
        ensures { (d : Done) → slice_get self.now.dones i ≡ Some d → is_commute d.op ≡ false
            → option_copied result ≡ slice_get self.now.began d.r }
    {
        let done = &self.dones.as_slice()[i];
        self.began.start_of(i, done.r)
    }
}

// What the function of an operation makes of a value.
fn call<M: Meaning, F: Functions<M>>(
    alloc: Global,
    funs: &F,
    op: &Op,
    value: &Value,
) -> Result<Value, TxFault>
    ensures ok { IfOk result (λ v. called M.means op.now (Some value.now)
        (missing (F.knows funs.now).funs (codes_of op.now)) ≡ Ok v) }
    ensures fault { IfErr result (λ f. f ≢ Memory
        → called M.means op.now (Some value.now) (missing (F.knows funs.now).funs (codes_of op.now)) ≡ Err f) }
    ensures memory { IfErr result (λ f. f ≡ Memory → missing (F.knows funs.now).funs (codes_of op.now) ≡ None) }
    ensures place { IfOk result (λ v. place M.means op.now value.now ≡ Ok v) }
{
    match op.place(alloc, funs, value) {
        Ok(value) => Ok(value),
        Err(CallFault::NoSuchFun(code)) => Err(TxFault::NoSuchFun(code)),
        Err(CallFault::Refused(cause)) => Err(TxFault::Refused(cause)),
        Err(CallFault::Memory) => Err(TxFault::Memory),
    }
}
