//! A transaction as its body sees it.
ghost use Rattle.std.specs.Prelude.{◌≡◌, List, true, false, Some, None, IfErr, IfOk, OnErr, OnOk};
ghost use Rattle.ref_fun.specs.declared.actions.Action.{Action};
ghost use Rattle.ref_log.specs.declared.operations.Op.TheVariants.{Set, Alter, Commute, Ensure};
ghost use Rattle.ref_tx.specs.Inner.{inner_value, with_done, with_sent};
ghost use Rattle.ref_tx.specs.declared.faults.TxFault.TheVariants.{NotMet};
ghost use Rattle.ref_value.specs.Edn.{Edn};

use crate::beginnings::Readable;
use crate::faults::TxFault;
use crate::snapshots::Snapshot;
use crate::transactions::Tx;
use ref_fun::{Action, Core, CoreFunctions, Functions, IntoArgs, IntoValue, Meaning, Rule};
use ref_value::Value;
use std::alloc::Global;
use std::marker::Model;

/// A transaction that is open, with the allocator and the functions that its calls take: what the body of a transaction gets. Its calls are
/// those of [`Tx`], and take arguments as Rust has them. Contracts see what they see of the [`Tx`].
#[derive(Drop)]
pub struct Dosync<S: Readable = Snapshot, M: Meaning = Core, F = CoreFunctions> {
    pub tx: Tx<M, S>,
    pub alloc: Global,
    pub funs: F,
}

impl<S: Readable, M: Meaning, F> Model for Dosync<S, M, F> {
    ghost use Rattle.std.specs.Coded.{codes};
    ghost use Rattle.ref_value.specs.Code.{edn_code};
    ghost use Rattle.ref_tx.specs.Seen.{TxSeen};

    ghost Value = { TxSeen };

    ghost coded = { Prim.hlevel (codes, edn_code) };

    ghost view = { λ d. d.tx };
}

impl<S: Readable, M: Meaning, F: Functions<M>> Dosync<S, M, F> {
    /// The in-transaction value of a ref: Clojure's `deref`, or `@`. It takes no memory.
    pub fn deref(&self, r: u32) -> Result<&Value, TxFault>
        ensures ok { IfOk result (λ v. inner_value M.means self.now r ≡ Some v.now) }
        ensures none { OnErr result (inner_value M.means self.now r ≡ None) }
    {
        self.tx.deref(r)
    }

    /// Sets a ref to a value, and answers it: Clojure's `ref-set`.
    pub fn ref_set<V: IntoValue>(&mut self, r: u32, value: V) -> Result<Value, TxFault>
        ensures adds { IfOk result (λ v. V.is value v × (self.new ≡ with_done self.old r (Set v) v)) }
        ensures inner { IfOk result (λ v. inner_value M.means self.new r ≡ Some v) }
        ensures err { OnErr result (self.new ≡ self.old) }
    {
        let value = value.into_value(self.alloc)?;
        self.tx.ref_set(self.alloc, r, value)
    }

    /// Sets a ref to what a function makes of the in-transaction value and the arguments, and answers it: Clojure's `alter`.
    pub fn alter<A: IntoArgs>(&mut self, r: u32, code: u32, args: A) -> Result<Value, TxFault>
        ensures adds { IfOk result (λ v. (given : List Edn) × A.are args given
            × (self.new ≡ with_done self.old r (Alter code given) v)) }
        ensures inner { IfOk result (λ v. inner_value M.means self.new r ≡ Some v) }
        ensures err { OnErr result (self.new ≡ self.old) }
    {
        let args = args.into_args(self.alloc)?;
        self.tx.alter(self.alloc, &self.funs, r, code, args)
    }

    /// Sets a ref to what a function makes of the in-transaction value and the arguments, and answers it; at the commit
    /// the function is called again, with the latest value: Clojure's `commute`.
    pub fn commute<A: IntoArgs>(&mut self, r: u32, code: u32, args: A) -> Result<Value, TxFault>
        ensures adds { IfOk result (λ v. (given : List Edn) × A.are args given
            × (self.new ≡ with_done self.old r (Commute code given) v)) }
        ensures inner { IfOk result (λ v. inner_value M.means self.new r ≡ Some v) }
        ensures err { OnErr result (self.new ≡ self.old) }
    {
        let args = args.into_args(self.alloc)?;
        self.tx.commute(self.alloc, &self.funs, r, code, args)
    }

    /// Protects a ref until the commit, and answers its in-transaction value: Clojure's `ensure`.
    pub fn ensure(&mut self, r: u32) -> Result<Value, TxFault>
        ensures adds { IfOk result (λ v. self.new ≡ with_done self.old r Ensure v) }
        ensures inner { IfOk result (λ v. inner_value M.means self.new r ≡ Some v) }
        ensures err { OnErr result (self.new ≡ self.old) }
    {
        self.tx.ensure(self.alloc, r)
    }

    /// Sends an action to an agent: Clojure's `send` in a transaction, which holds it until the commit.
    pub fn send<A: IntoArgs>(&mut self, g: u32, code: u32, args: A) -> Result<(), TxFault>
        ensures adds { OnOk result ((action : Action) × (action.code ≡ code) × A.are args action.args
            × (self.new ≡ with_sent self.old g action)) }
        ensures err { OnErr result (self.new ≡ self.old) }
    {
        let args = args.into_args(self.alloc)?;
        self.send_action(g, Action::new(code, args))
    }

    /// Sends an action that may carry sends of its own, as [`Dosync::send`] does.
    pub fn send_action(&mut self, g: u32, action: Action) -> Result<(), TxFault>
        ensures adds { OnOk result (self.new ≡ with_sent self.old g action) }
        ensures err { OnErr result (self.new ≡ self.old) }
    {
        self.tx.send(self.alloc, &self.funs, g, action)
    }

    /// Asks whether a predicate with these arguments accepts the in-transaction value of a ref: [`TxFault::NotMet`] if it doesn't. It adds no
    /// operation.
    pub fn require<A: IntoArgs>(&self, r: u32, code: u32, args: A) -> Result<(), TxFault>
        ensures met { OnOk result ((given : List Edn) × (v : Edn) × A.are args given
            × (inner_value M.means self.now r ≡ Some v) × (M.accepts code given v ≡ true)) }
        ensures unmet { IfErr result (λ f. f ≡ NotMet → (given : List Edn) × (v : Edn) × A.are args given
            × (inner_value M.means self.now r ≡ Some v) × (M.accepts code given v ≡ false)) }
    {
        let args = args.into_args(self.alloc)?;
        self.tx.require(&self.funs, r, &Rule { code, args })
    }
}
