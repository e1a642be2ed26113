//! What a transaction runs.
ghost use Rattle.std.specs.Prelude.{◌≡◌, Result};
ghost use Rattle.std.specs.Fn.{CalledAtMut};
ghost use Rattle.ref_tx.specs.Seen.{TxSeen};

use ref_fun::{Core, CoreFunctions, Meaning};
use ref_tx::{Dosync, Readable, Snapshot, Tx};
use std::marker::PhantomData;

/// What a transaction runs: [`Shared::transact_body`](crate::Shared::transact_body) takes one. A closure is one where functions mean what
/// [`Core`]'s mean: [`OnDosync`] has one over a [`Dosync`], and [`OnTx`] one over a [`Tx`]. A program with a meaning of its own writes a
/// type that is one: no bound can be stated on a closure over a transaction of any meaning.
///
/// S is what its transaction holds of the values that it began with. A closure is a body over a [`Snapshot`], the transaction of any world.
/// A type that is a body for each `S: Readable` is one over a [`Known`](ref_world::Known), too, whose commit compares no value.
pub trait Body<S: Readable> {
    /// What the codes of functions mean in its world.
    type Meaning: Meaning;

    /// What its transaction calls functions by.
    type Functions: Drop;

    type Answer: Drop;

    type Fault;

    /// It may be called, and again after each call.
    ghost may: { Self → Type 0 };

    /// What a call does: the transaction that it gets, what it answers, and the transaction that it leaves.
    ghost does: { Self → TxSeen → Result Self.Answer Self.Fault → TxSeen → Self → Type 0 };

    fn functions(&self) -> Self::Functions;

    fn run(
        &mut self,
        tx: &mut Dosync<S, Self::Meaning, Self::Functions>,
    ) -> Result<Self::Answer, Self::Fault>
        requires { may self.old }
        ensures does { does self.old tx.old result tx.new self.new }
        ensures may { may self.new };
}

/// A closure over a [`Dosync`].
#[derive(Drop)]
pub struct OnDosync<D, T, E> {
    pub body: D,
    of: PhantomData<(T, E)>,
}

impl<D, T, E> OnDosync<D, T, E> {
    pub fn of(body: D) -> OnDosync<D, T, E>
        ensures { result.body ≡ body }
    {
        OnDosync {
            body,
            of: PhantomData,
        }
    }
}

impl<T: Drop, E, D: FnMut(&mut Dosync) -> Result<T, E>> Body<Snapshot> for OnDosync<D, T, E> {
    type Meaning = Core;

    type Functions = CoreFunctions;

    type Answer = T;

    type Fault = E;

    ghost may = { λ b. D.IsAlwaysCallable b.body };

    ghost does = { λ before began answer left after. CalledAtMut D.FnMut before.body began answer after.body left };

    fn functions(&self) -> CoreFunctions {
        CoreFunctions
    }

    fn run(&mut self, tx: &mut Dosync) -> Result<T, E>
        requires { D.IsAlwaysCallable self.old.body }
        ensures does { CalledAtMut D.FnMut self.old.body tx.old result self.new.body tx.new }
        ensures may { D.IsAlwaysCallable self.new.body }
    {
        (self.body)(tx)
    }
}

/// A closure over a [`Tx`].
#[derive(Drop)]
pub struct OnTx<B, T, E> {
    pub body: B,
    of: PhantomData<(T, E)>,
}

impl<B, T, E> OnTx<B, T, E> {
    pub fn of(body: B) -> OnTx<B, T, E>
        ensures { result.body ≡ body }
    {
        OnTx {
            body,
            of: PhantomData,
        }
    }
}

impl<T: Drop, E, B: FnMut(&mut Tx<Core>) -> Result<T, E>> Body<Snapshot> for OnTx<B, T, E> {
    type Meaning = Core;

    type Functions = ();

    type Answer = T;

    type Fault = E;

    ghost may = { λ b. B.IsAlwaysCallable b.body };

    ghost does = { λ before began answer left after. CalledAtMut B.FnMut before.body began answer after.body left };

    fn functions(&self) -> () {}

    fn run(&mut self, tx: &mut Dosync<Snapshot, Core, ()>) -> Result<T, E>
        requires { B.IsAlwaysCallable self.old.body }
        ensures does { CalledAtMut B.FnMut self.old.body tx.old result self.new.body tx.new }
        ensures may { B.IsAlwaysCallable self.new.body }
    {
        (self.body)(&mut tx.tx)
    }
}
