//! One step of a worker.

use crate::running::reasons::{
    Outcome, of_atom, of_mode, of_restart, of_rule, of_send, of_transaction,
};
use crate::running::workers::Run;
use ref_fun::{Core, Functions, share_rule};
use ref_log::{Op, Shareable as _, Stamp};
use ref_plan::{PlannedOp, Step};
use ref_shared::{Body, Gate, Quiet};
use ref_tx::{Dosync, Readable, Tx, TxFault};
use ref_world::{Books, Share};
use std::alloc::Global;
use std::sync::Wait;

/// Runs a step, and returns why it was refused, if it was. The notices of atoms are dropped: a workload
/// has none. A compare that finds another value isn't refused.
pub(crate) fn run_step<F: Functions<Core>, L: Books, R: Wait, G: Gate>(
    rt: &R,
    run: &Run<'_, F, L>,
    share: &mut Share<L>,
    gate: &mut G,
    stamp: Stamp,
    step: &Step,
) -> Outcome {
    let (alloc, funs, shared) = (run.alloc, run.funs, &run.shared);
    match step {
        Step::Tx(ops) => run_transaction(rt, run, share, gate, stamp, ops.as_slice()),
        Step::Swap(a, action) => {
            let args = action.args.share()?;
            of_atom(shared.swap(rt, alloc, funs, share, *a, action.code, args))
        }
        Step::Reset(a, value) => {
            of_atom(shared.reset(rt, alloc, funs, share, *a, value.share()?))
        }
        Step::CompareAndSet(a, old, new) => {
            of_atom(shared.compare_and_set(rt, alloc, funs, share, *a, old, new.share()?))
        }
        Step::Send(sent) => of_send(shared.send(rt, sent.agent, sent.action.share()?)),
        Step::Restart(g, state, clear) => {
            of_restart(shared.restart(rt, funs, *g, state.share()?, *clear))
        }
        Step::Mode(g, mode) => of_mode(shared.set_error_mode(rt, *g, *mode)),
        Step::Validator(who, rule) => {
            of_rule(shared.set_validator(rt, funs, *who, share_rule(rule)?))
        }
    }
}

fn run_transaction<F: Functions<Core>, L: Books, R: Wait, G: Gate>(
    rt: &R,
    run: &Run<'_, F, L>,
    share: &mut Share<L>,
    gate: &mut G,
    stamp: Stamp,
    ops: &[PlannedOp],
) -> Outcome {
    let (alloc, funs) = (run.alloc, run.funs);
    of_transaction(
        run.shared.transact_body(
            rt,
            alloc,
            funs,
            share,
            stamp,
            run.tries.max(1),
            gate,
            &mut Quiet,
            &mut Operations { funs, ops },
        ),
    )
}

// The body of a transaction: its operations in order, up to the first that is refused.
#[derive(Drop)]
struct Operations<'a, F> {
    funs: &'a F,
    ops: &'a [PlannedOp],
}

impl<'a, F: Functions<Core>, S: Readable> Body<S> for Operations<'a, F> {
    type Meaning = Core;

    type Functions = ();

    type Answer = ();

    type Fault = TxFault;

    ghost may = { λ _. Unit {0} };

    ghost does = { λ _ _ _ _ _. Unit {0} };

    fn functions(&self) -> () {}

    fn run(&mut self, tx: &mut Dosync<S, Core, ()>) -> Result<(), TxFault> {
        let alloc = tx.alloc;
        for op in self.ops {
            run_op(alloc, self.funs, &mut tx.tx, op)?;
        }
        Ok(())
    }
}

fn run_op<F: Functions<Core>, S: Readable>(
    alloc: Global,
    funs: &F,
    tx: &mut Tx<Core, S>,
    op: &PlannedOp,
) -> Result<(), TxFault> {
    match op {
        PlannedOp::On(r, op) => run_on_ref(alloc, funs, tx, *r, op),
        PlannedOp::Require(r, rule) => tx.require(funs, *r, rule),
        PlannedOp::Send(sent) => tx.send(alloc, funs, sent.agent, sent.action.share()?),
    }
}

fn run_on_ref<F: Functions<Core>, S: Readable>(
    alloc: Global,
    funs: &F,
    tx: &mut Tx<Core, S>,
    r: u32,
    op: &Op,
) -> Result<(), TxFault> {
    let _answer = match op {
        Op::Set(value) => tx.ref_set(alloc, r, value.share()?)?,
        Op::Alter(code, args) => tx.alter(alloc, funs, r, *code, args.share()?)?,
        Op::Commute(code, args) => tx.commute(alloc, funs, r, *code, args.share()?)?,
        Op::Ensure => tx.ensure(alloc, r)?,
    };
    Ok(())
}
