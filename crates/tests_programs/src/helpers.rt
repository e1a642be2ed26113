//! A helper that can't go on ends the run: who waits is woken, and the helper's fault is that of the run, if no worker has one of its own.
ghost use Rattle.ref_fun.specs.Names.{is_function, is_predicate};
ghost use Rattle.std.specs.Prelude.{◌&&◌, ◌==◌, not};

use crate::same::same;
use ref_fun::{CallFault, Functions};
use ref_program::prelude::*;
use ref_shared::Quiet;
use std::test::Fail;

// Core's functions without `-`.
#[derive(Clone, Copy, Drop)]
struct WithoutMinus;

impl Functions<Core> for WithoutMinus {
    ghost knows = { λ _. record { funs = λ c. is_function c && not (c == 2); preds = is_predicate } };

    fn has_fun(&self, code: u32) -> bool {
        CoreFunctions.has_fun(code) && code != MINUS
    }

    fn has_pred(&self, code: u32) -> bool {
        CoreFunctions.has_pred(code)
    }

    fn call(
        &self,
        alloc: Global,
        code: u32,
        state: &Value,
        args: &[Value],
    ) -> Result<Value, CallFault> {
        if code == MINUS {
            return Err(CallFault::NoSuchFun(code));
        }
        CoreFunctions.call(alloc, code, state, args)
    }

    fn test(&self, code: u32, state: &Value, args: &[Value]) -> Option<bool> {
        CoreFunctions.test(code, state, args)
    }
}

// A worker sends what no helper can run, and waits for it. If the wait fails it may have a fault of its own.
#[derive(Drop)]
struct Sending {
    own: Option<Fault>,
}

impl CustomProgram for Sending {
    type Meaning = Core;

    type Functions = WithoutMinus;

    type Sink = Quiet;

    fn functions(&self) -> WithoutMinus {
        WithoutMinus
    }

    fn sink(&self) -> Quiet {
        Quiet
    }

    fn start(&self, world: &mut Declared) -> Result<(), Fault> {
        world.make_agent("0", ErrorMode::Fail)?;
        Ok(())
    }

    fn work<L: Books, R: Wait>(
        &self,
        worker: &mut Worker<'_, L, R, Core, WithoutMinus>,
    ) -> Result<(), Fault> {
        worker.send(0, PLUS, 1)?;
        worker.send(0, MINUS, 1)?;
        match worker.await_agents(&[0]) {
            Ok(()) => Ok(()),
            Err(fault) => Err(self.own.unwrap_or(Fault::from(fault))),
        }
    }
}

// The worker's own fault, how many workers and helpers there are, and what the fault of the run says.
const ROWS: &[(Option<Fault>, u32, u32, &str)] = &[
    (None, 1, 1, "the table lacks code 2"),
    (None, 2, 2, "the table lacks code 2"),
    (Some(Fault::Own("in vain")), 1, 1, "in vain"),
];

#[test]
fn who_waits_for_a_helper_that_cannot_go_on_is_woken(rt: HostRuntime) -> Result<(), Fail> {
    for (own, workers, helpers, wanted) in ROWS {
        let ended = run_custom(&rt, &Sending { own: *own }, Crew::of(*workers, *helpers));
        let said = match ended {
            Ok(_) => String::from_str(rt.alloc(), "no fault")?,
            Err(fault) => fault.to_string(rt.alloc())?,
        };
        same(&rt, said.as_str(), *wanted);
    }
    Ok(())
}
