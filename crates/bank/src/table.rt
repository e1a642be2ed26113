//! The table of functions that the bank runs by: all of Core.
//!
//! A closure may not leave the function that makes it but by a loan, so what makes the table also runs the business.
ghost use Rattle.std.specs.Prelude.{◌≤◌, length};
ghost use Rattle.ref_fun.specs.Limits.{most_arguments};

use crate::{Trouble, business};
use ref_edn::Value;
use ref_fun::{Fun, FunFault, FunTable, Pred, StoredFun, StoredPred, core_fun, core_test};
use std::alloc::Global;

/// Makes the table, and does the business by it. A closure is stored with a proof that it answers what Core means by its code; here
/// that is what `core_fun` and `core_test` promise.
pub(crate) fn run_by_core<R: AllocGlobal + Print>(rt: &R) -> Result<(), Trouble> {
    let alloc = rt.alloc();
    let mut table = FunTable::empty(alloc);
    for code in 1..11u32 {
        let run: Fun = match Box::new(
            alloc,
            move |alloc: Global, state: &Value, args: &[Value]| -> Result<Value, FunFault>
                requires { length args.now ≤ most_arguments }
            { core_fun(alloc, code, state, args) },
        ) {
            Ok(run) => run,
            Err(_) => return Err(Trouble),
        };
        let Ok(()) = table.add_fun(StoredFun::new(code, run)) else {
            return Err(Trouble);
        };
    }
    for code in 101..110u32 {
        let run: Pred = match Box::new(alloc, move |state: &Value, args: &[Value]| {
            core_test(code, state, args)
        }) {
            Ok(run) => run,
            Err(_) => return Err(Trouble),
        };
        let Ok(()) = table.add_pred(StoredPred::new(code, run)) else {
            return Err(Trouble);
        };
    }
    business(rt, &table)
}
