//! The table of all functions and predicates of Core.
ghost use Rattle.ref_fun.specs.Calls.{HasCore};
ghost use Rattle.ref_fun.specs.Names.{is_function, is_predicate};

use crate::faults::CallFault;
use crate::functions::core_fun;
use crate::meanings::Core;
use crate::names::{is_function, is_predicate};
use crate::predicates::core_test;
use crate::tables::Functions;
use ref_value::Value;
use std::alloc::Global;

/// All functions and predicates of Core, by their codes. Use it where a program has no functions of its own: it holds no closures,
/// so that threads can share it, and a call looks nothing up.
#[derive(Clone, Copy, Drop)]
pub struct CoreFunctions;

impl CoreFunctions {
    /// The table. It takes no memory.
    #[tactic(auto, using(crate::proofs::CoreCodes::all_of_core))]
    pub fn new() -> CoreFunctions
        ensures { HasCore (record { funs = is_function; preds = is_predicate }) }
    {
        CoreFunctions
    }
}

impl Functions<Core> for CoreFunctions {
    ghost knows = { λ table. record { funs = is_function; preds = is_predicate } };

    fn has_fun(&self, code: u32) -> bool {
        is_function(code)
    }

    fn has_pred(&self, code: u32) -> bool {
        is_predicate(code)
    }

    fn call(
        &self,
        alloc: Global,
        code: u32,
        state: &Value,
        args: &[Value],
    ) -> Result<Value, CallFault> {
        if !is_function(code) {
            return Err(CallFault::NoSuchFun(code));
        }
        Ok(core_fun(alloc, code, state, args)?)
    }

    fn test(&self, code: u32, state: &Value, args: &[Value]) -> Option<bool> {
        if is_predicate(code) {
            Some(core_test(code, state, args))
        } else {
            None
        }
    }
}
