//! A table of Core's functions that may want memory or predicates.
ghost use Rattle.ref_fun.specs.Names.{is_function, is_predicate};
ghost use Rattle.std.specs.Prelude.{◌&&◌};

use ref_edn::Value;
use ref_fun::{CallFault, Core, CoreFunctions, Functions};
use std::alloc::Global;

/// All functions of Core, which answer that there is no memory where it has none, and all predicates or none.
#[derive(Clone, Copy, Drop)]
pub struct Poor {
    pub has_memory: bool,
    pub has_predicates: bool,
}

impl Functions<Core> for Poor {
    ghost knows = { λ table. record { funs = is_function; preds = λ c. is_predicate c && table.has_predicates } };

    fn has_fun(&self, code: u32) -> bool {
        CoreFunctions.has_fun(code)
    }

    fn has_pred(&self, code: u32) -> bool {
        CoreFunctions.has_pred(code) && self.has_predicates
    }

    fn call(
        &self,
        alloc: Global,
        code: u32,
        state: &Value,
        args: &[Value],
    ) -> Result<Value, CallFault> {
        if !self.has_memory && CoreFunctions.has_fun(code) {
            return Err(CallFault::Memory);
        }
        CoreFunctions.call(alloc, code, state, args)
    }

    fn test(&self, code: u32, state: &Value, args: &[Value]) -> Option<bool> {
        if self.has_predicates {
            CoreFunctions.test(code, state, args)
        } else {
            None
        }
    }
}
