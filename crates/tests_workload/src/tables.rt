//! A table of Core's functions and predicates that may lack one, and in which one may be refused memory.
ghost use Rattle.ref_fun.specs.Names.{is_function, is_predicate};
ghost use Rattle.std.specs.Prelude.{◌&&◌, ◌==◌, not};

use ref_edn::Value;
use ref_fun::{CallFault, Core, CoreFunctions, Functions};
use std::alloc::Global;

/// All functions and predicates of Core but that of one code. Each call of the function of another code is out of memory. Core has nothing
/// under the code 0.
#[derive(Clone, Copy, Drop)]
pub struct CoreWithout {
    pub code: u32,
    pub starved: u32,
}

impl Functions<Core> for CoreWithout {
    ghost knows = { λ table. record {
      funs = λ c. is_function c && not (c == table.code);
      preds = λ c. is_predicate c && not (c == table.code);
    } };

    fn has_fun(&self, code: u32) -> bool {
        CoreFunctions.has_fun(code) && code != self.code
    }

    fn has_pred(&self, code: u32) -> bool {
        CoreFunctions.has_pred(code) && code != self.code
    }

    fn call(
        &self,
        alloc: Global,
        code: u32,
        state: &Value,
        args: &[Value],
    ) -> Result<Value, CallFault> {
        if code == self.code {
            return Err(CallFault::NoSuchFun(code));
        }
        if code == self.starved && CoreFunctions.has_fun(code) {
            return Err(CallFault::Memory);
        }
        CoreFunctions.call(alloc, code, state, args)
    }

    fn test(&self, code: u32, state: &Value, args: &[Value]) -> Option<bool> {
        if code == self.code {
            return None;
        }
        CoreFunctions.test(code, state, args)
    }
}
