//! Tables that lack some functions of Core.
ghost use Rattle.std.specs.Prelude.{◌&&◌, nat_le};
ghost use Rattle.ref_fun.specs.Names.{is_function, is_predicate};

use ref_fun::{CallFault, Core, CoreFunctions, Functions};
use ref_value::Value;
use std::alloc::Global;

/// The functions of Core up to one code, and the predicates up to another.
#[derive(Clone, Copy, Drop)]
pub struct Table {
    last_fun: u32,
    last_pred: u32,
}

/// All of Core.
pub const FULL: Table = Table {
    last_fun: 10,
    last_pred: 109,
};

/// `+` and `>=` alone.
pub const FEWER: Table = Table {
    last_fun: 1,
    last_pred: 101,
};

impl Functions<Core> for Table {
    ghost knows = { λ table. record {
      funs = λ c. is_function c && nat_le c table.last_fun;
      preds = λ c. is_predicate c && nat_le c table.last_pred;
    } };

    fn has_fun(&self, code: u32) -> bool {
        CoreFunctions.has_fun(code) && code <= self.last_fun
    }

    fn has_pred(&self, code: u32) -> bool {
        CoreFunctions.has_pred(code) && code <= self.last_pred
    }

    fn call(
        &self,
        alloc: Global,
        code: u32,
        state: &Value,
        args: &[Value],
    ) -> Result<Value, CallFault> {
        if code > self.last_fun {
            return Err(CallFault::NoSuchFun(code));
        }
        CoreFunctions.call(alloc, code, state, args)
    }

    fn test(&self, code: u32, state: &Value, args: &[Value]) -> Option<bool> {
        if code > self.last_pred {
            return None;
        }
        CoreFunctions.test(code, state, args)
    }
}
