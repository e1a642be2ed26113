//! The arguments of a function.
ghost use Rattle.std.specs.Prelude.{◌≡◌, ◌≢◌, ◌≤◌, ◌∷◌, [], length, vec_len, IfOk, OnErr};
ghost use Rattle.ref_fun.specs.Limits.{most_arguments};

use crate::lists::SharedVec;
use ref_value::Value;
use std::alloc::{AllocError, Global};
use std::marker::Model;
use std::slice;

/// How many arguments a function may have.
pub const MOST_ARGUMENTS: usize = 8;

// One argument needs no block.
pub(crate) enum Held {
    One(Value),
    Listed(SharedVec<Value>),
}

// A function of its own, which each place that drops one calls; a derived one would be written out there.
impl Drop for Held {
    fn drop(self) {
        match self {
            Held::One(_value) => {}
            Held::Listed(_values) => {}
        }
    }
}

/// At most 8 arguments; they may have several owners. Contracts see a list.
#[derive(Drop)]
pub struct Args {
    values: Held,
}

impl Model for Args {
    ghost use Rattle.std.specs.Prelude.{List, length, ◌≤◌};
    ghost use Rattle.std.specs.Coded.{coded_list};
    ghost use Rattle.ref_value.specs.Edn.{Edn};
    ghost use Rattle.ref_value.specs.Code.{edn_code};
    ghost use Rattle.ref_fun.specs.Args.{held};
    ghost use Rattle.ref_fun.specs.Limits.{most_arguments};

    ghost Value = { List Edn };

    ghost coded = { coded_list edn_code };

    ghost view = { λ a. held a.values };

    ghost invariant = { λ a. length (held a.values) ≤ most_arguments };
}

impl Args {
    /// One argument. It takes no memory.
    pub fn one(value: Value) -> Args
        ensures { result ≡ value ∷ [] }
    {
        Args {
            values: Held::One(value),
        }
    }

    /// The arguments that a `Vec` holds, which isn't copied. For none and for one it takes no memory.
    pub fn of(alloc: Global, values: Vec<Value>) -> Result<Args, AllocError>
        requires { vec_len values ≤ most_arguments }
        ensures value { IfOk result (λ a. a ≡ values.items) }
        ensures memory { OnErr result (values.items ≢ []) }
    {
        let mut values = values;
        if values.len() == 1 {
            if let Some(value) = values.pop() {
                return Ok(Args::one(value));
            }
        }
        let values = SharedVec::of(alloc, values)?;
        Ok(Args {
            values: Held::Listed(values),
        })
    }

    /// The arguments in order, as a function takes them.
    pub fn as_slice(&self) -> &[Value]
        ensures value { result.now ≡ self.now }
        ensures few { length result.now ≤ most_arguments }
    {
        match &self.values {
            Held::One(value) => slice::from_ref(value),
            Held::Listed(values) => values.as_slice(),
        }
    }

    /// One more owner. It takes no memory; only the count of owners can refuse.
    pub fn share(&self) -> Result<Args, AllocError>
        ensures { IfOk result (λ a. a ≡ self.now) }
    {
        let values = match &self.values {
            Held::One(value) => Held::One(value.share()?),
            Held::Listed(values) => Held::Listed(values.share()?),
        };
        Ok(Args { values })
    }
}
