//! What an action carries.
ghost use Rattle.std.specs.Prelude.{◌≡◌, ◌≢◌, ◌≤◌, [], length, vec_len, IfOk, OnErr};
ghost use Rattle.ref_fun.specs.Limits.{most_carries};

use crate::arguments::Args;
use crate::lists::{Shareable, SharedVec};
use std::alloc::{AllocError, Global};
use std::marker::Model;

/// How many sends an action may carry.
pub const MOST_CARRIES: usize = 8;

/// A send that an action carries: the function of a code with arguments, to the agent of the number `g`. It carries none itself.
#[derive(Drop)]
pub struct Carry {
    pub g: u32,
    pub code: u32,
    pub args: Args,
}

impl Shareable for Carry {
    fn share(&self) -> Result<Carry, AllocError> {
        Ok(Carry {
            g: self.g,
            code: self.code,
            args: self.args.share()?,
        })
    }
}

/// At most 8 sends that an action carries, in order; they may have several owners. Contracts see a list.
#[derive(Drop)]
pub struct Carries {
    sends: SharedVec<Carry>,
}

impl Model for Carries {
    ghost use Rattle.std.specs.Prelude.{List, length, ◌≤◌};
    ghost use Rattle.std.specs.Coded.{coded_list, codes};
    ghost use Rattle.ref_value.specs.Code.{edn_code};
    ghost use Rattle.ref_fun.specs.declared.carries.Carry.{Carry};
    ghost use Rattle.ref_fun.specs.Limits.{most_carries};

    ghost Value = { List Carry };

    ghost coded = { Prim.hlevel (codes, edn_code) };

    ghost view = { λ a. a.sends };

    ghost invariant = { λ a. length a.sends ≤ most_carries };
}

impl Carries {
    /// No sends. It takes no memory.
    pub fn none() -> Carries
        ensures { result ≡ [] }
    {
        Carries {
            sends: SharedVec::none(),
        }
    }

    /// The sends that a `Vec` holds, which isn't copied. Where there are none it takes no memory.
    pub fn of(alloc: Global, sends: Vec<Carry>) -> Result<Carries, AllocError>
        requires { vec_len sends ≤ most_carries }
        ensures value { IfOk result (λ a. a ≡ sends.items) }
        ensures memory { OnErr result (sends.items ≢ []) }
    {
        let sends = SharedVec::of(alloc, sends)?;
        Ok(Carries { sends })
    }

    /// The sends in order.
    pub fn as_slice(&self) -> &[Carry]
        ensures value { result.now ≡ self.now }
        ensures few { length result.now ≤ most_carries }
    {
        self.sends.as_slice()
    }

    /// One more owner. It takes no memory; only the count of owners can refuse.
    pub fn share(&self) -> Result<Carries, AllocError>
        ensures { IfOk result (λ a. a ≡ self.now) }
    {
        let sends = self.sends.share()?;
        Ok(Carries { sends })
    }
}
