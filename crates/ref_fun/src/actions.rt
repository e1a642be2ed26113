//! What is sent to an agent.
ghost use Rattle.std.specs.Prelude.{◌≡◌, ◌↔◌, [], IfOk, IsTrue, find, map, nat_lt, not};
ghost use Rattle.ref_fun.specs.Actions.{absent_agent, missing_fun};

use crate::arguments::Args;
use crate::carries::{Carries, Carry};
use crate::meanings::Meaning;
use crate::same::Same;
use crate::tables::Functions;
use std::alloc::AllocError;

/// A function by its code, with the arguments that come after the state, as in Clojure's `send`, and the sends that it carries:
/// they go out where its value became the agent's state. In contracts actions are equal where their codes are, their arguments
/// are equal values, and their sends are equal in order.
#[derive(Drop)]
pub struct Action {
    pub code: u32,
    pub args: Args,
    pub carries: Carries,
}

impl Action {
    /// An action that carries nothing. It takes no memory.
    pub fn new(code: u32, args: Args) -> Action
        ensures { result ≡ record { code = code; args = args; carries = [] } }
    {
        Action {
            code,
            args,
            carries: Carries::none(),
        }
    }

    /// One more owner of the arguments and of what it carries. It takes no memory; only the count of owners can refuse.
    pub fn share(&self) -> Result<Action, AllocError>
        ensures { IfOk result (λ a. a ≡ self.now) }
    {
        Ok(Action {
            code: self.code,
            args: self.args.share()?,
            carries: self.carries.share()?,
        })
    }

    /// Whether this is the same function with equal arguments, and carries the same sends. Linear in the sizes of all arguments, also
    /// of those of the sends.
    pub fn is_same(&self, other: &Action) -> bool
        ensures { IsTrue result ↔ (self.now ≡ other.now) }
    {
        Same::is_same(self, other)
    }
}

/// The first code of an action for which a table has no function, if there is one: its own comes first, and then those of what
/// it carries, in order. It asks the table once for each of them, and takes no memory.
pub fn missing_fun<M: Meaning, F: Functions<M>>(funs: &F, action: &Action) -> Option<u32>
    ensures { result ≡ missing_fun (F.knows funs.now).funs action.now }
{
    if !funs.has_fun(action.code) {
        return Some(action.code);
    }
    missing_carried(funs, action.carries.as_slice())
}

/// The first agent that isn't one of so many, of an action that is sent to the agent `g`, if there is one: `g` comes first, and then
/// those of what it carries, in order. Linear in the number of sends that it carries, at most 8. It takes no memory.
pub fn absent_agent(agents: usize, g: u32, action: &Action) -> Option<u32>
    ensures { result ≡ absent_agent agents g action.now }
{
    if g as usize >= agents {
        return Some(g);
    }
    absent_carried(agents, action.carries.as_slice())
}

fn missing_carried<M: Meaning, F: Functions<M>>(funs: &F, carries: &[Carry]) -> Option<u32>
    ensures { result ≡ find (λ code. not ((F.knows funs.now).funs code)) (map (λ c. c.code) carries.now) }
{
    for carry in carries {
        if !funs.has_fun(carry.code) {
            return Some(carry.code);
        }
    }
    None
}

fn absent_carried(agents: usize, carries: &[Carry]) -> Option<u32>
    ensures { result ≡ find (λ g. not (nat_lt g agents)) (map (λ c. c.g) carries.now) }
{
    for carry in carries {
        if carry.g as usize >= agents {
            return Some(carry.g);
        }
    }
    None
}
