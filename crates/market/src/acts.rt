//! Functions of this program's own: what they mean, and the table that runs them.
ghost use Rattle.std.specs.Prelude.{◌≡◌, ◌≤◌, length, pos};
ghost use Rattle.market.specs.Acts.{act_accepts, act_adds, act_means, act_of, act_takes, all_acts, closed, done, is_group, is_left};
ghost use Rattle.ref_value.specs.Edn.{int};
ghost use Rattle.ref_fun.specs.Meaning.{Answers};
ghost use Rattle.ref_fun.specs.Limits.{most_arguments};

use ref_fun::{CallFault, Cause, FunFault, Functions, Meaning, core_fun};
use ref_value::{Node, Value};
use std::alloc::Global;

pub(crate) const ADD: u32 = 1;

pub(crate) const TAKE: u32 = 2;

pub(crate) const SELL: u32 = 3;

pub(crate) const CLOSE: u32 = 4;

pub(crate) const IS_LEFT: u32 = 1;

/// A function of the box office, which changes the number of tickets that are left.
#[derive(Clone, Copy, Debug, Drop, PartialEq, Eq)]
pub(crate) enum Act {
    Add,
    Take,
    Sell,
    Close,
}

/// What the codes of the box office mean: the table at the head of `specs/Acts.antt`.
pub(crate) struct BoxOffice;

impl Meaning for BoxOffice {
    ghost means = { act_means };

    ghost accepts = { act_accepts };

    ghost adds = { act_adds };

    ghost takes = { act_takes };
}

impl Act {
    // The function of a code.
    fn of(code: u32) -> Option<Act>
        ensures { result ≡ act_of code }
    {
        match code {
            ADD => Some(Act::Add),
            TAKE => Some(Act::Take),
            SELL => Some(Act::Sell),
            CLOSE => Some(Act::Close),
            _ => None,
        }
    }

    fn run(self, alloc: Global, state: &Value, args: &[Value]) -> Result<Value, FunFault>
        requires { length args.now ≤ most_arguments }
        ensures { Answers (done self args.now state.now) result }
    {
        match self {
            Act::Add => core_fun(alloc, 1, state, args),
            Act::Take => core_fun(alloc, 2, state, args),
            Act::Sell => {
                if !is_group(args) {
                    return Err(FunFault::Refused(Cause::WrongKind));
                }
                core_fun(alloc, 2, state, args)
            }
            Act::Close => Ok(close(state, args)?),
        }
    }
}

// Whether these are the arguments of a sale: a group of one to four.
fn is_group(args: &[Value]) -> bool
    ensures { result ≡ is_group args.now }
{
    match args {
        [group] => match group.node() {
            Node::Int(n) => 1 <= *n && *n <= 4,
            _ => false,
        },
        _ => false,
    }
}

// No ticket is left.
fn close(state: &Value, args: &[Value]) -> Result<Value, Cause>
    ensures { result ≡ closed args.now state.now }
{
    match (args, state.node()) {
        ([], Node::Int(_)) => Ok(none_left()),
        _ => Err(Cause::WrongKind),
    }
}

fn none_left() -> Value
    ensures { result ≡ int (pos 0) }
{
    match Value::of(Node::Int(0)) {
        Ok(value) => value,
        Err(_) => unreachable!(),
    }
}

fn is_left(state: &Value, args: &[Value]) -> bool
    ensures { result ≡ is_left args.now state.now }
{
    match (args, state.node()) {
        ([], Node::Int(n)) => 0 <= *n,
        _ => false,
    }
}

/// The table of these functions. It stores no closure: a code is all that it takes to find a function.
#[derive(Clone, Copy, Drop)]
pub(crate) struct Acts;

impl Functions<BoxOffice> for Acts {
    ghost knows = { λ _. all_acts };

    fn has_fun(&self, code: u32) -> bool {
        Act::of(code).is_some()
    }

    fn has_pred(&self, code: u32) -> bool {
        code == IS_LEFT
    }

    fn call(
        &self,
        alloc: Global,
        code: u32,
        state: &Value,
        args: &[Value],
    ) -> Result<Value, CallFault> {
        let Some(act) = Act::of(code) else {
            return Err(CallFault::NoSuchFun(code));
        };
        Ok(act.run(alloc, state, args)?)
    }

    fn test(&self, code: u32, state: &Value, args: &[Value]) -> Option<bool> {
        if code != IS_LEFT {
            return None;
        }
        Some(is_left(state, args))
    }
}
