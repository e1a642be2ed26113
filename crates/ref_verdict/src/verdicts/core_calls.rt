//! Calls of functions and predicates of Core.
ghost use Rattle.std.specs.Prelude.{◌≡◌, true};
ghost use Rattle.ref_fun.specs.Calls.{HasCore};
ghost use Rattle.ref_fun.specs.Core.{core_accepts, core_means};
ghost use Rattle.ref_fun.specs.Meaning.{Answers};
ghost use Rattle.ref_fun.specs.Rule.{passes};
ghost use Rattle.ref_fun.specs.Names.{is_function};
ghost use Rattle.ref_verdict.specs.OfCore.{is_rule_of_core};

use ref_fun::{Action, CallFault, Core, FunFault, Functions, Rule, passes};
use ref_value::Value;
use std::alloc::Global;

/// Applies an action to a state.
#[tactic(auto, using(crate::proofs::OfCore::knows_function))]
pub(crate) fn apply<F: Functions<Core>>(
    alloc: Global,
    funs: &F,
    action: &Action,
    state: &Value,
) -> Result<Value, FunFault>
    requires core { HasCore (F.knows funs.now) }
    requires function { is_function action.now.code ≡ true }
    ensures { Answers (core_means action.now.code action.now.args state.now) result }
{
    match funs.call(alloc, action.code, state, action.args.as_slice()) {
        Ok(value) => Ok(value),
        Err(CallFault::Refused(cause)) => Err(FunFault::Refused(cause)),
        Err(CallFault::Memory) => Err(FunFault::Memory),
        Err(CallFault::NoSuchFun(_)) => unreachable!(),
    }
}

/// Whether a rule, or none, accepts a value.
#[tactic(auto, using(crate::proofs::OfCore::knows_rule))]
pub(crate) fn accepts<F: Functions<Core>>(funs: &F, rule: &Option<Rule>, value: &Value) -> bool
    requires core { HasCore (F.knows funs.now) }
    requires rule { is_rule_of_core rule.now ≡ true }
    ensures { result ≡ passes core_accepts rule.now value.now }
{
    passes(funs, rule, value)
}
