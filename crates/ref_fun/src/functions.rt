//! The functions of Core.
ghost use Rattle.std.specs.Prelude.{◌≡◌, ◌≤◌, true, IfErr, length};
ghost use Rattle.ref_fun.specs.Core.{core_means, takes_memory};
ghost use Rattle.ref_fun.specs.Meaning.{Answers};
ghost use Rattle.ref_fun.specs.declared.faults.FunFault.TheVariants.{Memory};
ghost use Rattle.ref_fun.specs.Limits.{most_arguments};

use crate::codes;
use crate::collections::{assoc, conj, disj, dissoc};
use crate::faults::{Cause, FunFault};
use crate::integers::{dec, greatest, inc, least, minus, plus};
use ref_value::Value;
use std::alloc::Global;

/// Calls the function of Core that has this code. A function of a collection of n members takes log n steps for each argument, in
/// time and in memory, and what it answers shares the rest with the state. The others take constant time for each argument.
#[tactic(auto, unfolding(crate::specs::Core::core_means))]
pub fn core_fun(alloc: Global, code: u32, state: &Value, args: &[Value]) -> Result<Value, FunFault>
    requires { length args.now ≤ most_arguments }
    ensures answers { Answers (core_means code args.now state.now) result }
    // A function of integers takes no memory, and no function does that is called on a wrong number or kind of things.
    ensures memory { IfErr result (λ f. f ≡ Memory → takes_memory code (core_means code args.now state.now) ≡ true) }
{
    match code {
        codes::PLUS => Ok(plus(state, args)?),
        codes::MINUS => Ok(minus(state, args)?),
        codes::INC => Ok(inc(state, args)?),
        codes::DEC => Ok(dec(state, args)?),
        codes::MAX => Ok(greatest(state, args)?),
        codes::MIN => Ok(least(state, args)?),
        codes::CONJ => conj(alloc, state, args),
        codes::ASSOC => assoc(alloc, state, args),
        codes::DISSOC => dissoc(alloc, state, args),
        codes::DISJ => disj(alloc, state, args),
        _ => Err(FunFault::Refused(Cause::WrongArity)),
    }
}
