//! The predicates. None of them takes memory.
ghost use Rattle.std.specs.Prelude.{◌≡◌};
ghost use Rattle.ref_fun.specs.Core.{core_accepts};
ghost use Rattle.ref_fun.specs.Predicates.{at_least, at_most, equals};

use crate::codes;
use crate::kinds::{is_int, is_map, is_not_nil, is_set, is_string, is_vector};
use ref_value::{Node, Value};

/// Whether the predicate of Core that has this code accepts the state. It takes constant time, but for the comparison of
/// two values.
#[tactic(auto, unfolding(crate::specs::Core::core_accepts))]
pub fn core_test(code: u32, state: &Value, args: &[Value]) -> bool
    ensures { result ≡ core_accepts code args.now state.now }
{
    match code {
        codes::AT_LEAST => at_least(state, args),
        codes::AT_MOST => at_most(state, args),
        codes::EQUALS => equals(state, args),
        codes::IS_INT => args.is_empty() && is_int(state),
        codes::IS_STRING => args.is_empty() && is_string(state),
        codes::IS_VECTOR => args.is_empty() && is_vector(state),
        codes::IS_MAP => args.is_empty() && is_map(state),
        codes::IS_SET => args.is_empty() && is_set(state),
        codes::IS_SOME => args.is_empty() && is_not_nil(state),
        _ => false,
    }
}

fn at_least(state: &Value, args: &[Value]) -> bool
    ensures { result ≡ at_least args.now state.now }
{
    match args {
        [bound] => match (bound.node(), state.node()) {
            (Node::Int(least), Node::Int(n)) => least <= n,
            _ => false,
        },
        _ => false,
    }
}

fn at_most(state: &Value, args: &[Value]) -> bool
    ensures { result ≡ at_most args.now state.now }
{
    match args {
        [bound] => match (bound.node(), state.node()) {
            (Node::Int(most), Node::Int(n)) => n <= most,
            _ => false,
        },
        _ => false,
    }
}

fn equals(state: &Value, args: &[Value]) -> bool
    ensures { result ≡ equals args.now state.now }
{
    match args {
        [value] => state == value,
        _ => false,
    }
}
