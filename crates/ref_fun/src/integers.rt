//! The functions of integers.
ghost use Rattle.std.specs.Prelude.{◌≡◌, ◌+ℤ◌, ◌-ℤ◌, neg_ℤ, ◌&&◌, map, fold};
ghost use Rattle.std.specs.Int.{int_max, int_min};
ghost use Rattle.std.specs.List.{list_all};
ghost use Rattle.ref_value.specs.Edn.{int};
ghost use Rattle.ref_fun.specs.Integers.{plus, minus, inc, dec, greatest, least, difference, int_of, fit, fold_ints};
ghost use Rattle.ref_fun.specs.Kinds.{is_int};

use crate::faults::Cause;
use crate::kinds::is_int;
use ref_value::{Node, Value};

/// State and arguments added up from left to right.
pub(crate) fn plus(state: &Value, args: &[Value]) -> Result<Value, Cause>
    ensures { result ≡ plus args.now state.now }
{
    if !are_ints(state, args) {
        return Err(Cause::WrongKind);
    }
    sum_of(int_of(state), args).map(value_of)
}

/// The state negated, or the arguments taken off it from left to right.
pub(crate) fn minus(state: &Value, args: &[Value]) -> Result<Value, Cause>
    ensures { result ≡ minus args.now state.now }
{
    if !are_ints(state, args) {
        return Err(Cause::WrongKind);
    }
    difference_of(int_of(state), args).map(value_of)
}

/// One more than the state.
pub(crate) fn inc(state: &Value, args: &[Value]) -> Result<Value, Cause>
    ensures { result ≡ inc args.now state.now }
{
    if !args.is_empty() {
        return Err(Cause::WrongArity);
    }
    plus(state, &[value_of(1)])
}

/// One less than the state.
pub(crate) fn dec(state: &Value, args: &[Value]) -> Result<Value, Cause>
    ensures { result ≡ dec args.now state.now }
{
    if !args.is_empty() {
        return Err(Cause::WrongArity);
    }
    minus(state, &[value_of(1)])
}

/// The greatest of state and arguments.
pub(crate) fn greatest(state: &Value, args: &[Value]) -> Result<Value, Cause>
    ensures { result ≡ greatest args.now state.now }
{
    if !are_ints(state, args) {
        return Err(Cause::WrongKind);
    }
    Ok(value_of(greatest_of(int_of(state), args)))
}

/// The least of state and arguments.
pub(crate) fn least(state: &Value, args: &[Value]) -> Result<Value, Cause>
    ensures { result ≡ least args.now state.now }
{
    if !are_ints(state, args) {
        return Err(Cause::WrongKind);
    }
    Ok(value_of(least_of(int_of(state), args)))
}

fn are_ints(state: &Value, args: &[Value]) -> bool
    ensures { result ≡ (is_int state.now && list_all is_int args.now) }
{
    is_int(state) && all_ints(args)
}

fn all_ints(args: &[Value]) -> bool
    ensures { result ≡ list_all is_int args.now }
{
    args.iter().all(|x| is_int(x))
}

// The integer that a value is, and 0 for a value of another kind.
fn int_of(value: &Value) -> i64
    ensures { result ≡ int_of value.now }
{
    match value.node() {
        Node::Int(n) => *n,
        _ => 0,
    }
}

fn value_of(n: i64) -> Value
    ensures { result ≡ int n }
{
    match Value::of(Node::Int(n)) {
        Ok(value) => value,
        Err(_) => unreachable!(),
    }
}

fn sum_of(start: i64, args: &[Value]) -> Result<i64, Cause>
    ensures { result ≡ fold_ints (λ a b. a +ℤ b) start (map int_of args.now) }
{
    let mut sum = start;
    for x in args {
        sum = sum.checked_add(int_of(x)).ok_or(Cause::Overflow)?;
    }
    Ok(sum)
}

fn difference_of(start: i64, args: &[Value]) -> Result<i64, Cause>
    ensures { result ≡ difference start (map int_of args.now) }
{
    if args.is_empty() {
        return negation_of(start);
    }
    rest_of(start, args)
}

fn negation_of(n: i64) -> Result<i64, Cause>
    ensures { result ≡ fit (neg_ℤ n) }
{
    n.checked_neg().ok_or(Cause::Overflow)
}

fn rest_of(start: i64, args: &[Value]) -> Result<i64, Cause>
    ensures { result ≡ fold_ints (λ a b. a -ℤ b) start (map int_of args.now) }
{
    let mut rest = start;
    for x in args {
        rest = rest.checked_sub(int_of(x)).ok_or(Cause::Overflow)?;
    }
    Ok(rest)
}

fn greatest_of(start: i64, args: &[Value]) -> i64
    ensures { result ≡ fold int_max start (map int_of args.now) }
{
    let mut greatest = start;
    for x in args {
        greatest = greatest.max(int_of(x));
    }
    greatest
}

fn least_of(start: i64, args: &[Value]) -> i64
    ensures { result ≡ fold int_min start (map int_of args.now) }
{
    let mut least = start;
    for x in args {
        least = least.min(int_of(x));
    }
    least
}
