//! Functions and predicates of Core with their arguments.
ghost use Rattle.std.specs.Prelude.{◌≡◌, ◌∷◌, ◌≤◌, Bool, true, None, Some, IfOk, IfSome, OnOk};
ghost use Rattle.ref_value.specs.Edn.{Edn};
ghost use Rattle.ref_fun.specs.Names.{is_function, is_predicate};
ghost use Rattle.ref_forms.specs.Calls.{action_of, action_said, any, args_said, code_for, code_of, rule_of, rule_said, value_said};
ghost use Rattle.ref_forms.specs.Reading.{Reads};

use crate::plain::{elements_in, symbol_in};
use crate::wrong::Wrong;
use ref_fun::{Action, Args, MOST_ARGUMENTS, Rule, is_function, is_predicate};
use ref_value::vectors::Iter;
use ref_value::{Node, Value};
use std::alloc::Global;

/// Which values a document takes, as arguments and elsewhere.
pub trait Values {
    ghost is_value: { Edn → Bool };

    fn takes(form: &Value) -> bool
        ensures { result ≡ is_value form.now };
}

/// Each value is taken.
pub struct AnyValue;

impl Values for AnyValue {
    ghost is_value = { any };

    fn takes(_form: &Value) -> bool {
        true
    }
}

/// The code of the function of Core that has this name.
pub fn function_named(name: &[u8]) -> Option<u32>
    ensures { result ≡ code_for is_function name.now }
{
    let code = ref_fun::code_of(name)?;
    if is_function(code) { Some(code) } else { None }
}

/// The code of the predicate of Core that has this name.
pub fn predicate_named(name: &[u8]) -> Option<u32>
    ensures { result ≡ code_for is_predicate name.now }
{
    let code = ref_fun::code_of(name)?;
    if is_predicate(code) { Some(code) } else { None }
}

fn function_in(form: &Value) -> Option<u32>
    ensures { result ≡ code_of is_function form.now }
{
    function_named(symbol_in(form)?)
}

// A value, where the document takes it.
pub(crate) fn value_in<V: Values>(form: &Value) -> Result<Value, Wrong>
    ensures { Reads (value_said V.is_value form.now) result }
{
    if !V::takes(form) {
        return Err(Wrong::Form);
    }
    Ok(form.share()?)
}

/// At most 8 arguments. None and one take no memory.
pub fn args_in<V: Values>(alloc: Global, mut forms: Iter<'_>) -> Result<Args, Wrong>
    ensures { Reads (args_said V.is_value forms.entry) result }
{
    let Some(first) = forms.next() else {
        return Ok(Args::of(alloc, Vec::new(alloc))?);
    };
    let first = value_in::<V>(first)?;
    match forms.next() {
        Some(second) => several_args::<V>(alloc, first, second, forms),
        None => Ok(Args::one(first)),
    }
}

// Two arguments and those behind them, of which the first is known to be one.
#[tactic(auto, using(crate::specs::Laws::args_said_many, crate::specs::Laws::args_said_wrong, crate::specs::Laws::args_said_right))]
fn several_args<V: Values>(
    alloc: Global,
    first: Value,
    second: &Value,
    forms: Iter<'_>,
) -> Result<Args, Wrong>
    requires { V.is_value first ≡ true }
    ensures { Reads (args_said V.is_value (first ∷ second.now ∷ forms.entry)) result }
{
    let mut values = Vec::new(alloc);
    values.push(first)?;
    values.push(value_in::<V>(second)?)?;
    for form in forms {
        if values.len() >= MOST_ARGUMENTS {
            return Err(Wrong::Form);
        }
        values.push(value_in::<V>(form)?)?;
    }
    values.shrink_to_fit();
    Ok(Args::of(alloc, values)?)
}

/// A function and a vector of its arguments: `F [ARG ..]`.
pub fn action_in(alloc: Global, function: &Value, args: &Value) -> Result<Action, Wrong>
    ensures { Reads (action_of function.now args.now) result }
{
    let (Some(code), Some(forms)) = (function_in(function), elements_in(args)) else {
        return Err(Wrong::Form);
    };
    match args_in::<AnyValue>(alloc, forms.iter()) {
        Ok(args) => Ok(Action::new(code, args)),
        Err(wrong) => Err(wrong),
    }
}

/// `P ARG ..`.
pub fn rule_parts<V: Values>(alloc: Global, mut parts: Iter<'_>) -> Result<Rule, Wrong>
    ensures { Reads (rule_said V.is_value parts.entry) result }
{
    let Some(predicate) = parts.next() else {
        return Err(Wrong::Form);
    };
    let Some(name) = symbol_in(predicate) else {
        return Err(Wrong::Form);
    };
    let args = args_in::<V>(alloc, parts)?;
    match predicate_named(name) {
        Some(code) => Ok(Rule { code, args }),
        None => Err(Wrong::Function),
    }
}

/// A rule, or nil where there is none.
#[tactic(auto, using(crate::specs::Laws::rule_of_vector))]
pub fn rule_in<V: Values>(alloc: Global, form: &Value) -> Result<Option<Rule>, Wrong>
    ensures { Reads (rule_of V.is_value form.now) result }
{
    match form.node() {
        Node::Nil => Ok(None),
        Node::Vector(parts) => match rule_parts::<V>(alloc, parts.iter()) {
            Ok(rule) => Ok(Some(rule)),
            Err(wrong) => Err(wrong),
        },
        _ => Err(Wrong::Form),
    }
}
