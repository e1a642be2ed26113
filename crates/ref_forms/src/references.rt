//! What is done to a reference: forms that begin with one.
ghost use Rattle.std.specs.Prelude.{◌≡◌, ◌∷◌, List, Option, None, Some};
ghost use Rattle.ref_value.specs.Edn.{Edn};
ghost use Rattle.ref_log.specs.declared.notices.Who.{Who as Reference};
ghost use Rattle.ref_forms.specs.Calls.{action_said, mode_said, rule_of, rule_said, value_said};
ghost use Rattle.ref_forms.specs.Plain.{both, one_said, then_said, two_said};
ghost use Rattle.ref_forms.specs.Reading.{Reads};
ghost use Rattle.ref_forms.specs.References.{number_said, state_said};
ghost use Rattle.ref_forms.specs.declared.kinds.Kind.TheVariants as kinds;

use crate::calls::{Values, args_in, function_named, predicate_named, value_in};
use crate::kinds::{Kind, number_at};
use crate::marks::{is_marked, mode_in};
use crate::plain::symbol_in;
use crate::wrong::Wrong;
use ref_agents::ErrorMode;
use ref_fun::{Action, Rule};
use ref_log::Who;
use ref_value::vectors::Iter;
use ref_value::{Items, Node, Value};
use std::alloc::Global;

/// How a document names references.
pub trait Naming {
    /// The reference that a form names, if it names one.
    ghost named: { Self → Edn → Option Reference };

    fn who_in(&self, form: &Value) -> Result<Who, Wrong>
        ensures { Reads (named self.now form.now) result };
}

/// The number of the reference of a kind that a form names.
pub fn number_in<D: Naming>(document: &D, kind: Kind, form: &Value) -> Result<u32, Wrong>
    ensures { Reads (number_said (D.named document.now) kind form.now) result }
{
    match document.who_in(form) {
        Ok(who) => match number_at(kind, who) {
            Some(number) => Ok(number),
            None => Err(Wrong::Name),
        },
        Err(wrong) => Err(wrong),
    }
}

/// `NAME`, for a reference of this kind.
pub fn number_alone<D: Naming>(document: &D, kind: Kind, mut parts: Iter<'_>) -> Result<u32, Wrong>
    ensures { Reads (one_said (number_said (D.named document.now) kind) parts.entry) result }
{
    let (Some(subject), None) = (parts.next(), parts.next()) else {
        return Err(Wrong::Form);
    };
    number_in(document, kind, subject)
}

/// `NAME`, for any reference.
pub fn who_alone<D: Naming>(document: &D, mut parts: Iter<'_>) -> Result<Who, Wrong>
    ensures { Reads (one_said (D.named document.now) parts.entry) result }
{
    let (Some(subject), None) = (parts.next(), parts.next()) else {
        return Err(Wrong::Form);
    };
    document.who_in(subject)
}

/// `NAME VALUE`, for a reference of this kind.
pub fn value_on<D: Naming + Values>(
    document: &D,
    kind: Kind,
    mut parts: Iter<'_>,
) -> Result<(u32, Value), Wrong>
    ensures { Reads (two_said (number_said (D.named document.now) kind) (value_said D.is_value) parts.entry) result }
{
    let (Some(subject), Some(value), None) = (parts.next(), parts.next(), parts.next()) else {
        return Err(Wrong::Form);
    };
    let value = value_in::<D>(value)?;
    let number = number_in(document, kind, subject)?;
    Ok((number, value))
}

/// `NAME VALUE`, for any reference.
pub fn who_and_value<D: Naming + Values>(
    document: &D,
    mut parts: Iter<'_>,
) -> Result<(Who, Value), Wrong>
    ensures { Reads (two_said (D.named document.now) (value_said D.is_value) parts.entry) result }
{
    let (Some(subject), Some(value), None) = (parts.next(), parts.next(), parts.next()) else {
        return Err(Wrong::Form);
    };
    let value = value_in::<D>(value)?;
    let who = document.who_in(subject)?;
    Ok((who, value))
}

// `OLD NEW`.
fn two_values<V: Values>(mut parts: Iter<'_>) -> Result<(Value, Value), Wrong>
    ensures { Reads (two_said (value_said V.is_value) (value_said V.is_value) parts.entry) result }
{
    let (Some(old), Some(new), None) = (parts.next(), parts.next(), parts.next()) else {
        return Err(Wrong::Form);
    };
    let old = value_in::<V>(old)?;
    let new = value_in::<V>(new)?;
    Ok((old, new))
}

/// `NAME OLD NEW`, for an atom.
pub fn two_values_on<D: Naming + Values>(
    document: &D,
    mut parts: Iter<'_>,
) -> Result<(u32, (Value, Value)), Wrong>
    ensures { Reads (then_said (number_said (D.named document.now) kinds.Atom)
        (two_said (value_said D.is_value) (value_said D.is_value)) parts.entry) result }
{
    let Some(subject) = parts.next() else {
        return Err(Wrong::Form);
    };
    let values = two_values::<D>(parts)?;
    let number = number_in(document, Kind::Atom, subject)?;
    Ok((number, values))
}

/// `F ARG ..`, for the reference of this kind that a form names.
pub fn call_for<D: Naming + Values>(
    alloc: Global,
    document: &D,
    kind: Kind,
    subject: &Value,
    mut parts: Iter<'_>,
) -> Result<(u32, Action), Wrong>
    ensures { Reads (then_said (number_said (D.named document.now) kind) (action_said D.is_value)
        (subject.now ∷ parts.entry)) result }
{
    let Some(function) = parts.next() else {
        return Err(Wrong::Form);
    };
    let Some(name) = symbol_in(function) else {
        return Err(Wrong::Form);
    };
    let args = args_in::<D>(alloc, parts)?;
    let number = number_in(document, kind, subject)?;
    match function_named(name) {
        Some(code) => Ok((number, Action::new(code, args))),
        None => Err(Wrong::Function),
    }
}

/// `NAME F ARG ..`, for a reference of this kind.
pub fn call_on<D: Naming + Values>(
    alloc: Global,
    document: &D,
    kind: Kind,
    mut parts: Iter<'_>,
) -> Result<(u32, Action), Wrong>
    ensures { Reads (then_said (number_said (D.named document.now) kind) (action_said D.is_value) parts.entry) result }
{
    match parts.next() {
        Some(subject) => call_for(alloc, document, kind, subject, parts),
        None => Err(Wrong::Form),
    }
}

/// `NAME P ARG ..`, for a ref.
pub fn requirement_on<D: Naming + Values>(
    alloc: Global,
    document: &D,
    mut parts: Iter<'_>,
) -> Result<(u32, Rule), Wrong>
    ensures { Reads (then_said (number_said (D.named document.now) kinds.Ref) (rule_said D.is_value) parts.entry)
        result }
{
    let (Some(subject), Some(predicate)) = (parts.next(), parts.next()) else {
        return Err(Wrong::Form);
    };
    let Some(name) = symbol_in(predicate) else {
        return Err(Wrong::Form);
    };
    let args = args_in::<D>(alloc, parts)?;
    let number = number_in(document, Kind::Ref, subject)?;
    match predicate_named(name) {
        Some(code) => Ok((number, Rule { code, args })),
        None => Err(Wrong::Function),
    }
}

// A state, and `:clear` where what waits is dropped.
fn state_in<V: Values>(mut parts: Iter<'_>) -> Result<(Value, bool), Wrong>
    ensures { Reads (state_said V.is_value parts.entry) result }
{
    let Some(state) = parts.next() else {
        return Err(Wrong::Form);
    };
    let Some(clear) = is_marked(b"clear", parts) else {
        return Err(Wrong::Form);
    };
    match value_in::<V>(state) {
        Ok(state) => Ok((state, clear)),
        Err(wrong) => Err(wrong),
    }
}

/// `NAME V` or `NAME V :clear`, for an agent.
pub fn state_on<D: Naming + Values>(
    document: &D,
    mut parts: Iter<'_>,
) -> Result<(u32, (Value, bool)), Wrong>
    ensures { Reads (then_said (number_said (D.named document.now) kinds.Agent) (state_said D.is_value) parts.entry)
        result }
{
    let Some(subject) = parts.next() else {
        return Err(Wrong::Form);
    };
    let state = state_in::<D>(parts)?;
    let number = number_in(document, Kind::Agent, subject)?;
    Ok((number, state))
}

/// `NAME :fail` or `NAME :continue`, for an agent.
pub fn mode_on<D: Naming>(document: &D, mut parts: Iter<'_>) -> Result<(u32, ErrorMode), Wrong>
    ensures { Reads (two_said (number_said (D.named document.now) kinds.Agent) mode_said parts.entry) result }
{
    let (Some(subject), Some(mode), None) = (parts.next(), parts.next(), parts.next()) else {
        return Err(Wrong::Form);
    };
    let Some(mode) = mode_in(mode) else {
        return Err(Wrong::Form);
    };
    match number_in(document, Kind::Agent, subject) {
        Ok(number) => Ok((number, mode)),
        Err(wrong) => Err(wrong),
    }
}

// A reference, and a rule of these parts.
fn who_and_rule<D: Naming + Values>(
    alloc: Global,
    document: &D,
    subject: &Value,
    rule: &Items,
) -> Result<(Who, Rule), Wrong>
    ensures { Reads (both (λ who rule. (who, rule)) (D.named document.now subject.now)
        (rule_said D.is_value rule.now)) result }
{
    let mut parts = rule.iter();
    let Some(predicate) = parts.next() else {
        return Err(Wrong::Form);
    };
    let Some(name) = symbol_in(predicate) else {
        return Err(Wrong::Form);
    };
    let args = args_in::<D>(alloc, parts)?;
    let who = document.who_in(subject)?;
    match predicate_named(name) {
        Some(code) => Ok((who, Rule { code, args })),
        None => Err(Wrong::Function),
    }
}

/// `NAME RULE` or `NAME nil`, for any reference.
#[tactic(auto, using(crate::specs::Laws::rule_of_vector))]
pub fn setting_on<D: Naming + Values>(
    alloc: Global,
    document: &D,
    mut parts: Iter<'_>,
) -> Result<(Who, Option<Rule>), Wrong>
    ensures { Reads (two_said (D.named document.now) (rule_of D.is_value) parts.entry) result }
{
    let (Some(subject), Some(form), None) = (parts.next(), parts.next(), parts.next()) else {
        return Err(Wrong::Form);
    };
    match form.node() {
        Node::Nil => match document.who_in(subject) {
            Ok(who) => Ok((who, None)),
            Err(wrong) => Err(wrong),
        },
        Node::Vector(rule) => match who_and_rule(alloc, document, subject, rule) {
            Ok((who, rule)) => Ok((who, Some(rule))),
            Err(wrong) => Err(wrong),
        },
        _ => Err(Wrong::Form),
    }
}
