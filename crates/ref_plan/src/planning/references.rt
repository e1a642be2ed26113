//! The form of a reference, and what it declares in addition to those before it.
ghost use Rattle.std.specs.Prelude.{◌≡◌, ◌≢◌, ◌∷◌, ◌&&◌, ℕ, [], List, None, Some, IfErr, IfOk, false, option_copied, true};
ghost use Rattle.ref_fun.specs.Core.{core_accepts};
ghost use Rattle.ref_fun.specs.Rule.{passes};
ghost use Rattle.ref_log.specs.Tally.{is_count};
ghost use Rattle.ref_agents.specs.declared.starts.AgentStart.{AgentStart as AnyAgent};
ghost use Rattle.ref_agents.specs.declared.starts.AtomStart.{AtomStart as AnyAtom};
ghost use Rattle.ref_agents.specs.declared.starts.RefStart.{RefStart as AnyRef};
ghost use Rattle.ref_forms.specs.Reading.{Reads};
ghost use Rattle.ref_plan.specs.Declarations.{agent_of, atom_of, declaration, declaration_of, mode_marked, parts_declare, ref_of, rule_in, tail_said, tally_said};
ghost use Rattle.ref_plan.specs.Tables.{Adds, found};
ghost use Rattle.ref_plan.specs.declared.planning.references.Refused.TheVariants.{Memory};

use crate::planning::names::{Declared, NameTable};
use ref_agents::{AgentStart, AtomStart, ErrorMode, RefStart};
use ref_forms::Wrong;
use ref_forms::calls::{Values, rule_parts};
use ref_forms::marks::mode_named;
use ref_forms::plain::{elements_in, is_same, keyword_in, symbol_in};
use ref_fun::{Rule, core_test};
use ref_log::Who;
use ref_value::vectors::Iter;
use ref_value::{Node, Text, Value};
use std::alloc::{AllocError, AllocFailed, Global};

/// Why a form declares no reference that can follow those before it.
#[derive(Clone, Copy, Debug, Drop, PartialEq, Eq)]
pub enum Refused {
    Form,
    Taken,
    Tally,
    Start,
    Memory,
}

impl From<AllocError> for Refused {
    ghost from_gives = { λ _ r. r ≡ Memory };

    fn from(_e: AllocError) -> Refused {
        Refused::Memory
    }
}

impl<T: Drop> From<AllocFailed<T>> for Refused {
    ghost from_gives = { λ _ r. r ≡ Memory };

    fn from(_e: AllocFailed<T>) -> Refused {
        Refused::Memory
    }
}

// In a reference an unknown predicate is a wrong form.
fn refused_by(wrong: Wrong) -> Refused
    ensures { result ≢ Refused.Memory → wrong ≢ Wrong.Memory }
{
    match wrong {
        Wrong::Memory => Refused::Memory,
        _ => Refused::Form,
    }
}

// `[P ARG ..]`.
fn rule_in(alloc: Global, form: &Value) -> Result<Rule, Wrong>
    ensures { Reads (rule_in form.now) result }
{
    match elements_in(form) {
        Some(parts) => rule_parts::<Declared>(alloc, parts.iter()),
        None => Err(Wrong::Form),
    }
}

// A rule and a mark, either of which may be left out.
fn tail_in(alloc: Global, mut parts: Iter<'_>) -> Result<(Option<Rule>, Option<&[u8]>), Wrong>
    ensures ok { IfOk result (λ t. tail_said parts.entry ≡ Some (t.0, option_copied t.1)) }
    ensures wrong { IfErr result (λ w. w ≢ Wrong.Memory → tail_said parts.entry ≡ None) }
{
    match (parts.next(), parts.next(), parts.next()) {
        (None, _, _) => Ok((None, None)),
        (Some(x), None, _) => match keyword_in(x) {
            Some(mark) => Ok((None, Some(mark))),
            None => Ok((Some(rule_in(alloc, x)?), None)),
        },
        (Some(rule), Some(mark), None) => match keyword_in(mark) {
            Some(mark) => Ok((Some(rule_in(alloc, rule)?), Some(mark))),
            None => Err(Wrong::Form),
        },
        _ => Err(Wrong::Form),
    }
}

// `[NAME VALUE RULE MARK]`.
#[derive(Drop)]
struct Reference<'a> {
    name: Text,
    value: Value,
    rule: Option<Rule>,
    mark: Option<&'a [u8]>,
}

fn parts_in(alloc: Global, mut parts: Iter<'_>) -> Result<Reference<'_>, Wrong>
    ensures ok { IfOk result (λ r. parts_declare parts.entry
        ≡ Some (declaration r.name r.value r.rule (option_copied r.mark))) }
    ensures wrong { IfErr result (λ w. w ≢ Wrong.Memory → parts_declare parts.entry ≡ None) }
{
    let (Some(name), Some(value)) = (parts.next(), parts.next()) else {
        return Err(Wrong::Form);
    };
    let Some(name) = symbol_in(name) else {
        return Err(Wrong::Form);
    };
    if !Declared::takes(value) {
        return Err(Wrong::Form);
    }
    let (rule, mark) = tail_in(alloc, parts)?;
    Ok(Reference {
        name: Text::of_bytes(alloc, name)?,
        value: value.share()?,
        rule,
        mark,
    })
}

fn reference_in(alloc: Global, form: &Value) -> Result<Reference<'_>, Wrong>
    ensures ok { IfOk result (λ r. declaration_of form.now
        ≡ Some (declaration r.name r.value r.rule (option_copied r.mark))) }
    ensures wrong { IfErr result (λ w. w ≢ Wrong.Memory → declaration_of form.now ≡ None) }
{
    match elements_in(form) {
        Some(parts) => parts_in(alloc, parts.iter()),
        None => Err(Wrong::Form),
    }
}

// Whether a rule, or none, accepts a value.
fn accepts(rule: &Option<Rule>, value: &Value) -> bool
    ensures { result ≡ passes core_accepts rule.now value.now }
{
    match rule {
        None => true,
        Some(rule) => core_test(rule.code, value, rule.args.as_slice()),
    }
}

// Whether a value is an integer of 0 or more.
fn is_count(value: &Value) -> bool
    ensures { result ≡ is_count (value.now ∷ []) }
{
    match value.node() {
        Node::Int(n) => *n >= 0,
        _ => false,
    }
}

// Whether the mark of a ref says that it is the tally.
fn tally_in(mark: Option<&[u8]>) -> Option<bool>
    ensures { result ≡ tally_said (option_copied mark.entry) }
{
    match mark {
        None => Some(false),
        Some(word) if is_same(word, b"tally") => Some(true),
        Some(_) => None,
    }
}

/// The ref that a form declares, whose name goes into the table. What it begins with may be judged, where there is a tally already or not.
pub fn ref_in(
    alloc: Global,
    form: &Value,
    who: Who,
    table: &mut NameTable,
    has_tally: bool,
    judged: bool,
) -> Result<(Text, RefStart), Refused>
    ensures ok { IfOk result (λ r. ref_of judged form.now ≡ Some (r.0, r.1)) }
    ensures one_tally { IfOk result (λ r. has_tally ≡ true → (judged && r.1.tally) ≡ false) }
    ensures adds { IfOk result (λ r. Adds table.old r.0 who table.new) }
    ensures refused { IfErr result (λ e. e ≢ Refused.Memory → (name : List ℕ) (start : AnyRef)
        → ref_of judged form.now ≡ Some (name, start) → found table.old name ≡ None
        → (has_tally ≡ true → (judged && start.tally) ≡ false) → ⊥) }
{
    let reference = match reference_in(alloc, form) {
        Ok(reference) => reference,
        Err(wrong) => return Err(refused_by(wrong)),
    };
    let Some(tally) = tally_in(reference.mark) else {
        return Err(Refused::Form);
    };
    if !table.add(&reference.name, who)? {
        return Err(Refused::Taken);
    }
    if judged && tally && (has_tally || !is_count(&reference.value)) {
        return Err(Refused::Tally);
    }
    if judged && !accepts(&reference.rule, &reference.value) {
        return Err(Refused::Start);
    }
    Ok((
        reference.name,
        RefStart {
            value: reference.value,
            rule: reference.rule,
            tally,
        },
    ))
}

/// The atom that a form declares, whose name goes into the table. What it begins with may be judged.
pub fn atom_in(
    alloc: Global,
    form: &Value,
    who: Who,
    table: &mut NameTable,
    judged: bool,
) -> Result<(Text, AtomStart), Refused>
    ensures ok { IfOk result (λ r. atom_of judged form.now ≡ Some (r.0, r.1)) }
    ensures adds { IfOk result (λ r. Adds table.old r.0 who table.new) }
    ensures refused { IfErr result (λ e. e ≢ Refused.Memory → (name : List ℕ) (start : AnyAtom)
        → atom_of judged form.now ≡ Some (name, start) → found table.old name ≡ None → ⊥) }
{
    let reference = match reference_in(alloc, form) {
        Ok(reference) => reference,
        Err(wrong) => return Err(refused_by(wrong)),
    };
    if reference.mark.is_some() {
        return Err(Refused::Form);
    }
    if !table.add(&reference.name, who)? {
        return Err(Refused::Taken);
    }
    if judged && !accepts(&reference.rule, &reference.value) {
        return Err(Refused::Start);
    }
    Ok((
        reference.name,
        AtomStart {
            value: reference.value,
            rule: reference.rule,
        },
    ))
}

// The error mode that the mark of an agent says.
fn mode_marked(mark: Option<&[u8]>) -> Option<ErrorMode>
    ensures { result ≡ mode_marked (option_copied mark.entry) }
{
    match mark {
        None => Some(ErrorMode::Fail),
        Some(word) => mode_named(word),
    }
}

/// The agent that a form declares, whose name goes into the table. What it begins with may be judged.
pub fn agent_in(
    alloc: Global,
    form: &Value,
    who: Who,
    table: &mut NameTable,
    judged: bool,
) -> Result<(Text, AgentStart), Refused>
    ensures ok { IfOk result (λ r. agent_of judged form.now ≡ Some (r.0, r.1)) }
    ensures adds { IfOk result (λ r. Adds table.old r.0 who table.new) }
    ensures refused { IfErr result (λ e. e ≢ Refused.Memory → (name : List ℕ) (start : AnyAgent)
        → agent_of judged form.now ≡ Some (name, start) → found table.old name ≡ None → ⊥) }
{
    let reference = match reference_in(alloc, form) {
        Ok(reference) => reference,
        Err(wrong) => return Err(refused_by(wrong)),
    };
    let Some(mode) = mode_marked(reference.mark) else {
        return Err(Refused::Form);
    };
    if !table.add(&reference.name, who)? {
        return Err(Refused::Taken);
    }
    if judged && !accepts(&reference.rule, &reference.value) {
        return Err(Refused::Start);
    }
    Ok((
        reference.name,
        AgentStart {
            value: reference.value,
            rule: reference.rule,
            mode,
        },
    ))
}
