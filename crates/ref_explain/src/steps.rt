//! What is wrong with a step of a workload, or with an event.
use crate::calls::{carried_call, carries_of};
use crate::documents::{Named, find_name, member_at, name_of, names_of, part_of, step_of};
use crate::forms::Form;
use crate::functions::{function_of, predicate_of, write_no_function, write_no_predicate};
use crate::nearest::{Nearest, with_hint};
use crate::sentences::{Said, said_in, write_bad_form};
use crate::writing::Writing;
use ref_calls::{Sentence, Slot};
use ref_forms::Kind;
use ref_fun::MOST_NESTED_RESULT;
use ref_plan::planning::operations::MOST_OPERATIONS;
use std::alloc::AllocError;

// How deep an event may be nested: one deeper than a value in it.
const MOST_NESTED_EVENT: usize = MOST_NESTED_RESULT as usize + 1;

/// What of a step is wrong.
#[derive(Clone, Copy, Debug, PartialEq, Eq)]
pub(crate) enum Part {
    Form,
    Name,
    Function,
}

// ---- names

fn write_unknown_name(
    writing: &mut Writing<'_>,
    names: &[Named<'_>],
    form: &Form<'_>,
) -> Result<(), AllocError> {
    if form.has_discard() {
        return writing.mark(
            form,
            "no reference has this name; a # belongs to it, leave a blank before a discard",
        );
    }
    let mut nearest = Nearest::to(form.bytes());
    for named in names {
        nearest.offer_bytes(writing.alloc, named.name)?;
    }
    let message = with_hint(
        writing.alloc,
        "no reference has this name",
        "",
        nearest.found(),
    )?;
    writing.mark(form, message.as_str())
}

fn write_other_kind(
    writing: &mut Writing<'_>,
    form: &Form<'_>,
    kind: Kind,
    wanted: Kind,
) -> Result<(), AllocError> {
    let (is, needed) = (name_of(kind), name_of(wanted));
    let message = format!(in writing.alloc; "this is {is}, and {needed} is needed")?;
    writing.mark(form, message.as_str())
}

// The kind in `[:ref 0]`.
fn kind_in(form: &Form<'_>) -> Option<Kind> {
    let kind = member_at(form, 0)?;
    if kind.is_word("ref") {
        Some(Kind::Ref)
    } else if kind.is_word("atom") {
        Some(Kind::Atom)
    } else if kind.is_word("agent") {
        Some(Kind::Agent)
    } else {
        None
    }
}

// Says that a name isn't declared, or is of another kind than this one, and whether it is so.
fn write_bad_reference(
    writing: &mut Writing<'_>,
    names: &[Named<'_>],
    form: &Form<'_>,
    wanted: Option<Kind>,
) -> Result<bool, AllocError> {
    let kind = match form.symbol() {
        Some(name) => match find_name(names, name) {
            Some(named) => Some(named.kind),
            None => {
                write_unknown_name(writing, names, form)?;
                return Ok(true);
            }
        },
        None => kind_in(form),
    };
    match (kind, wanted) {
        (Some(kind), Some(wanted)) if kind != wanted => {
            write_other_kind(writing, form, kind, wanted)?;
            Ok(true)
        }
        _ => Ok(false),
    }
}

fn write_bad_name(
    writing: &mut Writing<'_>,
    names: &[Named<'_>],
    said: &Said<'_>,
) -> Result<bool, AllocError> {
    let mut parts = said.rest;
    match (said.word.slots.first(), parts.next()) {
        (Some(Slot::Name(kind)), Some(form)) => Ok(
            write_bad_reference(writing, names, &form, Some(*kind))?
                || write_bad_agent(writing, names, said)?,
        ),
        (Some(Slot::AnyName), Some(form)) => write_bad_reference(writing, names, &form, None),
        _ => Ok(false),
    }
}

// Says that a send that is carried names no agent, and whether one does so.
fn write_bad_agent(
    writing: &mut Writing<'_>,
    names: &[Named<'_>],
    said: &Said<'_>,
) -> Result<bool, AllocError> {
    let Some(carries) = carries_of(said) else {
        return Ok(false);
    };
    for carry in carries {
        if let Some(agent) = member_at(&carry, 0) {
            if write_bad_reference(writing, names, &agent, Some(Kind::Agent))? {
                return Ok(true);
            }
        }
    }
    Ok(false)
}

// ---- functions

// Says that a part is no function or predicate, where one is needed, and whether it is so.
fn write_bad_call(
    writing: &mut Writing<'_>,
    slot: Slot,
    part: &Form<'_>,
) -> Result<bool, AllocError> {
    match slot {
        Slot::Function if function_of(part.bytes()).is_none() => {
            write_no_function(writing, part)?;
            Ok(true)
        }
        Slot::Predicate if predicate_of(part.bytes()).is_none() => {
            write_no_predicate(writing, part)?;
            Ok(true)
        }
        Slot::Call => match member_at(part, 0) {
            Some(head) if function_of(head.bytes()).is_none() => {
                write_no_function(writing, &head)?;
                Ok(true)
            }
            _ => Ok(false),
        },
        Slot::Rule | Slot::MaybeRule => match member_at(part, 0) {
            Some(head) if predicate_of(head.bytes()).is_none() => {
                write_no_predicate(writing, &head)?;
                Ok(true)
            }
            _ => Ok(false),
        },
        _ => Ok(false),
    }
}

fn write_bad_function(writing: &mut Writing<'_>, said: &Said<'_>) -> Result<bool, AllocError> {
    let mut parts = said.rest;
    for slot in said.word.slots {
        let Some(part) = parts.next() else {
            break;
        };
        if write_bad_call(writing, *slot, &part)? {
            return Ok(true);
        }
    }
    write_bad_carried(writing, said)
}

// Says that a send that is carried names no function, and whether one does so.
fn write_bad_carried(writing: &mut Writing<'_>, said: &Said<'_>) -> Result<bool, AllocError> {
    let Some(carries) = carries_of(said) else {
        return Ok(false);
    };
    for carry in carries {
        match carried_call(&carry) {
            Some(call) if function_of(call.head.bytes()).is_none() => {
                write_no_function(writing, &call.head)?;
                return Ok(true);
            }
            _ => {}
        }
    }
    Ok(false)
}

// ---- sentences

// Says what is wrong with a part of a sentence, and whether something is.
fn write_bad_sentence(
    writing: &mut Writing<'_>,
    names: &[Named<'_>],
    sentence: Sentence,
    form: &Form<'_>,
    part: Part,
) -> Result<bool, AllocError> {
    match (part, said_in(sentence, form)) {
        (Part::Form, _) => write_bad_form(writing, sentence, form),
        (_, None) => Ok(false),
        (Part::Name, Some(said)) => write_bad_name(writing, names, &said),
        (Part::Function, Some(said)) => write_bad_function(writing, &said),
    }
}

fn write_bad_operations(
    writing: &mut Writing<'_>,
    names: &[Named<'_>],
    said: &Said<'_>,
    part: Part,
) -> Result<bool, AllocError> {
    for (i, form) in said.rest.enumerate() {
        if i >= MOST_OPERATIONS {
            writing.mark(
                &form,
                "one too many: a transaction has at most 256 operations",
            )?;
            return Ok(true);
        }
        if write_bad_sentence(writing, names, Sentence::Operation, &form, part)? {
            return Ok(true);
        }
    }
    Ok(false)
}

fn write_bad_step(
    writing: &mut Writing<'_>,
    names: &[Named<'_>],
    form: &Form<'_>,
    part: Part,
) -> Result<bool, AllocError> {
    match said_in(Sentence::Step, form) {
        Some(said) if said.is_transaction() => write_bad_operations(writing, names, &said, part),
        _ => write_bad_sentence(writing, names, Sentence::Step, form, part),
    }
}

/// Says what is wrong with a step.
pub(crate) fn write_step_fault(
    writing: &mut Writing<'_>,
    worker: u32,
    step: u32,
    part: Part,
) -> Result<(), AllocError> {
    let Some(form) = step_of(writing.text, worker as usize, step as usize) else {
        return Ok(());
    };
    let names = names_of(writing.alloc, writing.text)?;
    if !write_bad_step(writing, &names, &form, part)? {
        writing.mark(&form, "this step is wrong")?;
    }
    writing.note_text("the step", &form)
}

/// Says what is wrong with an event.
pub(crate) fn write_event_fault(
    writing: &mut Writing<'_>,
    number: u32,
    part: Part,
) -> Result<(), AllocError> {
    let Some(events) = part_of(writing.text, "events") else {
        return Ok(());
    };
    let Some(form) = member_at(&events, number as usize) else {
        return Ok(());
    };
    let names = names_of(writing.alloc, writing.text)?;
    if form.depth() > MOST_NESTED_EVENT {
        writing.mark_start(&form, "this event is nested more than 49 deep")?;
    } else if !write_bad_sentence(writing, &names, Sentence::Act, &form, part)? {
        writing.mark(&form, "this event is wrong")?;
    }
    writing.note_text("the event", &form)
}
