//! How references are named: by their names, or by their numbers.
ghost use Rattle.std.specs.Prelude.{◌≡◌, None, Some};
ghost use Rattle.ref_forms.specs.Calls.{any};
ghost use Rattle.ref_events.specs.Acts.{numbered_said, who_at, who_said};

use ref_forms::plain::{is_same, keyword_in, stamp_number_in};
use ref_forms::{Naming, Values, Wrong};
use ref_log::Who;
use ref_plan::planning::names::Declared;
use ref_value::vectors::Iter;
use ref_value::{Node, Value};
use std::marker::Model;

/// The references that a list of events declares, and those that it makes. Contracts see the names of the first.
#[derive(Drop)]
pub(crate) struct EventNames<'a> {
    pub declared: &'a Declared,
}

impl<'a> Model for EventNames<'a> {
    ghost use Rattle.ref_forms.specs.Names.{NamesSeen};

    ghost Value = { NamesSeen };

    ghost view = { λ a. a.declared.now };
}

fn who_at(kind: &[u8], number: u32) -> Option<Who>
    ensures { result ≡ who_at kind.now number }
{
    if is_same(kind, b"ref") {
        Some(Who::Ref(number))
    } else if is_same(kind, b"atom") {
        Some(Who::Atom(number))
    } else if is_same(kind, b"agent") {
        Some(Who::Agent(number))
    } else {
        None
    }
}

// `KIND N`.
fn numbered_in(mut parts: Iter<'_>) -> Option<Who>
    ensures { result ≡ numbered_said parts.entry }
{
    let (Some(kind), Some(number), None) = (parts.next(), parts.next(), parts.next()) else {
        return None;
    };
    let word = keyword_in(kind)?;
    let number = stamp_number_in(number)?;
    who_at(word, number)
}

impl<'a> Naming for EventNames<'a> {
    ghost named = { who_said };

    fn who_in(&self, form: &Value) -> Result<Who, Wrong> {
        match form.node() {
            Node::Symbol(_) | Node::ShortSymbol(_) => self.declared.who_in(form),
            Node::Vector(parts) => match numbered_in(parts.iter()) {
                Some(who) => Ok(who),
                None => Err(Wrong::Form),
            },
            _ => Err(Wrong::Form),
        }
    }
}

// How deep a value may be nested is asked of the whole event.
impl<'a> Values for EventNames<'a> {
    ghost is_value = { any };

    // The toolchain asks for the clause of the trait here.
    fn takes(_form: &Value) -> bool
        ensures { result ≡ any _form.now }
    {
        true
    }
}
