//! The map that a text is, and what stands under its keys.
use crate::forms::{Form, Sort, first_form};
use ref_forms::Kind;
use ref_log::Who;
use std::alloc::{AllocError, Global};

// No more names are looked at: a workload has no more references.
const MOST_NAMES: usize = 3 * 4096;

/// A member of a collection, from 0.
pub(crate) fn member_at<'a>(form: &Form<'a>, place: usize) -> Option<Form<'a>> {
    for (i, member) in form.members().enumerate() {
        if i == place {
            return Some(member);
        }
    }
    None
}

/// The one element of a text, where it is a map.
pub(crate) fn map_of(text: &[u8]) -> Option<Form<'_>> {
    let form = first_form(text)?;
    if form.sort() == Sort::Map {
        Some(form)
    } else {
        None
    }
}

/// What stands under a keyword of a map.
pub(crate) fn value_under<'a>(map: &Form<'a>, word: &str) -> Option<Form<'a>> {
    let mut is_value = false;
    let mut is_found = false;
    for member in map.members() {
        if is_value && is_found {
            return Some(member);
        }
        is_found = !is_value && member.is_word(word);
        is_value = !is_value;
    }
    None
}

/// What stands under a keyword of the map that the text is.
pub(crate) fn part_of<'a>(text: &'a [u8], word: &str) -> Option<Form<'a>> {
    value_under(&map_of(text)?, word)
}

/// The key of the references of a kind.
pub(crate) fn key_of(kind: Kind) -> &'static str {
    match kind {
        Kind::Ref => "refs",
        Kind::Atom => "atoms",
        Kind::Agent => "agents",
    }
}

/// What a reference of a kind is called.
pub(crate) fn name_of(kind: Kind) -> &'static str {
    match kind {
        Kind::Ref => "a ref",
        Kind::Atom => "an atom",
        Kind::Agent => "an agent",
    }
}

pub(crate) fn kind_of(who: Who) -> Kind {
    match who {
        Who::Ref(_) => Kind::Ref,
        Who::Atom(_) => Kind::Atom,
        Who::Agent(_) => Kind::Agent,
    }
}

fn number_of(who: Who) -> u32 {
    match who {
        Who::Ref(n) | Who::Atom(n) | Who::Agent(n) => n,
    }
}

/// The form that declares a reference.
pub(crate) fn reference_of(text: &[u8], who: Who) -> Option<Form<'_>> {
    let forms = part_of(text, key_of(kind_of(who)))?;
    member_at(&forms, number_of(who) as usize)
}

/// A step of a worker.
pub(crate) fn step_of(text: &[u8], worker: usize, step: usize) -> Option<Form<'_>> {
    let workers = part_of(text, "workers")?;
    member_at(&member_at(&workers, worker)?, step)
}

/// A name that is declared.
#[derive(Clone, Copy, Debug)]
pub(crate) struct Named<'a> {
    pub name: &'a [u8],
    pub kind: Kind,
    /// The name where it is declared.
    pub form: Form<'a>,
}

fn add_names<'a>(names: &mut Vec<Named<'a>>, text: &'a [u8], kind: Kind) -> Result<(), AllocError> {
    let Some(forms) = part_of(text, key_of(kind)) else {
        return Ok(());
    };
    for form in forms.members() {
        let Some(first) = member_at(&form, 0) else {
            continue;
        };
        match first.symbol() {
            Some(name) if names.len() < MOST_NAMES => names.push(Named {
                name,
                kind,
                form: first,
            })?,
            _ => {}
        }
    }
    Ok(())
}

/// The names that a text declares: those of refs, then atoms, then agents, each in order.
pub(crate) fn names_of(alloc: Global, text: &[u8]) -> Result<Vec<Named<'_>>, AllocError> {
    let mut names = Vec::new(alloc);
    add_names(&mut names, text, Kind::Ref)?;
    add_names(&mut names, text, Kind::Atom)?;
    add_names(&mut names, text, Kind::Agent)?;
    Ok(names)
}

/// The first reference of this name.
pub(crate) fn find_name<'a>(names: &[Named<'a>], name: &[u8]) -> Option<Named<'a>> {
    for named in names {
        if named.name == name {
            return Some(*named);
        }
    }
    None
}
