//! Lists of events.
ghost use Rattle.std.specs.Bool.{OnFalse, OnTrue};
ghost use Rattle.std.specs.Option.{option_copied};
ghost use Rattle.std.specs.Prelude.{◌≡◌, ◌≢◌, ◌≤◌, IfErr, IfOk, IfNone, IfSome, length};
ghost use Rattle.ref_forms.specs.Plain.{elements, forms_under};
ghost use Rattle.ref_plan.specs.Limits.{most_declared};
ghost use Rattle.ref_plan.specs.Words.{agents_word, atoms_word, refs_word};
ghost use Rattle.ref_events.specs.Documents.{HasParts, HasVectors, IsScript, ScriptSeen, most_events};
ghost use Rattle.ref_events.specs.Words.{events_word};

use crate::events::events_in;
use crate::faults::ScriptFault;
use crate::references::EventNames;
use ref_agents::Start;
use ref_forms::Names;
use ref_forms::maps::{are_known, count, forms_of, map_in, vector_under};
use ref_plan::planning::declarations::{MOST_DECLARED, declarations};
use ref_plan::planning::parts::version_of;
use ref_play::Event;
use ref_value::{Entries, Items, Value};
use std::alloc::Global;
use std::marker::Model;

/// How many events a list may have, as many as a workload may have steps.
pub const MOST_EVENTS: usize = 640_000;

/// What a list of events says: the references that it declares, with their names, the events, and how each of them is written.
/// Contracts see lists.
#[derive(Drop)]
pub struct Script {
    names: Names,
    start: Start,
    events: Vec<Event>,
    forms: Items,
}

impl Model for Script {
    ghost use Rattle.std.specs.Coded.{codes};
    ghost use Rattle.ref_value.specs.Code.{edn_code};
    ghost use Rattle.ref_events.specs.Documents.{ScriptSeen};

    ghost Value = { ScriptSeen };

    ghost coded = { Prim.hlevel (codes, edn_code) };

    ghost view = { λ a. record {
      names = a.names;
      refs = a.start.refs.items;
      atoms = a.start.atoms.items;
      agents = a.start.agents.items;
      events = a.events.items;
      forms = a.forms;
    } };
}

/// A script in its parts.
#[derive(Drop)]
pub struct ScriptParts {
    pub names: Names,
    pub start: Start,
    pub events: Vec<Event>,
    pub forms: Items,
}

impl Script {
    /// The script in its parts.
    pub fn into_parts(self) -> ScriptParts
        ensures names { result.names ≡ self.names }
        ensures refs { result.start.refs.items ≡ self.refs }
        ensures atoms { result.start.atoms.items ≡ self.atoms }
        ensures agents { result.start.agents.items ≡ self.agents }
        ensures events { result.events.items ≡ self.events }
        ensures forms { result.forms ≡ self.forms }
    {
        let Script {
            names,
            start,
            events,
            forms,
        } = self;
        ScriptParts {
            names,
            start,
            events,
            forms,
        }
    }
}

const WORDS: [&str; 5] = ["version", "refs", "atoms", "agents", "events"];

// The parts that are vectors, where they aren't left out.
#[derive(Drop)]
struct Parts<'a> {
    refs: Option<&'a Items>,
    atoms: Option<&'a Items>,
    agents: Option<&'a Items>,
    events: Option<&'a Items>,
}

fn vectors_in<'a>(entries: &'a Entries) -> Option<Parts<'a>>
    ensures refs { IfSome result (λ p. elements (option_copied p.refs) ≡ forms_under entries.now refs_word) }
    ensures atoms { IfSome result (λ p. elements (option_copied p.atoms) ≡ forms_under entries.now atoms_word) }
    ensures agents { IfSome result (λ p. elements (option_copied p.agents) ≡ forms_under entries.now agents_word) }
    ensures events { IfSome result (λ p. elements (option_copied p.events) ≡ forms_under entries.now events_word) }
    ensures vectors { IfSome result (λ _. HasVectors entries.now) }
    ensures none { IfNone result (HasVectors entries.now → ⊥) }
{
    Some(Parts {
        refs: vector_under(entries, b"refs")?,
        atoms: vector_under(entries, b"atoms")?,
        agents: vector_under(entries, b"agents")?,
        events: vector_under(entries, b"events")?,
    })
}

fn are_few(parts: &Parts<'_>) -> bool
    ensures refs { OnTrue result (length (elements (option_copied parts.now.refs)) ≤ most_declared) }
    ensures atoms { OnTrue result (length (elements (option_copied parts.now.atoms)) ≤ most_declared) }
    ensures agents { OnTrue result (length (elements (option_copied parts.now.agents)) ≤ most_declared) }
    ensures events { OnTrue result (length (elements (option_copied parts.now.events)) ≤ most_events) }
    ensures no { OnFalse result (length (elements (option_copied parts.now.refs)) ≤ most_declared
        → length (elements (option_copied parts.now.atoms)) ≤ most_declared
        → length (elements (option_copied parts.now.agents)) ≤ most_declared
        → length (elements (option_copied parts.now.events)) ≤ most_events → ⊥) }
{
    count(parts.refs) <= MOST_DECLARED
        && count(parts.atoms) <= MOST_DECLARED
        && count(parts.agents) <= MOST_DECLARED
        && count(parts.events) <= MOST_EVENTS
}

// The parts, where the entries are those of a list of events. It takes no memory.
fn parts_of<'a>(entries: &'a Entries) -> Result<Parts<'a>, ScriptFault>
    ensures refs { IfOk result (λ p. elements (option_copied p.refs) ≡ forms_under entries.now refs_word) }
    ensures atoms { IfOk result (λ p. elements (option_copied p.atoms) ≡ forms_under entries.now atoms_word) }
    ensures agents { IfOk result (λ p. elements (option_copied p.agents) ≡ forms_under entries.now agents_word) }
    ensures events { IfOk result (λ p. elements (option_copied p.events) ≡ forms_under entries.now events_word) }
    ensures ok { IfOk result (λ _. HasParts entries.now) }
    ensures told { IfErr result (λ f. f ≢ ScriptFault.Memory) }
    ensures none { IfErr result (λ _. HasParts entries.now → ⊥) }
{
    let Some(parts) = vectors_in(entries) else {
        return Err(ScriptFault::NotEvents);
    };
    let Some(version) = version_of(entries) else {
        return Err(ScriptFault::NotEvents);
    };
    if !are_known(entries, &WORDS) {
        return Err(ScriptFault::NotEvents);
    }
    if version != 1 {
        return Err(ScriptFault::BadVersion);
    }
    if !are_few(&parts) {
        return Err(ScriptFault::TooMany);
    }
    Ok(parts)
}

/// What a value says, where it is a list of events: docs/EVENTS.md has the form. It takes time in proportion to the value. It shares
/// values with the value that it is made of, and copies none.
///
/// Of what is wrong the first is returned, in the order that [`ScriptFault`] names; which one it is, no contract says. Keys, version and
/// limits are asked before any memory is taken.
pub fn script_of(alloc: Global, value: &Value) -> Result<Script, ScriptFault>
    ensures ok { IfOk result (λ s. IsScript value.now s) }
    // What is refused, for another reason than memory, is no list of events.
    ensures none { IfErr result (λ f. f ≢ ScriptFault.Memory → (s : ScriptSeen) → IsScript value.now s → ⊥) }
{
    let Some(entries) = map_in(value) else {
        return Err(ScriptFault::NotEvents);
    };
    let parts = parts_of(entries)?;
    let empty = Items::of(alloc, Vec::new(alloc))?;
    let refs = forms_of(parts.refs, &empty);
    let atoms = forms_of(parts.atoms, &empty);
    let agents = forms_of(parts.agents, &empty);
    let forms = forms_of(parts.events, &empty);
    let (declared, start) = declarations(alloc, refs, atoms, agents, false)?;
    let events = events_in(
        alloc,
        &EventNames {
            declared: &declared,
        },
        forms,
    )?;
    Ok(Script {
        names: declared.into_names(),
        start,
        events,
        forms: forms.share()?,
    })
}
