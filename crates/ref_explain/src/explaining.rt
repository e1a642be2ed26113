//! The explanation of each fault.
use crate::dumps::{write_bad_entry, write_bad_part};
use crate::keys::{Document, write_keys, write_too_many, write_too_many_events, write_version};
use crate::read_faults::write_read_fault;
use crate::references::{
    write_bad_tally, write_name_twice, write_reference_fault, write_start_invalid,
};
use crate::steps::{Part, write_event_fault, write_step_fault};
use crate::verdicts::{write_no_point, write_verdict};
use crate::writing::Writing;
use ref_edn::{ReadFault, read_one};
use ref_events::ScriptFault;
use ref_forms::maps::{forms_of, map_in, vector_under};
use ref_plan::PlanFault;
use ref_plan::planning::declarations::{MOST_DECLARED, declarations};
use ref_value::Items;
use ref_verdict::Verdict;
use ref_verdict::reading::faults::DumpFault;
use std::alloc::{AllocError, Global};

/// Why a text was refused, or what an audit says no to.
#[derive(Clone, Copy, Debug, Drop, PartialEq, Eq)]
pub enum Mistake {
    /// It is no EDN.
    Edn(ReadFault),
    /// It is no workload, list of events or dump.
    Workload(PlanFault),
    Events(ScriptFault),
    Dump(DumpFault),
    /// It is a dump, and this is the verdict on it.
    Audit(Verdict),
    /// It is a dump without the point that is asked for.
    NoPoint,
    /// It has more bytes than a text may have.
    TooLong,
}

fn write_workload(writing: &mut Writing<'_>, fault: PlanFault) -> Result<(), AllocError> {
    match fault {
        PlanFault::NotWorkload => write_keys(writing, Document::Workload),
        PlanFault::BadVersion => write_version(writing, Document::Workload),
        PlanFault::TooMany => write_too_many(writing),
        PlanFault::BadStep { worker, step } => write_step_fault(writing, worker, step, Part::Form),
        PlanFault::UnknownName { worker, step } => {
            write_step_fault(writing, worker, step, Part::Name)
        }
        PlanFault::UnknownFun { worker, step } => {
            write_step_fault(writing, worker, step, Part::Function)
        }
        fault => write_declaration(writing, fault),
    }
}

// What is wrong with a reference, as workloads and lists of events have them.
fn write_declaration(writing: &mut Writing<'_>, fault: PlanFault) -> Result<(), AllocError> {
    match fault {
        PlanFault::BadReference(who) => write_reference_fault(writing, who),
        PlanFault::NameTwice(who) => write_name_twice(writing, who),
        PlanFault::BadTally(who) => write_bad_tally(writing, who),
        PlanFault::StartInvalid(who) => write_start_invalid(writing, who),
        _ => Ok(()),
    }
}

fn write_events(writing: &mut Writing<'_>, fault: ScriptFault) -> Result<(), AllocError> {
    match fault {
        ScriptFault::NotEvents => write_keys(writing, Document::Events),
        ScriptFault::BadVersion => write_version(writing, Document::Events),
        ScriptFault::TooMany => write_too_many_events(writing),
        ScriptFault::Reference(fault) => write_declaration(writing, fault),
        ScriptFault::BadEvent(n) => write_event_fault(writing, n, Part::Form),
        ScriptFault::UnknownName(n) => write_event_fault(writing, n, Part::Name),
        ScriptFault::UnknownFun(n) => write_event_fault(writing, n, Part::Function),
        ScriptFault::Memory => Ok(()),
    }
}

fn write_dump(writing: &mut Writing<'_>, fault: DumpFault) -> Result<(), AllocError> {
    match fault {
        DumpFault::NotDump => write_keys(writing, Document::Dump),
        DumpFault::BadVersion => write_version(writing, Document::Dump),
        DumpFault::BadPart(key) => write_bad_part(writing, key),
        DumpFault::BadEntry(number) => write_bad_entry(writing, number),
        DumpFault::Memory => Ok(()),
    }
}

// What of the references of a list of events is judged to be wrong, if anything is.
fn start_fault_of(alloc: Global, text: &[u8]) -> Option<PlanFault> {
    let value = read_one(alloc, text).ok()?;
    let entries = map_in(&value)?;
    let Ok(empty) = Items::of(alloc, Vec::new(alloc)) else {
        return None;
    };
    let refs = forms_of(vector_under(entries, b"refs")?, &empty);
    let atoms = forms_of(vector_under(entries, b"atoms")?, &empty);
    let agents = forms_of(vector_under(entries, b"agents")?, &empty);
    if refs.len() > MOST_DECLARED || atoms.len() > MOST_DECLARED || agents.len() > MOST_DECLARED {
        return None;
    }
    match declarations(alloc, refs, atoms, agents, true) {
        Ok(_) => None,
        Err(fault) => Some(fault),
    }
}

/// Why no world begins with the references of a list of events, as [`explain`] says it of a workload; nothing where one does.
pub fn explain_start(alloc: Global, text: &[u8]) -> Result<String, AllocError> {
    match start_fault_of(alloc, text) {
        Some(fault) => explain(alloc, text, Mistake::Workload(fault)),
        None => Ok(String::new(alloc)),
    }
}

// What is said of a text that is too long.
const TOO_LONG: &str =
    "a text has at most 16777216 bytes; with --large, audit, history, at, draw and print take 4294967296";

/// What is wrong with a text, in lines for people: each place with its line and column, the line as far as it is shown, and what is
/// said of it. Where a word is unknown, the nearest one that is known is named.
///
/// The text is the one that was refused for this reason; of another one something is said, or nothing. It takes time in proportion
/// to the text, and memory for what it says and for the names of references.
pub fn explain(alloc: Global, text: &[u8], mistake: Mistake) -> Result<String, AllocError> {
    let mut writing = Writing::new(alloc, text);
    match mistake {
        Mistake::Edn(fault) => write_read_fault(&mut writing, fault)?,
        Mistake::Workload(fault) => write_workload(&mut writing, fault)?,
        Mistake::Events(fault) => write_events(&mut writing, fault)?,
        Mistake::Dump(fault) => write_dump(&mut writing, fault)?,
        Mistake::Audit(verdict) => write_verdict(&mut writing, verdict)?,
        Mistake::NoPoint => write_no_point(&mut writing)?,
        Mistake::TooLong => writing.note(TOO_LONG)?,
    }
    Ok(writing.into_output())
}
