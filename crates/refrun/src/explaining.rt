//! What follows on standard error for people, where they ask for it: only what there is memory for.
use crate::faults::{AuditRunFault, Fault};
use ref_audit::Verdict;
use ref_explain::{Mistake, RefusedSteps, explain, explain_refused, explain_start, warnings_of};
use ref_workload::RunFault;
use std::alloc::AllocError;

fn mistake_in_run(fault: RunFault) -> Option<Mistake> {
    match fault {
        RunFault::InputTooLong => Some(Mistake::TooLong),
        RunFault::NotEdn(fault) => Some(Mistake::Edn(fault)),
        RunFault::Plan(fault) => Some(Mistake::Workload(fault)),
        RunFault::Read | RunFault::Write | RunFault::Memory | RunFault::Internal => None,
    }
}

fn mistake_in_audit(fault: AuditRunFault) -> Option<Mistake> {
    match fault {
        AuditRunFault::InputTooLong => Some(Mistake::TooLong),
        AuditRunFault::NotEdn(fault) => Some(Mistake::Edn(fault)),
        AuditRunFault::Dump(fault) => Some(Mistake::Dump(fault)),
        AuditRunFault::NoPoint(_) => Some(Mistake::NoPoint),
        AuditRunFault::Read | AuditRunFault::Write | AuditRunFault::Memory => None,
    }
}

// What is wrong with the input, if that is the fault.
fn mistake_of(fault: Fault) -> Option<Mistake> {
    match fault {
        Fault::Run(fault) => mistake_in_run(fault),
        Fault::Audit(fault) => mistake_in_audit(fault),
        Fault::Script(fault) => Some(Mistake::Events(fault)),
    }
}

fn write<R: Eprint>(rt: &R, lines: Result<String, AllocError>) {
    if let Ok(lines) = lines {
        let _said = eprint!(rt; "{lines}");
    }
}

/// Shows where the text is wrong, and why.
pub(crate) fn explain_fault<R: AllocGlobal + Eprint>(rt: &R, text: &[u8], fault: Fault) {
    if let Some(mistake) = mistake_of(fault) {
        write(rt, explain(rt.alloc(), text, mistake));
    }
}

/// Shows which reference of a list of events no world begins with, if that is so.
pub(crate) fn explain_refused_start<R: AllocGlobal + Eprint>(rt: &R, text: &[u8]) {
    write(rt, explain_start(rt.alloc(), text));
}

/// Shows what of a dump an audit says no to.
pub(crate) fn explain_verdict<R: AllocGlobal + Eprint>(rt: &R, text: &[u8], verdict: Verdict) {
    write(rt, explain(rt.alloc(), text, Mistake::Audit(verdict)));
}

/// Warns of what in a workload can never work.
pub(crate) fn warn<R: AllocGlobal + Eprint>(rt: &R, text: &[u8]) {
    write(rt, warnings_of(rt.alloc(), text));
}

/// Shows the steps of a workload that were refused, where their texts can show why.
pub(crate) fn explain_refused_steps<R: AllocGlobal + Eprint>(
    rt: &R,
    text: &[u8],
    steps: &RefusedSteps,
) {
    write(
        rt,
        explain_refused(rt.alloc(), text, steps.shown(), steps.count_showable()),
    );
}
