//! What the program says of a fault, and the status that it ends with.
ghost use Rattle.std.specs.Prelude.{◌≡◌, ◌++◌, Some, codes};
ghost use Rattle.std.specs.Fmt.{WritesOnOk};
ghost use Rattle.refrun.specs.Lines.{audit_line_of, audit_status_of, dump_line_of, line_of, plan_line_of, read_line_of, reference_line, run_line_of, run_status_of, script_line_of, script_status_of, status_of};

use crate::faults::{AuditRunFault, Fault};
use ref_audit::DumpFault;
use ref_edn::ReadFault;
use ref_events::ScriptFault;
use ref_log::Who;
use ref_workload::{PlanFault, RunFault};
use std::fmt;

/// The line of a fault on standard error, without the newline.
#[derive(Drop)]
pub struct Line(pub Fault);

impl fmt::Display for Line {
    ghost output = { λ line. Some (codes "refrun: " ++ line_of line.0) };

    fn fmt<W: fmt::Write>(&self, f: &mut fmt::Formatter<W>) -> fmt::Result {
        f.write_str("refrun: ")?;
        write_fault(self.0, f)
    }
}

fn write_fault<W: fmt::Write>(fault: Fault, f: &mut fmt::Formatter<W>) -> fmt::Result
    ensures { WritesOnOk W.write_str_gives f.old result (line_of fault) f.new }
{
    match fault {
        Fault::Run(fault) => write_run_fault(fault, f),
        Fault::Audit(fault) => write_audit_fault(fault, f),
        Fault::Script(fault) => write_script_fault(fault, f),
    }
}

fn write_run_fault<W: fmt::Write>(fault: RunFault, f: &mut fmt::Formatter<W>) -> fmt::Result
    ensures { WritesOnOk W.write_str_gives f.old result (run_line_of fault) f.new }
{
    match fault {
        RunFault::Read => f.write_str("read fault"),
        RunFault::InputTooLong => f.write_str("InputTooLong"),
        RunFault::NotEdn(fault) => write_read_fault(fault, f),
        RunFault::Plan(fault) => write_plan_fault(fault, f),
        RunFault::Write => f.write_str("write fault"),
        RunFault::Memory => f.write_str("out of memory"),
        RunFault::Internal => f.write_str("internal"),
    }
}

fn write_audit_fault<W: fmt::Write>(fault: AuditRunFault, f: &mut fmt::Formatter<W>) -> fmt::Result
    ensures { WritesOnOk W.write_str_gives f.old result (audit_line_of fault) f.new }
{
    match fault {
        AuditRunFault::Read => f.write_str("read fault"),
        AuditRunFault::InputTooLong => f.write_str("InputTooLong"),
        AuditRunFault::NotEdn(fault) => write_read_fault(fault, f),
        AuditRunFault::Dump(fault) => write_dump_fault(fault, f),
        AuditRunFault::NoPoint(point) => write!(f, "NoPoint {point}"),
        AuditRunFault::Write => f.write_str("write fault"),
        AuditRunFault::Memory => f.write_str("out of memory"),
    }
}

fn write_read_fault<W: fmt::Write>(fault: ReadFault, f: &mut fmt::Formatter<W>) -> fmt::Result
    ensures { WritesOnOk W.write_str_gives f.old result (read_line_of fault) f.new }
{
    match fault.place() {
        Some(place) => write!(f, "{} at {place}", fault.name()),
        None => f.write_str("out of memory"),
    }
}

fn write_plan_fault<W: fmt::Write>(fault: PlanFault, f: &mut fmt::Formatter<W>) -> fmt::Result
    ensures { WritesOnOk W.write_str_gives f.old result (plan_line_of fault) f.new }
{
    match fault {
        PlanFault::NotWorkload => f.write_str("NotWorkload"),
        PlanFault::BadVersion => f.write_str("BadVersion"),
        PlanFault::TooMany => f.write_str("TooMany"),
        PlanFault::BadReference(who) => write_of("BadReference", who, f),
        PlanFault::NameTwice(who) => write_of("NameTwice", who, f),
        PlanFault::BadTally(who) => write_of("BadTally", who, f),
        PlanFault::StartInvalid(who) => write_of("StartInvalid", who, f),
        PlanFault::BadStep { worker, step } => write!(f, "BadStep {worker} {step}"),
        PlanFault::UnknownName { worker, step } => write!(f, "UnknownName {worker} {step}"),
        PlanFault::UnknownFun { worker, step } => write!(f, "UnknownFun {worker} {step}"),
        PlanFault::Memory => f.write_str("out of memory"),
    }
}

fn write_script_fault<W: fmt::Write>(fault: ScriptFault, f: &mut fmt::Formatter<W>) -> fmt::Result
    ensures { WritesOnOk W.write_str_gives f.old result (script_line_of fault) f.new }
{
    match fault {
        ScriptFault::NotEvents => f.write_str("NotEvents"),
        ScriptFault::BadVersion => f.write_str("BadVersion"),
        ScriptFault::TooMany => f.write_str("TooMany"),
        ScriptFault::Reference(fault) => write_plan_fault(fault, f),
        ScriptFault::BadEvent(n) => write!(f, "BadEvent {n}"),
        ScriptFault::UnknownName(n) => write!(f, "UnknownName {n}"),
        ScriptFault::UnknownFun(n) => write!(f, "UnknownFun {n}"),
        ScriptFault::Memory => f.write_str("out of memory"),
    }
}

// The fault of a reference that is declared.
fn write_of<W: fmt::Write>(name: &str, who: Who, f: &mut fmt::Formatter<W>) -> fmt::Result
    ensures { WritesOnOk W.write_str_gives f.old result (reference_line name.now who) f.new }
{
    match who {
        Who::Ref(n) => write!(f, "{name} ref {n}"),
        Who::Atom(n) => write!(f, "{name} atom {n}"),
        Who::Agent(n) => write!(f, "{name} agent {n}"),
    }
}

fn write_dump_fault<W: fmt::Write>(fault: DumpFault, f: &mut fmt::Formatter<W>) -> fmt::Result
    ensures { WritesOnOk W.write_str_gives f.old result (dump_line_of fault) f.new }
{
    match fault {
        DumpFault::NotDump => f.write_str("NotDump"),
        DumpFault::BadVersion => f.write_str("BadVersion"),
        DumpFault::BadPart(key) => write!(f, "BadPart :{}", key.name()),
        DumpFault::BadEntry(n) => write!(f, "BadEntry {n}"),
        DumpFault::Memory => f.write_str("out of memory"),
    }
}

/// Says what went wrong, and returns the status. Where standard error can't be written, only the status says it.
pub(crate) fn say<R: Eprint>(rt: &R, fault: Fault) -> u8
    ensures { result ≡ status_of fault }
{
    let line = Line(fault);
    let _said = eprintln!(rt; "{line}");
    status(fault)
}

/// The status that the program ends with after a fault.
pub fn status(fault: Fault) -> u8
    ensures { result ≡ status_of fault }
{
    match fault {
        Fault::Run(fault) => run_status(fault),
        Fault::Audit(fault) => audit_status(fault),
        Fault::Script(fault) => script_status(fault),
    }
}

fn run_status(fault: RunFault) -> u8
    ensures { result ≡ run_status_of fault }
{
    match fault {
        RunFault::InputTooLong | RunFault::NotEdn(_) | RunFault::Plan(_) => 3,
        RunFault::Read | RunFault::Write => 4,
        RunFault::Internal => 5,
        RunFault::Memory => 6,
    }
}

fn script_status(fault: ScriptFault) -> u8
    ensures { result ≡ script_status_of fault }
{
    match fault {
        ScriptFault::Memory => 6,
        _ => 3,
    }
}

fn audit_status(fault: AuditRunFault) -> u8
    ensures { result ≡ audit_status_of fault }
{
    match fault {
        AuditRunFault::InputTooLong
        | AuditRunFault::NotEdn(_)
        | AuditRunFault::Dump(_)
        | AuditRunFault::NoPoint(_) => 3,
        AuditRunFault::Read | AuditRunFault::Write => 4,
        AuditRunFault::Memory => 6,
    }
}
