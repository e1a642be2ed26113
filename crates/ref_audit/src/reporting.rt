//! The report of a run.
ghost use Rattle.std.specs.Prelude.{◌≡◌, ◌<◌, ◌++◌, Bool, IfOk, OnErr, OnOk, codes, decimal};
ghost use Rattle.ref_world.specs.References.{values_of};
ghost use Rattle.ref_audit.specs.Made.{kind_text, who_of};
ghost use Rattle.ref_audit.specs.Report.{agent_line, agent_lines, cause_text, commits_line, newline, no_text, reason_text, refused_line, refused_lines, reported, space, status_text, value_line, value_lines, value_text, verdict_line, verdict_text};

use crate::kinds::RefOrAtom;
use crate::reports::{Names, Reason, Refusal};
use itoa::Buffer;
use ref_edn::print;
use ref_fun::{Cause, Core};
use ref_log::Who;
use ref_value::{Text, Value};
use ref_verdict::Verdict;
use ref_world::World;
use std::alloc::{AllocError, Global};

/// Appends the report of a world: a line for each name of a reference that is there, for each refused step, for the number of
/// commits and for the verdict. The refused steps are given by worker and then by step. The time is linear in the text. Where
/// memory is refused, nothing is appended.
pub fn report(
    alloc: Global,
    names: &Names,
    world: &World<Core>,
    refused: &[Refusal],
    verdict: &Verdict,
    out: &mut Vec<u8>,
) -> Result<(), AllocError>
    ensures ok { OnOk result (out.new.items ≡ out.old.items ++ reported names.now world.now refused.now verdict.now) }
    ensures err { OnErr result (out.new.items ≡ out.old.items) }
{
    let mut text = Vec::new(alloc);
    append_values(alloc, RefOrAtom::Ref, names.refs(), world, &mut text)?;
    append_values(alloc, RefOrAtom::Atom, names.atoms(), world, &mut text)?;
    append_agents(alloc, names.agents(), world, &mut text)?;
    append_refused(refused, &mut text)?;
    append_commits(world.commits(), &mut text)?;
    append_verdict(*verdict, &mut text)?;
    out.extend_from_slice(&text)
}

/// The line of a verdict, with its newline.
pub fn line_of(alloc: Global, verdict: &Verdict) -> Result<Vec<u8>, AllocError>
    ensures { IfOk result (λ line. line.items ≡ verdict_line verdict.now) }
{
    let mut line = Vec::new(alloc);
    append_verdict(*verdict, &mut line)?;
    Ok(line)
}

/// The word for why a step was refused.
pub fn word_of(reason: Reason) -> &'static str
    ensures { result.now ≡ reason_text reason }
{
    match reason {
        Reason::SetAfterCommute => "set-after-commute",
        Reason::TallyOnly => "tally-only",
        Reason::Refused(cause) => word_of_cause(cause),
        Reason::NotMet => "not-met",
        Reason::Invalid => "invalid",
        Reason::GaveUp => "gave-up",
        Reason::PointLimit => "point-limit",
        Reason::BookFull => "book-full",
        Reason::AgentFailed => "agent-failed",
        Reason::NotFailed => "not-failed",
    }
}

fn word_of_cause(cause: Cause) -> &'static str
    ensures { result.now ≡ cause_text cause }
{
    match cause {
        Cause::WrongKind => "wrong-kind",
        Cause::WrongArity => "wrong-arity",
        Cause::Overflow => "overflow",
        Cause::TooDeep => "too-deep",
    }
}

// A line for each name of a ref, or of an atom, that is there.
fn append_values(
    alloc: Global,
    kind: RefOrAtom,
    names: &[Text],
    world: &World<Core>,
    out: &mut Vec<u8>,
) -> Result<(), AllocError>
    ensures { OnOk result (out.new.items
        ≡ out.old.items ++ value_lines (kind_text kind) names.now (values_of world.now (who_of kind 0))) }
{
    for (i, name) in names.iter().enumerate() {
        let n = number_of(i)?;
        match world.value_of(kind.who(n)) {
            Some(value) => append_value_line(alloc, kind, name, value, out)?,
            None => return Ok(()),
        }
    }
    Ok(())
}

fn number_of(i: usize) -> Result<u32, AllocError>
    ensures ok { IfOk result (λ n. n ≡ i) }
    ensures err { OnErr result (4294967295 < i) }
{
    match u32::try_from(i) {
        Ok(n) => Ok(n),
        Err(_) => Err(AllocError),
    }
}

fn append_value_line(
    alloc: Global,
    kind: RefOrAtom,
    name: &Text,
    value: &Value,
    out: &mut Vec<u8>,
) -> Result<(), AllocError>
    ensures { OnOk result (out.new.items ≡ out.old.items ++ value_line (kind_text kind) name.now value.now) }
{
    append_value(alloc, kind.name(), name, value, out)?;
    out.extend_from_slice(b"\n")
}

fn append_value(
    alloc: Global,
    kind: &str,
    name: &Text,
    value: &Value,
    out: &mut Vec<u8>,
) -> Result<(), AllocError>
    ensures { OnOk result (out.new.items ≡ out.old.items ++ value_text kind.now name.now value.now) }
{
    out.extend_from_slice(kind.as_bytes())?;
    out.extend_from_slice(b" ")?;
    out.extend_from_slice(name.as_bytes())?;
    out.extend_from_slice(b" ")?;
    print(alloc, value, out)
}

// A line for each name of an agent that is there.
fn append_agents(
    alloc: Global,
    names: &[Text],
    world: &World<Core>,
    out: &mut Vec<u8>,
) -> Result<(), AllocError>
    ensures { OnOk result (out.new.items ≡ out.old.items ++ agent_lines names.now world.now.agents.agents) }
{
    for (i, name) in names.iter().enumerate() {
        let g = number_of(i)?;
        let failed = world.error_of(g).is_some();
        match world.value_of(Who::Agent(g)) {
            Some(state) => append_agent_line(alloc, name, state, failed, out)?,
            None => return Ok(()),
        }
    }
    Ok(())
}

fn append_agent_line(
    alloc: Global,
    name: &Text,
    state: &Value,
    failed: bool,
    out: &mut Vec<u8>,
) -> Result<(), AllocError>
    ensures { OnOk result (out.new.items ≡ out.old.items ++ agent_line name.now state.now failed) }
{
    append_value(alloc, "agent", name, state, out)?;
    out.extend_from_slice(b" ")?;
    out.extend_from_slice(status_of(failed).as_bytes())?;
    out.extend_from_slice(b"\n")
}

fn status_of(failed: bool) -> &'static str
    ensures { result.now ≡ status_text failed }
{
    if failed { "failed" } else { "ready" }
}

fn append_refused(refused: &[Refusal], out: &mut Vec<u8>) -> Result<(), AllocError>
    ensures { OnOk result (out.new.items ≡ out.old.items ++ refused_lines refused.now) }
{
    for refusal in refused {
        append_refused_line(refusal, out)?;
    }
    Ok(())
}

fn append_refused_line(refusal: &Refusal, out: &mut Vec<u8>) -> Result<(), AllocError>
    ensures { OnOk result (out.new.items ≡ out.old.items ++ refused_line refusal.now) }
{
    out.extend_from_slice(b"refused ")?;
    append_number(u64::from(refusal.stamp.worker), out)?;
    out.extend_from_slice(b" ")?;
    append_number(u64::from(refusal.stamp.step), out)?;
    out.extend_from_slice(b" ")?;
    out.extend_from_slice(word_of(refusal.reason).as_bytes())?;
    out.extend_from_slice(b"\n")
}

fn append_commits(commits: u64, out: &mut Vec<u8>) -> Result<(), AllocError>
    ensures { OnOk result (out.new.items ≡ out.old.items ++ commits_line commits) }
{
    out.extend_from_slice(b"commits ")?;
    append_number(commits, out)?;
    out.extend_from_slice(b"\n")
}

fn append_verdict(verdict: Verdict, out: &mut Vec<u8>) -> Result<(), AllocError>
    ensures { OnOk result (out.new.items ≡ out.old.items ++ verdict_line verdict) }
{
    out.extend_from_slice(b"audit ")?;
    append_verdict_text(verdict, out)?;
    out.extend_from_slice(b"\n")
}

fn append_verdict_text(verdict: Verdict, out: &mut Vec<u8>) -> Result<(), AllocError>
    ensures { OnOk result (out.new.items ≡ out.old.items ++ verdict_text verdict) }
{
    match verdict {
        Verdict::Ok => out.extend_from_slice(b"ok"),
        Verdict::NoSuch(point) => append_no("entry", point, "no-such", out),
        Verdict::Refuses(point) => append_no("entry", point, "refuses", out),
        Verdict::Answer(point) => append_no("entry", point, "answer", out),
        Verdict::RefValue(r) => append_no("ref", r, "value", out),
        Verdict::AtomValue(a) => append_no("atom", a, "value", out),
        Verdict::RefRule(r) => append_no("ref", r, "rule", out),
        Verdict::AtomRule(a) => append_no("atom", a, "rule", out),
        Verdict::AgentRule(g) => append_no("agent", g, "rule", out),
        Verdict::Fold(g) => append_no("agent", g, "fold", out),
        Verdict::Count => out.extend_from_slice(b"no count"),
    }
}

// What the audit says no to, and why.
fn append_no(what: &str, n: u64, why: &str, out: &mut Vec<u8>) -> Result<(), AllocError>
    ensures { OnOk result (out.new.items ≡ out.old.items ++ no_text what.now n why.now) }
{
    out.extend_from_slice(b"no ")?;
    out.extend_from_slice(what.as_bytes())?;
    out.extend_from_slice(b" ")?;
    append_number(n, out)?;
    out.extend_from_slice(b" ")?;
    out.extend_from_slice(why.as_bytes())
}

/// Appends a number in decimal.
pub fn append_number(n: u64, out: &mut Vec<u8>) -> Result<(), AllocError>
    ensures { OnOk result (out.new.items ≡ out.old.items ++ decimal n) }
{
    out.extend_from_slice(Buffer::new().format(n).as_bytes())
}
