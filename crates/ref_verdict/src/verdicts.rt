//! The verdict on a dump.
ghost use Rattle.std.specs.Prelude.{◌≡◌, ◌^◌, ◌<◌, IfErr, IfOk};
ghost use Rattle.ref_fun.specs.Calls.{HasCore};
ghost use Rattle.ref_fun.specs.Core.{core_means};
ghost use Rattle.ref_log.specs.Replay.{point_after};
ghost use Rattle.ref_verdict.specs.OfCore.{IsOfCore};
ghost use Rattle.ref_verdict.specs.Verdict.{count_line, fold_line, replay_line, rule_line, value_line, verdict};
ghost use Rattle.ref_verdict.specs.declared.reading.faults.DumpFault.TheVariants.{Memory};

pub(crate) mod core_calls;
pub(crate) mod counts;
pub(crate) mod folds;
pub(crate) mod rules;
pub(crate) mod values;

use crate::reading::dumps::Dump;
use crate::reading::faults::DumpFault;
use crate::reports::Verdict;
use crate::verdicts::counts::are_counts;
use crate::verdicts::folds::first_broken_fold;
use crate::verdicts::rules::{first_breaking_agent, first_broken_rule};
use crate::verdicts::values::first_difference;
use ref_fun::{Core, Functions};
use ref_log::{AuditFault, PlainState, replay_plain};
use std::alloc::{AllocError, Global};

// The values now against those of the replay.
fn value_line(dump: &Dump, state: &PlainState) -> Option<Verdict>
    ensures { result ≡ value_line dump.now state.now }
{
    if let Some(r) = first_difference(dump.refs.as_slice(), state.refs.as_slice()) {
        return Some(Verdict::RefValue(r));
    }
    match first_difference(dump.atoms.as_slice(), state.atoms.as_slice()) {
        Some(a) => Some(Verdict::AtomValue(a)),
        None => None,
    }
}

// The rules against the values now.
fn rule_line<F: Functions<Core>>(funs: &F, dump: &Dump) -> Option<Verdict>
    requires core { HasCore (F.knows funs.now) }
    requires dump { IsOfCore dump.now }
    ensures { result ≡ rule_line dump.now }
{
    if let Some(r) = first_broken_rule(funs, dump.refs.as_slice()) {
        return Some(Verdict::RefRule(r));
    }
    if let Some(a) = first_broken_rule(funs, dump.atoms.as_slice()) {
        return Some(Verdict::AtomRule(a));
    }
    match first_breaking_agent(funs, dump.agents.as_slice()) {
        Some(g) => Some(Verdict::AgentRule(g)),
        None => None,
    }
}

// The states of the agents against their starts, folded over their done actions.
fn fold_line<F: Functions<Core>>(
    alloc: Global,
    funs: &F,
    dump: &Dump,
) -> Result<Option<Verdict>, AllocError>
    requires core { HasCore (F.knows funs.now) }
    requires dump { IsOfCore dump.now }
    ensures { IfOk result (λ line. line ≡ fold_line dump.now) }
{
    match first_broken_fold(alloc, funs, dump.agents.as_slice())? {
        Some(g) => Ok(Some(Verdict::Fold(g))),
        None => Ok(None),
    }
}

// The books against what base and entries say.
fn count_line(dump: &Dump) -> Option<Verdict>
    ensures { result ≡ count_line dump.now }
{
    if are_counts(dump) {
        None
    } else {
        Some(Verdict::Count)
    }
}

// The first line that holds of a dump whose replay ends with these values.
fn replayed_line<F: Functions<Core>>(
    alloc: Global,
    funs: &F,
    dump: &Dump,
    state: &PlainState,
) -> Result<Option<Verdict>, AllocError>
    requires core { HasCore (F.knows funs.now) }
    requires dump { IsOfCore dump.now }
    ensures { IfOk result (λ line. line ≡ replay_line dump.now (Ok state.now)) }
{
    if let Some(line) = value_line(dump, state) {
        return Ok(Some(line));
    }
    if let Some(line) = rule_line(funs, dump) {
        return Ok(Some(line));
    }
    if let Some(line) = fold_line(alloc, funs, dump)? {
        return Ok(Some(line));
    }
    Ok(count_line(dump))
}

/// The first line that holds of a dump whose functions are those of Core, as in each dump that `read_dump` returns. Linear in the dump
/// and in what its functions cost, but for look-ups.
#[tactic(auto, using(crate::proofs::Needed::nothing_missing))]
pub fn verdict<F: Functions<Core>>(
    alloc: Global,
    funs: &F,
    dump: &Dump,
) -> Result<Verdict, DumpFault>
    requires core { HasCore (F.knows funs.now) }
    requires dump { IsOfCore dump.now }
    requires points { point_after dump.now.base dump.now.entries < 2 ^ 64 }
    ensures ok { IfOk result (λ v. v ≡ verdict dump.now) }
    ensures err { IfErr result (λ f. f ≡ Memory) }
{
    match replay_plain(alloc, funs, &dump.base, &dump.entries) {
        Ok(state) => Ok(replayed_line(alloc, funs, dump, &state)?.unwrap_or(Verdict::Ok)),
        Err(AuditFault::NoSuch(point)) => Ok(Verdict::NoSuch(point)),
        Err(AuditFault::Refuses(point)) => Ok(Verdict::Refuses(point)),
        Err(AuditFault::Answer(point)) => Ok(Verdict::Answer(point)),
        Err(AuditFault::Memory) => Err(DumpFault::Memory),
        // The table has all functions of Core, and the entries call no others.
        Err(AuditFault::NoSuchFun(_)) => unreachable!(),
    }
}
