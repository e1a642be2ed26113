//! The audit of a world's own dump.
ghost use Rattle.std.specs.Prelude.{◌≡◌, None, Ok, IfOk};
ghost use Rattle.ref_fun.specs.Calls.{HasCore};
ghost use Rattle.ref_log.specs.Told.{TellsOrMemory};
ghost use Rattle.ref_verdict.specs.DumpForm.{dump_of};
ghost use Rattle.ref_audit.specs.Dumped.{dump_refusal, dumped, unnamed_refusal};
ghost use Rattle.ref_audit.specs.OwnDump.{IsTold};
ghost use Rattle.ref_verdict.specs.Verdict.{verdict_on};
ghost use Rattle.ref_audit.specs.declared.faults.DumpMakeFault.TheVariants as faults;
ghost use Rattle.ref_verdict.specs.declared.reports.Verdict.TheVariants as verdicts;

pub(crate) mod parts;
pub(crate) mod references;
pub(crate) mod seen;

use crate::dumping::{tell_few, unnamed_in};
use crate::faults::DumpMakeFault;
use crate::own_audit::parts::tell_entries;
use crate::own_audit::references::{tell_accounts, tell_agents, tell_atoms, tell_refs};
use crate::own_audit::seen::dump_seen;
use ref_fun::{Core, Functions};
use ref_log::Who;
use ref_verdict::Verdict;
use ref_verdict::verdicts::verdict;
use ref_world::World;
use std::alloc::Global;

/// The law of dumps: the verdict on a world's dump is ok, whatever the world went through. It changes nothing and answers nothing, and
/// costs a look at each part of the world.
#[tactic(auto, using(crate::proofs::OwnVerdict::own_ok))]
pub fn own_dump_is_ok(world: &World<Core>)
    ensures { dump_refusal world.now ≡ None → verdict_on (dump_of (dumped world.now)) ≡ Ok verdicts.Ok }
{
    tell(world);
}

/// The verdict on a world's dump, without the dump: what the dump says is taken from the world, and judged as what a dump says is. So it
/// costs the replay and no forms. It is ok by the same law. It is refused where an action in the log's sends or in an agent's account,
/// or what it carries, names a function that Core doesn't have, with the least such code.
pub fn audit_world<F: Functions<Core>>(
    alloc: Global,
    funs: &F,
    world: &World<Core>,
) -> Result<Verdict, DumpMakeFault>
    requires core { HasCore (F.knows funs.now) }
    ensures verdict { IfOk result (λ verdict. verdict_on (dump_of (dumped world.now)) ≡ Ok verdict) }
    ensures ok { IfOk result (λ verdict. verdict ≡ verdicts.Ok) }
    ensures refused { TellsOrMemory faults.Memory (unnamed_refusal world.now) (unnamed_refusal world.now) result }
{
    tell(world);
    if let Some(code) = unnamed_in(world) {
        return Err(DumpMakeFault::Unnamed(code));
    }
    let dump = dump_seen(alloc, world)?;
    match verdict(alloc, funs, &dump) {
        Ok(verdict) => Ok(verdict),
        // Nothing else is refused.
        Err(_) => Err(DumpMakeFault::Memory),
    }
}

// What is always so in a world, and what the types of its parts say, stated of the whole. It changes nothing, and costs a look at each
// part.
fn tell(world: &World<Core>)
    ensures { IsTold world.now }
{
    tell_few(world);
    tell_entries(world.log());
    tell_accounts(world);
    tell_refs(world);
    tell_atoms(world);
    tell_agents(world);
    let _value = world.value_of(Who::Ref(0));
    let _account = world.account(0);
    let _base = world.base();
    let _point = world.point();
    let _commits = world.commits();
    let _added = world.added();
    let _taken = world.taken();
}
