//! The dump of a world.
ghost use Rattle.ref_log.specs.Told.{TellsOrMemory};
ghost use Rattle.std.specs.Prelude.{IfOk, ◌≡◌};
ghost use Rattle.ref_audit.specs.Dumped.{dump_refusal, dumped, unnamed_refusal};
ghost use Rattle.ref_audit.specs.declared.faults.DumpMakeFault.TheVariants as faults;

pub mod agents;
pub mod entries;
mod few;
pub mod forms;
pub mod maps;
pub mod references;
pub mod unnamed;
pub mod worlds;

use crate::faults::DumpMakeFault;
pub(crate) use few::tell_few;
use maps::{entries_of, map_of, parts_of};
use ref_fun::Core;
use ref_value::Value;
use ref_world::World;
use std::alloc::Global;
pub(crate) use worlds::unnamed_in;

/// The dump of a world: one value that says all that a stranger needs to replay the log and to compare. docs/DUMPS.md shows
/// its form.
///
/// Where an action in the log's sends or in an agent's account, or what it carries, names a function that Core doesn't have, the
/// least such code is reported, and else that the dump would nest deeper than 64. The time is linear in what is dumped; values are shared, not copied.
#[tactic(auto, using(crate::proofs::Dumps::dump_told))]
pub fn dump(alloc: Global, world: &World<Core>) -> Result<Value, DumpMakeFault>
    ensures value { IfOk result (λ v. v ≡ dumped world.now) }
    ensures refused { TellsOrMemory faults.Memory (unnamed_refusal world.now) (dump_refusal world.now) result }
{
    tell_few(world);
    if let Some(code) = unnamed_in(world) {
        return Err(DumpMakeFault::Unnamed(code));
    }
    let parts = parts_of(alloc, world)?;
    let entries = entries_of(alloc, world, parts)?;
    map_of(alloc, entries)
}
