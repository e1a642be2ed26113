//! Workloads as plans.
ghost use Rattle.std.specs.Prelude.{◌≡◌, ◌≢◌, IfOk, IfErr};
ghost use Rattle.ref_plan.specs.Plan.{PlanSeen};
ghost use Rattle.ref_plan.specs.Workload.{HasForm, IsWorkload};

use crate::plan_faults::PlanFault;
use crate::planning::declarations::declarations;
use crate::planning::parts::parts_of;
use crate::planning::steps::workers;
use crate::plans::Plan;
use ref_forms::maps::{forms_of, map_in};
use ref_value::{Items, Value};
use std::alloc::Global;

/// The plan that a value says, where it is a workload: docs/WORKLOADS.md has the form. It takes time in proportion to the value; a
/// name is looked up by its hash, whose seed are all names together, so that they can't be chosen to have one hash. The plan shares
/// values with the value that it is made of, and copies none.
///
/// Of what is wrong the first is returned, in the order that [`PlanFault`] names; which one it is, no contract says. Keys, version and
/// limits are asked before any memory is taken.
pub fn plan(alloc: Global, value: &Value) -> Result<Plan, PlanFault>
    ensures ok { IfOk result (λ p. IsWorkload value.now p) }
    // What is refused, for another reason than memory, is no workload.
    ensures none { IfErr result (λ f. f ≢ PlanFault.Memory → (p : PlanSeen) → IsWorkload value.now p → ⊥) }
    ensures memory { IfErr result (λ f. f ≡ PlanFault.Memory → HasForm value.now) }
{
    let Some(entries) = map_in(value) else {
        return Err(PlanFault::NotWorkload);
    };
    let parts = parts_of(entries)?;
    let empty = Items::of(alloc, Vec::new(alloc))?;
    let refs = forms_of(parts.refs, &empty);
    let atoms = forms_of(parts.atoms, &empty);
    let agents = forms_of(parts.agents, &empty);
    let forms = forms_of(parts.workers, &empty);
    let (declared, start) = declarations(alloc, refs, atoms, agents, true)?;
    match workers(alloc, parts.version, &declared, forms) {
        Ok(workers) => Ok(Plan::of(declared.into_names(), start, workers, parts.pool)),
        Err(fault) => Err(fault),
    }
}
