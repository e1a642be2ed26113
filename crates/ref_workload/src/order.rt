//! Whether a world and the refused steps of a run are those of its plan.
ghost use Rattle.std.specs.Prelude.{◌≡◌, IfOk, false, true};
ghost use Rattle.ref_shared.specs.Gather.{InOrder};
ghost use Rattle.ref_workload.specs.Orderly.{IsOrderly};

mod board;
mod entries;
mod named;
mod refusals;
mod start;

use board::Board;
use entries::{is_done, mark_entries, mark_refused};
use ref_audit::Refusal;
use ref_fun::Core;
use ref_plan::Plan;
use ref_world::World;
pub(crate) use refusals::{are_in_order, have_reasons};
use start::is_base;
use std::alloc::{AllocError, Global};

/// Whether this world and these refused steps are what running a plan may end with. The order of the log, which whoever takes a
/// world out of a shared one has compared, is asked of the caller. Linear in the sizes of the plan, the log and the refused
/// steps; it takes a byte for each step of the plan.
pub fn is_orderly(
    alloc: Global,
    plan: &Plan,
    world: &World<Core>,
    refused: &[Refusal],
) -> Result<bool, AllocError>
    requires { InOrder world.now.base.point world.now.log }
    ensures yes { IfOk result (λ b. b ≡ true → IsOrderly plan.now world.now refused.now) }
    // A run of the plan is never reported as none.
    ensures no { IfOk result (λ b. b ≡ false → IsOrderly plan.now world.now refused.now → ⊥) }
{
    let workers = plan.workers();
    let mut board = Board::open(alloc, workers)?;
    if !is_base(plan.start(), world.base()) {
        return Ok(false);
    }
    if world.agent_count() != plan.start().agents.len() {
        return Ok(false);
    }
    if !mark_refused(&mut board, refused) {
        return Ok(false);
    }
    if !mark_entries(&mut board, workers, world.log()) {
        return Ok(false);
    }
    Ok(is_done(&board, workers))
}
