//! Agents whose state isn't their start, folded over their done actions.
ghost use Rattle.std.specs.Prelude.{◌≡◌, true, IfOk};
ghost use Rattle.std.specs.List.{list_all, position_from};
ghost use Rattle.ref_fun.specs.Calls.{HasCore};
ghost use Rattle.ref_fun.specs.Core.{core_means};
ghost use Rattle.ref_fun.specs.Meaning.{Answers};
ghost use Rattle.ref_agents.specs.Account.{after_marked};
ghost use Rattle.ref_verdict.specs.OfCore.{is_account_of_core, is_handled_of_core};
ghost use Rattle.ref_verdict.specs.Verdict.{breaks_fold};

use crate::reading::dumps::KeptAgent;
use crate::verdicts::core_calls::apply;
use ref_agents::accounts::{Handled, Mark};
use ref_fun::{Core, FunFault, Functions};
use ref_value::Value;
use std::alloc::{AllocError, Global};

// The state after an action that ended, by its mark.
fn after_marked<F: Functions<Core>>(
    alloc: Global,
    funs: &F,
    handled: &Handled,
    state: Value,
) -> Result<Value, FunFault>
    requires core { HasCore (F.knows funs.now) }
    requires function { is_handled_of_core handled.now ≡ true }
    ensures { Answers (after_marked core_means handled.now.mark handled.now.action state) result }
{
    match handled.mark {
        Mark::Done => apply(alloc, funs, &handled.action, &state),
        Mark::Failed | Mark::Passed => Ok(state),
    }
}

// Whether an agent's start, folded over its done actions, isn't its state, or one of them refuses.
#[tactic(auto, using(crate::proofs::OfCore::all_at))]
fn breaks_fold<F: Functions<Core>>(
    alloc: Global,
    funs: &F,
    agent: &KeptAgent,
) -> Result<bool, AllocError>
    requires core { HasCore (F.knows funs.now) }
    requires account { is_account_of_core agent.now ≡ true }
    ensures { IfOk result (λ b. b ≡ breaks_fold agent.now) }
{
    let mut state = agent.start.share()?;
    for handled in agent.handled.as_slice() {
        match after_marked(alloc, funs, handled, state) {
            Ok(value) => state = value,
            Err(FunFault::Refused(_)) => return Ok(true),
            Err(FunFault::Memory) => return Err(AllocError),
        }
    }
    Ok(state != agent.value)
}

/// The number of the first such agent.
#[tactic(auto, using(crate::proofs::OfCore::all_at))]
pub(crate) fn first_broken_fold<F: Functions<Core>>(
    alloc: Global,
    funs: &F,
    agents: &[KeptAgent],
) -> Result<Option<u64>, AllocError>
    requires core { HasCore (F.knows funs.now) }
    requires accounts { list_all is_account_of_core agents.now ≡ true }
    ensures { IfOk result (λ n. n ≡ position_from breaks_fold 0 agents.now) }
{
    for (n, agent) in agents.iter().enumerate() {
        if breaks_fold(alloc, funs, agent)? {
            return Ok(Some(n as u64));
        }
    }
    Ok(None)
}
