//! Rules that don't accept the value that stands with them.
ghost use Rattle.std.specs.Prelude.{◌≡◌, true};
ghost use Rattle.std.specs.List.{list_all, position_from};
ghost use Rattle.ref_fun.specs.Calls.{HasCore};
ghost use Rattle.ref_verdict.specs.OfCore.{is_agent_rule_of_core, is_kept_of_core};
ghost use Rattle.ref_verdict.specs.Verdict.{agent_breaks_rule, breaks_rule};

use crate::reading::dumps::{Kept, KeptAgent};
use crate::verdicts::core_calls::accepts;
use ref_fun::{Core, Functions};

/// The number of the first ref or atom whose rule doesn't accept its value.
#[tactic(auto, using(crate::proofs::OfCore::all_at))]
pub(crate) fn first_broken_rule<F: Functions<Core>>(funs: &F, kept: &[Kept]) -> Option<u64>
    requires core { HasCore (F.knows funs.now) }
    requires rules { list_all is_kept_of_core kept.now ≡ true }
    ensures { result ≡ position_from breaks_rule 0 kept.now }
{
    for (n, reference) in kept.iter().enumerate() {
        if !accepts(funs, &reference.rule, &reference.value) {
            return Some(n as u64);
        }
    }
    None
}

/// The number of the first agent whose rule doesn't accept its state.
#[tactic(auto, using(crate::proofs::OfCore::all_at))]
pub(crate) fn first_breaking_agent<F: Functions<Core>>(
    funs: &F,
    agents: &[KeptAgent],
) -> Option<u64>
    requires core { HasCore (F.knows funs.now) }
    requires rules { list_all is_agent_rule_of_core agents.now ≡ true }
    ensures { result ≡ position_from agent_breaks_rule 0 agents.now }
{
    for (n, agent) in agents.iter().enumerate() {
        if !accepts(funs, &agent.rule, &agent.value) {
            return Some(n as u64);
        }
    }
    None
}
