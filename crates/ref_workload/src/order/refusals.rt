//! The order of the refused steps, and their reasons.
ghost use Rattle.std.specs.Prelude.{◌≡◌, ◌↔◌, IsTrue, None, false, true};
ghost use Rattle.ref_workload.specs.Orderly.{comes_after, rise_after};
ghost use Rattle.ref_workload.specs.Reasons.{HasReason, HaveReasons, can_refuse, can_refuse_reset, can_refuse_restart, can_refuse_rule, can_refuse_send, can_refuse_swap, can_refuse_tx};

use ref_audit::{Reason, Refusal};
use ref_log::{SharedVec, Stamp};
use ref_plan::Step;

/// Whether refused steps stand by worker, then step. Linear in their number.
pub(crate) fn are_in_order(refused: &[Refusal]) -> bool
    ensures { result ≡ rise_after None refused.now }
{
    let mut last = None;
    for refusal in refused {
        if !comes_after(last, refusal.stamp) {
            return false;
        }
        last = Some(refusal.stamp);
    }
    true
}

fn comes_after(last: Option<Stamp>, stamp: Stamp) -> bool
    ensures { result ≡ comes_after last stamp }
{
    match last {
        None => true,
        Some(last) => {
            last.worker < stamp.worker || (last.worker == stamp.worker && last.step < stamp.step)
        }
    }
}

/// Whether each refusal is of a step that can be refused for its reason. Linear in their number.
pub(crate) fn have_reasons(workers: &[SharedVec<Step>], refused: &[Refusal]) -> bool
    ensures yes { result ≡ true → HaveReasons workers.now refused.now }
    ensures no { result ≡ false → HaveReasons workers.now refused.now → ⊥ }
{
    for refusal in refused {
        if !has_reason(workers, *refusal) {
            return false;
        }
    }
    true
}

fn has_reason(workers: &[SharedVec<Step>], refusal: Refusal) -> bool
    ensures { IsTrue result ↔ HasReason workers.now refusal }
{
    let Some(steps) = workers.get(refusal.stamp.worker as usize) else {
        return false;
    };
    match steps.get(refusal.stamp.step as usize) {
        Some(step) => can_refuse(step, refusal.reason),
        None => false,
    }
}

fn can_refuse(step: &Step, reason: Reason) -> bool
    ensures { result ≡ can_refuse step.now reason }
{
    match step {
        Step::Tx(_) => can_refuse_tx(reason),
        Step::Swap(..) => can_refuse_swap(reason),
        Step::Reset(..) | Step::CompareAndSet(..) => can_refuse_reset(reason),
        Step::Send(_) => can_refuse_send(reason),
        Step::Restart(..) => can_refuse_restart(reason),
        Step::Mode(..) => false,
        Step::Validator(..) => can_refuse_rule(reason),
    }
}

fn can_refuse_tx(reason: Reason) -> bool
    ensures { result ≡ can_refuse_tx reason }
{
    !matches!(reason, Reason::AgentFailed | Reason::NotFailed)
}

fn can_refuse_swap(reason: Reason) -> bool
    ensures { result ≡ can_refuse_swap reason }
{
    matches!(
        reason,
        Reason::Refused(_) | Reason::Invalid | Reason::PointLimit
    )
}

fn can_refuse_reset(reason: Reason) -> bool
    ensures { result ≡ can_refuse_reset reason }
{
    matches!(reason, Reason::Invalid | Reason::PointLimit)
}

fn can_refuse_send(reason: Reason) -> bool
    ensures { result ≡ can_refuse_send reason }
{
    matches!(reason, Reason::AgentFailed)
}

fn can_refuse_restart(reason: Reason) -> bool
    ensures { result ≡ can_refuse_restart reason }
{
    matches!(reason, Reason::NotFailed | Reason::Invalid)
}

fn can_refuse_rule(reason: Reason) -> bool
    ensures { result ≡ can_refuse_rule reason }
{
    matches!(reason, Reason::Invalid)
}
