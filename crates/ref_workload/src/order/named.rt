//! Whether a transaction did what the text of a step names.
ghost use Rattle.std.specs.Prelude.{◌≡◌, ◌≢◌, ◌≤◌, ◌↔◌, ◌∷◌, IfSome, IsNone, IsTrue, List, drop, length};
ghost use Rattle.std.specs.List.{filter_map};
ghost use Rattle.ref_plan.specs.declared.plans.PlannedOp.{PlannedOp};
ghost use Rattle.ref_workload.specs.Orderly.{IsNamedBy, asked, op_named, send_named};

use ref_log::{Done, Same, Sent, Transaction};
use ref_plan::PlannedOp;

// Whether operations and sends are those that are named, in order.
pub(crate) fn is_named(ops: &[PlannedOp], transaction: &Transaction) -> bool
    ensures { IsTrue result ↔ IsNamedBy ops.now transaction.now }
{
    are_dones_named(ops, transaction.dones.as_slice())
        && are_sends_named(ops, transaction.sends.as_slice())
}

fn are_dones_named(ops: &[PlannedOp], dones: &[Done]) -> bool
    ensures { IsTrue result ↔ (asked dones.now ≡ filter_map op_named ops.now) }
{
    let mut at = 0;
    for op in ops {
        match after_done(op, dones, at) {
            Some(next) => at = next,
            None => return false,
        }
    }
    at == dones.len()
}

// The place behind an operation, where it was made at this one; a requirement and a send leave the place.
fn after_done(op: &PlannedOp, dones: &[Done], at: usize) -> Option<usize>
    requires { at ≤ length dones.now }
    ensures within { IfSome result (λ next. next ≤ length dones.now) }
    ensures made { (more : List PlannedOp) → IfSome result (λ next.
        (asked (drop at dones.now) ≡ filter_map op_named (op.now ∷ more))
        ↔ (asked (drop next dones.now) ≡ filter_map op_named more)) }
    ensures missing { (more : List PlannedOp) → IsNone result
        → asked (drop at dones.now) ≢ filter_map op_named (op.now ∷ more) }
{
    let PlannedOp::On(r, op) = op else {
        return Some(at);
    };
    let done = dones.get(at)?;
    if done.r != *r || !done.op.is_same(op) {
        return None;
    }
    Some(at + 1)
}

fn are_sends_named(ops: &[PlannedOp], sends: &[Sent]) -> bool
    ensures { IsTrue result ↔ (sends.now ≡ filter_map send_named ops.now) }
{
    let mut at = 0;
    for op in ops {
        match after_send(op, sends, at) {
            Some(next) => at = next,
            None => return false,
        }
    }
    at == sends.len()
}

fn after_send(op: &PlannedOp, sends: &[Sent], at: usize) -> Option<usize>
    requires { at ≤ length sends.now }
    ensures within { IfSome result (λ next. next ≤ length sends.now) }
    ensures made { (more : List PlannedOp) → IfSome result (λ next.
        (drop at sends.now ≡ filter_map send_named (op.now ∷ more))
        ↔ (drop next sends.now ≡ filter_map send_named more)) }
    ensures missing { (more : List PlannedOp) → IsNone result
        → drop at sends.now ≢ filter_map send_named (op.now ∷ more) }
{
    let PlannedOp::Send(named) = op else {
        return Some(at);
    };
    let sent = sends.get(at)?;
    if !sent.is_same(named) {
        return None;
    }
    Some(at + 1)
}
