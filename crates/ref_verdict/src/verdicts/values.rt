//! Values now and replayed values.
ghost use Rattle.std.specs.Prelude.{◌≡◌};
ghost use Rattle.ref_verdict.specs.Verdict.{first_difference, values_of};

use crate::reading::dumps::Kept;
use ref_value::Value;

/// The first number at which the values differ, or which only one side has.
#[tactic(auto, using(crate::proofs::Differences::difference_here, crate::proofs::Differences::difference_past, crate::proofs::Differences::difference_behind))]
pub(crate) fn first_difference(now: &[Kept], replayed: &[Value]) -> Option<u64>
    ensures { result ≡ first_difference 0 (values_of now.now) replayed.now }
{
    for (n, kept) in now.iter().enumerate() {
        match replayed.get(n) {
            Some(value) if kept.value == *value => {}
            _ => return Some(n as u64),
        }
    }
    if now.len() < replayed.len() {
        Some(now.len() as u64)
    } else {
        None
    }
}
