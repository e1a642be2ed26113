//! What a reference of each kind has to meet when it is made.
ghost use Rattle.ref_log.specs.Told.{Tells};
ghost use Rattle.std.specs.Prelude.{◌≡◌, ◌≢◌, ◌<◌, ◌≤◌, true, IfErr, OnOk};
ghost use Rattle.ref_fun.specs.Rule.{passes};
ghost use Rattle.ref_log.specs.Make.{make_refusal};
ghost use Rattle.ref_log.specs.declared.faults.MakeFault.TheVariants.{Memory};
ghost use Rattle.ref_log.specs.Limits.{last_point, most_references};

use crate::faults::MakeFault;
use ref_fun::{Functions, Meaning, Rule, check_known, passes};
use ref_value::Value;

/// The last point.
pub const LAST_POINT: u64 = 1 << 62;

/// The most references of one kind.
pub const MOST_REFERENCES: usize = 1 << 20;

/// Checks whether a reference can be made next to `count` others of its kind at this point, with this value and this rule, if
/// any. The caller says whether it would be a tally that can't be one. It takes no memory.
pub fn check_make<M: Meaning, F: Functions<M>>(
    funs: &F,
    count: usize,
    is_bad_tally: bool,
    at: u64,
    start: &Value,
    rule: &Option<Rule>,
) -> Result<(), MakeFault>
    ensures refused { Tells (make_refusal M.accepts
        (F.knows funs.now).preds count is_bad_tally at start.now rule.now) result }
    // What the making goes on with.
    ensures room { OnOk result (count < most_references) }
    ensures accepted { OnOk result (passes M.accepts rule.now start.now ≡ true) }
    ensures limit { OnOk result (at ≤ last_point) }
    ensures told { IfErr result (λ f. f ≢ Memory) }
{
    if let Err(code) = check_known(funs, rule) {
        return Err(MakeFault::NoSuchFun(code));
    }
    if count >= MOST_REFERENCES {
        return Err(MakeFault::Full);
    }
    if is_bad_tally {
        return Err(MakeFault::BadTally);
    }
    if !passes(funs, rule, start) {
        return Err(MakeFault::Invalid);
    }
    if at > LAST_POINT {
        return Err(MakeFault::PointLimit);
    }
    Ok(())
}
