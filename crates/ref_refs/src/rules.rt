//! What the rules of refs ask of values.
ghost use Rattle.ref_log.specs.Told.{Tells};
ghost use Rattle.std.specs.Prelude.{◌≡◌, ◌≢◌, None, IfErr};
ghost use Rattle.ref_refs.specs.Commit.{first_invalid, lacking_rule, unknown_at};
ghost use Rattle.ref_fun.specs.Rule.{unknown};
ghost use Rattle.ref_log.specs.Guards.{is_accepted_at, rule_at};
ghost use Rattle.ref_refs.specs.Rules.{AreKnown};
ghost use Rattle.ref_refs.specs.declared.faults.CommitFault.TheVariants.{Memory};

use crate::drafts::Draft;
use crate::faults::CommitFault;
use ref_fun::{Functions, Meaning};
use ref_log::{Done, Guards};

// The first rule of a ref that these operations change whose predicate the table lacks.
pub(crate) fn check_rules_known<M: Meaning, F: Functions<M>>(
    funs: &F,
    guards: &Guards,
    dones: &[Done],
) -> Result<(), CommitFault>
    ensures refused { Tells (lacking_rule (F.knows funs.now).preds guards.now dones.now) result }
    ensures told { IfErr result (λ f. f ≢ Memory) }
{
    for done in dones {
        check_rule_known(funs, guards, done)?;
    }
    Ok(())
}

fn check_rule_known<M: Meaning, F: Functions<M>>(
    funs: &F,
    guards: &Guards,
    done: &Done,
) -> Result<(), CommitFault>
    ensures refused { Tells (unknown_at (F.knows funs.now).preds guards.now done.now) result }
    ensures told { IfErr result (λ f. f ≢ Memory) }
{
    if done.op.is_ensure() {
        return Ok(());
    }
    match guards.check_known(funs, done.r) {
        Ok(()) => Ok(()),
        Err(code) => Err(CommitFault::NoSuchFun(code)),
    }
}

// The smallest of these refs whose rule doesn't accept its value. The refs ascend.
pub(crate) fn first_invalid<M: Meaning, F: Functions<M>>(
    funs: &F,
    guards: &Guards,
    refs: &Draft<'_>,
    touched: &[u32],
) -> Option<u32>
    requires { AreKnown (F.knows funs.now).preds guards.now touched.now }
    ensures { result ≡ first_invalid M.accepts guards.now refs.now.values touched.now }
{
    for r in touched {
        if !is_accepted(funs, guards, refs, *r) {
            return Some(*r);
        }
    }
    None
}

// Whether the rule of a ref, if it has one, accepts its value.
fn is_accepted<M: Meaning, F: Functions<M>>(
    funs: &F,
    guards: &Guards,
    refs: &Draft<'_>,
    r: u32,
) -> bool
    requires { unknown (F.knows funs.now).preds (rule_at guards.now r) ≡ None }
    ensures { result ≡ is_accepted_at M.accepts guards.now refs.now.values r }
{
    if guards.rule_of(r).is_none() {
        return true;
    }
    match refs.get(r) {
        Some(value) => guards.accepts(funs, r, value),
        None => true,
    }
}
