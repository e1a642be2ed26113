//! The forms of refs and atoms.
ghost use Rattle.std.specs.Prelude.{◌≡◌, ◌∷◌, [], length, IfErr, IfOk, IsOk, option_copied};
ghost use Rattle.ref_value.specs.Edn.{nesting};
ghost use Rattle.ref_audit.specs.Dumped.{base_refs_form, folded_form, tally_form};
ghost use Rattle.ref_audit.specs.Made.{IsMakeFault};
ghost use Rattle.ref_verdict.specs.Words.{number_form, rule_form, vector_form};

use crate::dumping::forms::{nil, number, rule, vector_of};
use crate::faults::DumpMakeFault;
use ref_fun::Rule;
use ref_log::Base;
use ref_value::Value;
use std::alloc::{AllocError, Global};

// The refs of the base, with the points of their last changes.
#[tactic(auto, using(crate::proofs::Depths::make_faults))]
pub(crate) fn base_refs(alloc: Global, base: &Base) -> Result<Value, DumpMakeFault>
    requires { length base.now.last ≡ length base.now.refs }
    ensures made { IfOk result (λ v. v ≡ base_refs_form base.now) }
    ensures fault { IfErr result (IsMakeFault (nesting (base_refs_form base.now))) }
{
    let refs = base.refs.as_slice();
    let lasts = base.last.as_slice();
    let mut forms = Vec::with_capacity(alloc, refs.len())?;
    for i in 0..refs.len() {
        forms.push(base_ref(alloc, &refs[i], lasts[i])?)?;
    }
    vector_of(alloc, forms)
}

#[tactic(auto, using(crate::proofs::Depths::make_faults))]
fn base_ref(alloc: Global, value: &Value, last: u64) -> Result<Value, DumpMakeFault>
    ensures made { IfOk result (λ v. v ≡ vector_form (value.now ∷ number_form last ∷ [])) }
    ensures fault { IfErr result (IsMakeFault (nesting (vector_form (value.now ∷ number_form last ∷ [])))) }
{
    let value = value.share()?;
    let last = number(last)?;
    vector_of(alloc, vec![in alloc; value, last]?)
}

// What was committed, added and taken up to the base.
#[tactic(auto, using(crate::proofs::Depths::make_faults))]
pub(crate) fn folded(alloc: Global, base: &Base) -> Result<Value, DumpMakeFault>
    ensures made { IfOk result (λ v. v ≡ folded_form base.now) }
    ensures fault { IfErr result (IsMakeFault (nesting (folded_form base.now))) }
{
    let commits = number(base.commits)?;
    let added = number(base.added)?;
    let taken = number(base.taken)?;
    vector_of(alloc, vec![in alloc; commits, added, taken]?)
}

pub(crate) fn tally(base: &Base) -> Result<Value, AllocError>
    ensures value { IfOk result (λ v. v ≡ tally_form base.now.tally) }
    ensures always { IsOk result }
{
    match base.tally {
        Some(r) => number(u64::from(r)),
        None => Ok(nil()),
    }
}

// A value now, with the rule of its reference.
#[tactic(auto, using(crate::proofs::Depths::make_faults))]
pub(crate) fn value_now(
    alloc: Global,
    value: &Value,
    by: Option<&Rule>,
) -> Result<Value, DumpMakeFault>
    ensures made { IfOk result (λ v. v ≡ vector_form (value.now ∷ rule_form (option_copied by.entry) ∷ [])) }
    ensures fault { IfErr result (IsMakeFault (nesting (vector_form
        (value.now ∷ rule_form (option_copied by.entry) ∷ [])))) }
{
    let value = value.share()?;
    let rule = rule(alloc, by)?;
    vector_of(alloc, vec![in alloc; value, rule]?)
}
