//! Lists of forms.
ghost use Rattle.std.specs.Prelude.{◌≡◌, ◌≢◌, Option, None, Some, IfErr, IfOk, length};
ghost use Rattle.ref_value.specs.Edn.{Edn};
ghost use Rattle.ref_forms.specs.Plain.{all_said, list_said};
ghost use Rattle.ref_forms.specs.Reading.{Reads};
ghost use Rattle.ref_verdict.specs.DumpForm.{values_said};

use crate::reading::dumps::Version;
use ref_forms::Wrong;
use ref_forms::plain::{elements_in, elements_up_to};
use ref_log::SharedVec;
use ref_value::{Items, Value};
use std::alloc::Global;

/// How many references of a kind a dump may have.
pub const MOST_VALUES: usize = 4_294_967_294;

/// What is read of a form in a list, in a dump of a version.
pub(crate) trait FromForm: Drop {
    ghost use Rattle.ref_verdict.specs.declared.reading.dumps.Version.{Version};

    /// What a form says, if it says something.
    ghost said: { Version → Edn → Option Self };

    fn from_form(alloc: Global, version: Version, form: &Value) -> Result<Self, Wrong>
        ensures { Reads (said version form.now) result };
}

impl FromForm for Value {
    ghost said = { λ _. Some };

    fn from_form(_alloc: Global, _version: Version, form: &Value) -> Result<Value, Wrong> {
        Ok(form.share()?)
    }
}

/// What each of these forms says.
#[tactic(auto, using(ref_forms::specs::Laws::in_front_and_said))]
pub(crate) fn all_in<T: FromForm>(
    alloc: Global,
    version: Version,
    forms: &Items,
) -> Result<Vec<T>, Wrong>
    ensures ok { IfOk result (λ all. all_said (T.said version) forms.now ≡ Some all.items) }
    ensures count { IfOk result (λ all. length all.items ≡ length forms.now) }
    ensures wrong { IfErr result (λ w. w ≢ Wrong.Memory → all_said (T.said version) forms.now ≡ None) }
{
    let mut all = Vec::with_capacity(alloc, forms.len())?;
    for form in forms {
        let said = T::from_form(alloc, version, form)?;
        all.push(said)?;
    }
    Ok(all)
}

fn shared_in<T: FromForm>(
    alloc: Global,
    version: Version,
    forms: &Items,
) -> Result<SharedVec<T>, Wrong>
    ensures { Reads (all_said (T.said version) forms.now) result }
{
    let all = all_in(alloc, version, forms)?;
    Ok(SharedVec::of(alloc, all)?)
}

/// What the forms in a vector say.
pub(crate) fn list_in<T: FromForm>(
    alloc: Global,
    version: Version,
    form: &Value,
) -> Result<SharedVec<T>, Wrong>
    ensures { Reads (list_said (T.said version) form.now) result }
{
    match elements_in(form) {
        Some(forms) => shared_in(alloc, version, forms),
        None => Err(Wrong::Form),
    }
}

/// What the forms of the references of a kind say.
pub(crate) fn values_in<T: FromForm>(
    alloc: Global,
    version: Version,
    form: &Value,
) -> Result<SharedVec<T>, Wrong>
    ensures { Reads (values_said (T.said version) form.now) result }
{
    match elements_up_to(form, MOST_VALUES) {
        Some(forms) => shared_in(alloc, version, forms),
        None => Err(Wrong::Form),
    }
}
