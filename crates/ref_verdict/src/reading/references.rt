//! References: their values, rules and accounts.
ghost use Rattle.std.specs.Prelude.{◌≡◌, None, Some};
ghost use Rattle.ref_verdict.specs.DumpForm.{agent_of, agent_said, changed_of, kept_of, status_of, status_said};
ghost use Rattle.ref_forms.specs.Reading.{Reads};

use crate::reading::dumps::{Changed, Kept, KeptAgent, Version};
use crate::reading::lists::{FromForm, list_in};
use ref_forms::calls::rule_in;
use ref_forms::plain::{elements_in, is_same, keyword_in, number_in};
use ref_forms::{AnyValue, Wrong};
use ref_value::Value;
use ref_value::vectors::Iter;
use std::alloc::Global;

// `[VALUE LAST]`
impl FromForm for Changed {
    ghost said = { λ _. changed_of };

    fn from_form(_alloc: Global, _version: Version, form: &Value) -> Result<Changed, Wrong> {
        let Some(forms) = elements_in(form) else {
            return Err(Wrong::Form);
        };
        let mut parts = forms.iter();
        let (Some(value), Some(last), None) = (parts.next(), parts.next(), parts.next()) else {
            return Err(Wrong::Form);
        };
        match number_in(last) {
            Some(last) => Ok(Changed {
                value: value.share()?,
                last,
            }),
            None => Err(Wrong::Form),
        }
    }
}

// `[VALUE RULE]`
impl FromForm for Kept {
    ghost said = { λ _. kept_of };

    fn from_form(alloc: Global, _version: Version, form: &Value) -> Result<Kept, Wrong> {
        let Some(forms) = elements_in(form) else {
            return Err(Wrong::Form);
        };
        let mut parts = forms.iter();
        let (Some(value), Some(rule), None) = (parts.next(), parts.next(), parts.next()) else {
            return Err(Wrong::Form);
        };
        match rule_in::<AnyValue>(alloc, rule) {
            Ok(rule) => Ok(Kept {
                value: value.share()?,
                rule,
            }),
            Err(wrong) => Err(wrong),
        }
    }
}

fn status_named(status: &[u8]) -> Option<bool>
    ensures { result ≡ status_said status.now }
{
    if is_same(status, b"ready") {
        Some(false)
    } else if is_same(status, b"failed") {
        Some(true)
    } else {
        None
    }
}

// Whether an agent is failed.
fn status_in(form: &Value) -> Option<bool>
    ensures { result ≡ status_of form.now }
{
    status_named(keyword_in(form)?)
}

// `START HANDLED QUEUE VALUE STATUS RULE`
fn agent_in(alloc: Global, version: Version, mut parts: Iter<'_>) -> Result<KeptAgent, Wrong>
    ensures { Reads (agent_said version parts.entry) result }
{
    let (Some(start), Some(handled), Some(queue), Some(value)) = (
        parts.next(),
        parts.next(),
        parts.next(),
        parts.next(),
    ) else {
        return Err(Wrong::Form);
    };
    let (Some(status), Some(rule), None) = (parts.next(), parts.next(), parts.next()) else {
        return Err(Wrong::Form);
    };
    let Some(failed) = status_in(status) else {
        return Err(Wrong::Form);
    };
    match (
        list_in(alloc, version, handled),
        list_in(alloc, version, queue),
        rule_in::<AnyValue>(alloc, rule),
    ) {
        (Ok(handled), Ok(queue), Ok(rule)) => Ok(KeptAgent {
            start: start.share()?,
            handled,
            queue,
            value: value.share()?,
            failed,
            rule,
        }),
        (Err(wrong), _, _) => Err(wrong),
        (_, Err(wrong), _) => Err(wrong),
        (_, _, Err(wrong)) => Err(wrong),
    }
}

impl FromForm for KeptAgent {
    ghost said = { agent_of };

    fn from_form(alloc: Global, version: Version, form: &Value) -> Result<KeptAgent, Wrong> {
        match elements_in(form) {
            Some(forms) => agent_in(alloc, version, forms.iter()),
            None => Err(Wrong::Form),
        }
    }
}
