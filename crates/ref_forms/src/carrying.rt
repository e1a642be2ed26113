//! Sends that carry sends.
ghost use Rattle.std.specs.Prelude.{◌≡◌, ◌≢◌, None, Some, IfErr, IfOk, OnOk, length, ◌≤◌};
ghost use Rattle.ref_forms.specs.Reading.{Reads};
ghost use Rattle.ref_forms.specs.References.{carries_said, carry_said, carrying_said};
ghost use Rattle.ref_fun.specs.Limits.{most_carries};

use crate::calls::Values;
use crate::kinds::Kind;
use crate::plain::elements_in;
use crate::references::{Naming, call_for, call_on};
use crate::wrong::Wrong;
use ref_fun::{Action, Carries, Carry, MOST_CARRIES};
use ref_value::Value;
use ref_value::vectors::Iter;
use std::alloc::Global;

// `[NAME F ARG ..]`.
fn carry_in<D: Naming + Values>(alloc: Global, document: &D, form: &Value) -> Result<Carry, Wrong>
    ensures { Reads (carry_said (D.named document.now) D.is_value form.now) result }
{
    let Some(parts) = elements_in(form) else {
        return Err(Wrong::Form);
    };
    match call_on(alloc, document, Kind::Agent, parts.iter()) {
        Ok((g, action)) => Ok(Carry {
            g,
            code: action.code,
            args: action.args,
        }),
        Err(wrong) => Err(wrong),
    }
}

// 1 to 8 of them. A wrong form of any comes first, then a wrong name, then a wrong function.
#[tactic(auto, using(crate::specs::Laws::known_more))]
fn carries_in<D: Naming + Values>(
    alloc: Global,
    document: &D,
    forms: Iter<'_>,
) -> Result<Vec<Carry>, Wrong>
    ensures ok { IfOk result (λ carries.
        carries_said (D.named document.now) D.is_value forms.entry ≡ Some carries.items) }
    ensures few { IfOk result (λ carries. length carries.items ≤ most_carries) }
    ensures wrong { IfErr result (λ w. w ≢ Wrong.Memory →
        carries_said (D.named document.now) D.is_value forms.entry ≡ None) }
{
    let mut carries = Vec::new(alloc);
    let mut worst = None;
    let mut seen = 0;
    for form in forms {
        if seen >= MOST_CARRIES {
            return Err(Wrong::Form);
        }
        seen += 1;
        match carry_in(alloc, document, form) {
            Ok(carry) => carries.push(carry)?,
            Err(wrong) => worst = Some(wrong.worse(worst)),
        }
    }
    match worst {
        None if seen > 0 => Ok(carries),
        None => Err(Wrong::Form),
        Some(wrong) => Err(wrong),
    }
}

/// `NAME [F ARG ..] [NAME F ARG ..] ..`: an action for an agent, and the sends that it carries, 1 to 8. A wrong form of any of them
/// comes first, then a wrong name, then a wrong function.
pub fn carrying_on<D: Naming + Values>(
    alloc: Global,
    document: &D,
    mut parts: Iter<'_>,
) -> Result<(u32, Action), Wrong>
    ensures { Reads (carrying_said (D.named document.now) D.is_value parts.entry) result }
{
    let (Some(subject), Some(call)) = (parts.next(), parts.next()) else {
        return Err(Wrong::Form);
    };
    let Some(call) = elements_in(call) else {
        return Err(Wrong::Form);
    };
    let send = call_for(alloc, document, Kind::Agent, subject, call.iter());
    match (send, carries_in(alloc, document, parts)) {
        (Ok((agent, action)), Ok(carries)) => {
            let carries = Carries::of(alloc, carries)?;
            let action = Action {
                code: action.code,
                args: action.args,
                carries,
            };
            Ok((agent, action))
        }
        (Err(wrong), Ok(_)) | (Ok(_), Err(wrong)) => Err(wrong),
        (Err(wrong), Err(other)) => Err(wrong.worse(Some(other))),
    }
}
