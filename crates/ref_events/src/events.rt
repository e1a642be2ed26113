//! The events of a list.
ghost use Rattle.std.specs.Prelude.{◌≡◌, ◌≢◌, ◌≤◌, None, Some, IfErr, IfOk, length, nat_le};
ghost use Rattle.ref_value.specs.Edn.{nesting};
ghost use Rattle.ref_events.specs.Acts.{event_said, events_said, most_nested_event, parts_said};
ghost use Rattle.ref_events.specs.Documents.{most_events};
ghost use Rattle.ref_forms.specs.Reading.{Reads};

use crate::acts::act_in;
use crate::faults::ScriptFault;
use crate::references::EventNames;
use crate::words::word_in;
use ref_forms::Wrong;
use ref_forms::plain::{elements_in, stamp_number_in};
use ref_fun::MOST_NESTED_RESULT;
use ref_log::Stamp;
use ref_play::Event;
use ref_value::vectors::Iter;
use ref_value::{Items, Value};
use std::alloc::Global;

/// How deep an event may be nested: a value in it is nested no deeper than one of a workload.
pub const MOST_NESTED_EVENT: u8 = MOST_NESTED_RESULT + 1;

fn is_shallow(form: &Value) -> bool
    ensures { result ≡ nat_le (nesting form.now) most_nested_event }
{
    form.depth() <= MOST_NESTED_EVENT
}

// `ACTOR ACT ARG ..`, as the event of this number.
fn parts_in(
    alloc: Global,
    names: &EventNames<'_>,
    number: u32,
    mut parts: Iter<'_>,
) -> Result<Event, Wrong>
    ensures { Reads (parts_said names.now number parts.entry) result }
{
    let (Some(actor), Some(word)) = (parts.next(), parts.next()) else {
        return Err(Wrong::Form);
    };
    let (Some(actor), Some(word)) = (stamp_number_in(actor), word_in(word)) else {
        return Err(Wrong::Form);
    };
    let stamp = Stamp {
        worker: actor,
        step: number,
    };
    match act_in(alloc, names, stamp, word, parts) {
        Ok(act) => Ok(Event { actor, act }),
        Err(wrong) => Err(wrong),
    }
}

// What a form says as the event of this number.
fn event_in(
    alloc: Global,
    names: &EventNames<'_>,
    number: u32,
    form: &Value,
) -> Result<Event, Wrong>
    ensures { Reads (event_said names.now number form.now) result }
{
    if !is_shallow(form) {
        return Err(Wrong::Form);
    }
    match elements_in(form) {
        Some(parts) => parts_in(alloc, names, number, parts.iter()),
        None => Err(Wrong::Form),
    }
}

fn fault_of(wrong: Wrong, number: u32) -> ScriptFault
    ensures { result ≢ ScriptFault.Memory → wrong ≢ Wrong.Memory }
{
    match wrong {
        Wrong::Form => ScriptFault::BadEvent(number),
        Wrong::Name => ScriptFault::UnknownName(number),
        Wrong::Function => ScriptFault::UnknownFun(number),
        Wrong::Memory => ScriptFault::Memory,
    }
}

/// What these forms say.
pub(crate) fn events_in(
    alloc: Global,
    names: &EventNames<'_>,
    forms: &Items,
) -> Result<Vec<Event>, ScriptFault>
    requires { length forms.now ≤ most_events }
    ensures ok { IfOk result (λ events. events_said names.now 0 forms.now ≡ Some events.items) }
    ensures none { IfErr result (λ f. f ≢ ScriptFault.Memory → events_said names.now 0 forms.now ≡ None) }
{
    let mut events = Vec::with_capacity(alloc, forms.len())?;
    for i in 0..forms.len() {
        let number = i as u32;
        match event_in(alloc, names, number, forms.at(i)) {
            Ok(event) => events.push(event)?,
            Err(wrong) => return Err(fault_of(wrong, number)),
        }
    }
    Ok(events)
}
