//! The words of acts.
ghost use Rattle.std.specs.Prelude.{◌≡◌};
ghost use Rattle.ref_events.specs.Acts.{word_said};

use ref_calls::{ActWord, act_named};
use ref_forms::plain::keyword_in;
use ref_value::Value;

/// The act that a keyword names.
pub(crate) fn word_in(form: &Value) -> Option<ActWord>
    ensures { result ≡ word_said form.now }
{
    act_named(keyword_in(form)?)
}
