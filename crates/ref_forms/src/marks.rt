//! Error modes, and marks that may be left out.
ghost use Rattle.std.specs.Prelude.{◌≡◌};
ghost use Rattle.ref_forms.specs.Calls.{mode_named, mode_said};
ghost use Rattle.ref_forms.specs.Plain.{mark_said};

use crate::plain::{is_same, is_word, keyword_in};
use ref_agents::ErrorMode;
use ref_value::Value;
use ref_value::vectors::Iter;

/// Whether a mark stands there, and nothing else.
pub fn is_marked(word: &[u8], mut parts: Iter<'_>) -> Option<bool>
    ensures { result ≡ mark_said word.now parts.entry }
{
    match (parts.next(), parts.next()) {
        (None, _) => Some(false),
        (Some(mark), None) if is_word(mark, word) => Some(true),
        _ => None,
    }
}

/// The error mode that a keyword names.
pub fn mode_named(word: &[u8]) -> Option<ErrorMode>
    ensures { result ≡ mode_named word.now }
{
    if is_same(word, b"fail") {
        Some(ErrorMode::Fail)
    } else if is_same(word, b"continue") {
        Some(ErrorMode::Continue)
    } else {
        None
    }
}

/// `:fail` or `:continue`.
pub fn mode_in(form: &Value) -> Option<ErrorMode>
    ensures { result ≡ mode_said form.now }
{
    mode_named(keyword_in(form)?)
}
