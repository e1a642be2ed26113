//! Maps with keywords as keys.
ghost use Rattle.std.specs.List.{list_any};
ghost use Rattle.std.specs.Option.{option_copied};
ghost use Rattle.std.specs.Prelude.{◌≡◌, None, Some, IfNone, IfSome, [], false, length, map, true};
ghost use Rattle.ref_forms.specs.Plain.{are_known, elements, forms_under, is_vector_or_none, is_word, map_said, under};

use crate::plain::{elements_in, is_word};
use ref_value::{Entries, Items, Node, Value};

/// What stands under a keyword.
pub fn under<'a>(entries: &'a Entries, word: &[u8]) -> Option<&'a Value>
    ensures { option_copied result ≡ under entries.now word.now }
{
    for (key, value) in entries {
        if is_word(key, word) {
            return Some(value);
        }
    }
    None
}

fn is_one_of(key: &Value, words: &[&str]) -> bool
    ensures { result ≡ list_any (λ word. is_word word key.now) (map (λ w. w.now) words.now) }
{
    for word in words {
        if is_word(key, word.as_bytes()) {
            return true;
        }
    }
    false
}

/// Whether each key is one of these words.
#[tactic(auto, unfolding(crate::specs::Plain::are_known))]
pub fn are_known(entries: &Entries, words: &[&str]) -> bool
    ensures { result ≡ are_known (map (λ w. w.now) words.now) entries.now }
{
    for (key, _) in entries {
        if !is_one_of(key, words) {
            return false;
        }
    }
    true
}

/// The entries of a map, or `None` for another value.
#[tactic(auto, using(crate::specs::Laws::map_said_of))]
pub fn map_in(form: &Value) -> Option<&Entries>
    ensures some { IfSome result (λ es. map_said form.now ≡ Some es.now) }
    ensures none { IfNone result (map_said form.now ≡ None) }
{
    match form.node() {
        Node::Map(entries) => Some(entries),
        _ => None,
    }
}

/// The elements of a part that is a vector, or is left out.
pub fn vector_under<'a>(entries: &'a Entries, word: &[u8]) -> Option<Option<&'a Items>>
    ensures forms { IfSome result (λ xs. elements (option_copied xs) ≡ forms_under entries.now word.now) }
    ensures some { IfSome result (λ _. is_vector_or_none (under entries.now word.now) ≡ true) }
    ensures none { IfNone result (is_vector_or_none (under entries.now word.now) ≡ false) }
{
    match under(entries, word) {
        None => Some(None),
        Some(value) => Some(Some(elements_in(value)?)),
    }
}

/// How many elements such a part has.
pub fn count(part: Option<&Items>) -> usize
    ensures { result ≡ length (elements (option_copied part.entry)) }
{
    match part {
        Some(forms) => forms.len(),
        None => 0,
    }
}

/// The elements of such a part: none, where it is left out.
pub fn forms_of<'a>(part: Option<&'a Items>, empty: &'a Items) -> &'a Items
    requires { empty.now ≡ [] }
    ensures { result.now ≡ elements (option_copied part.entry) }
{
    match part {
        Some(forms) => forms,
        None => empty,
    }
}
