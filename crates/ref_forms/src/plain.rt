//! The plain forms: numbers, keywords, symbols, vectors.
ghost use Rattle.std.specs.Prelude.{◌≡◌, ◌≤◌, ◌<◌, ◌^◌, None, Some, IfNone, IfSome, IsUtf8, length};
ghost use Rattle.ref_value.specs.Edn.{keyword_of, symbol_of};
ghost use Rattle.ref_value.specs.Names.{bytes_eq};
ghost use Rattle.ref_forms.specs.Plain.{elements_of, elements_within, is_word, number_of, stamp_number, tagged_of};

use ref_value::vectors::Iter;
use ref_value::{Items, Node, Value};

/// An integer of 0 or more.
pub fn number_in(form: &Value) -> Option<u64>
    ensures value { result ≡ number_of form.now }
    ensures limit { IfSome result (λ n. n < 2 ^ 63) }
{
    match form.node() {
        Node::Int(n) if *n >= 0 => Some(*n as u64),
        _ => None,
    }
}

/// The number of a worker, an actor or a step.
pub fn stamp_number_in(form: &Value) -> Option<u32>
    ensures { result ≡ stamp_number form.now }
{
    let n = number_in(form)?;
    if n < 4_294_967_296 {
        Some(n as u32)
    } else {
        None
    }
}

/// The bytes of a keyword's name, or `None` for another value.
pub fn keyword_in(form: &Value) -> Option<&[u8]>
    ensures some { IfSome result (λ name. keyword_of form.now ≡ Some name.now) }
    ensures none { IfNone result (keyword_of form.now ≡ None) }
{
    form.node().as_keyword()
}

/// The bytes of a symbol's name, or `None` for another value.
pub fn symbol_in(form: &Value) -> Option<&[u8]>
    ensures some { IfSome result (λ name. symbol_of form.now ≡ Some name.now) }
    ensures none { IfNone result (symbol_of form.now ≡ None) }
    ensures utf8 { IfSome result (λ name. IsUtf8 name.now) }
{
    form.node().as_symbol()
}

/// The elements of a vector, or `None` for another value.
#[tactic(auto, using(crate::specs::Laws::elements_of_vector))]
pub fn elements_in(form: &Value) -> Option<&Items>
    ensures some { IfSome result (λ xs. elements_of form.now ≡ Some xs.now) }
    ensures none { IfNone result (elements_of form.now ≡ None) }
{
    match form.node() {
        Node::Vector(items) => Some(items),
        _ => None,
    }
}

/// A vector of at most so many elements.
pub fn elements_up_to(form: &Value, most: usize) -> Option<&Items>
    ensures some { IfSome result (λ xs. elements_within most form.now ≡ Some xs.now) }
    ensures limit { IfSome result (λ xs. length xs.now ≤ most) }
    ensures none { IfNone result (elements_within most form.now ≡ None) }
{
    let items = elements_in(form)?;
    if items.len() > most {
        return None;
    }
    Some(items)
}

/// The keyword that a vector begins with, and what follows it.
pub fn tagged_in(form: &Value) -> Option<(&[u8], Iter<'_>)>
    ensures some { IfSome result (λ t. tagged_of form.now ≡ Some (t.0.now, t.1)) }
    ensures none { IfNone result (tagged_of form.now ≡ None) }
{
    let mut parts = elements_in(form)?.iter();
    let tag = keyword_in(parts.next()?)?;
    Some((tag, parts))
}

/// Whether these are the same bytes. It is for words: from some sixteen bytes on `==` is faster.
#[tactic(auto, using(crate::specs::Laws::of_another_length))]
pub fn is_same(a: &[u8], b: &[u8]) -> bool
    ensures { result ≡ bytes_eq a.now b.now }
{
    if a.len() != b.len() {
        return false;
    }
    let (mut left, mut right) = (a, b);
    loop {
        let [x, xs @ ..] = left else {
            return right.is_empty();
        };
        let [y, ys @ ..] = right else {
            return false;
        };
        if *x != *y {
            return false;
        }
        left = xs;
        right = ys;
    }
}

/// Whether a value is the keyword of this name.
pub fn is_word(form: &Value, word: &[u8]) -> bool
    ensures { result ≡ is_word word.now form.now }
{
    match keyword_in(form) {
        Some(name) => is_same(name, word),
        None => false,
    }
}
