//! Values from their texts and back, and what is in them.
ghost use Rattle.std.specs.Prelude.{◌≡◌, IfOk, IfSome, option_copied};
ghost use Rattle.std.specs.String.{string_bytes};
ghost use Rattle.ref_edn.specs.Grammar.{IsText};
ghost use Rattle.ref_edn.specs.Printed.{printed};
ghost use Rattle.ref_program.specs.Values.{counted, got, int_in};
ghost use Rattle.ref_value.specs.Edn.{int};

use crate::faults::Fault;
use ref_edn::{Node, Value, print, read_one};
use ref_fun::Keyword;
use std::alloc::Global;

/// A value from its EDN text.
pub fn edn(alloc: Global, text: &str) -> Result<Value, Fault>
    ensures { IfOk result (λ v. IsText text.now v) }
{
    Ok(read_one(alloc, text.as_bytes())?)
}

/// The EDN text of a value.
pub fn text(alloc: Global, value: &Value) -> Result<String, Fault>
    ensures { IfOk result (λ t. string_bytes t ≡ printed value.now) }
{
    let mut bytes = Vec::new(alloc);
    print(alloc, value, &mut bytes)?;
    String::from_utf8(bytes).ok().ok_or(Fault::Memory)
}

/// A keyword by its name, without the colon.
pub fn keyword(name: &str) -> Result<Keyword<'_>, Fault>
    ensures { IfOk result (λ k. k.name.now ≡ name.now) }
{
    Keyword::new(name).ok_or(Fault::BadName)
}

/// The integer that a value is; None for another value.
pub fn int_of(value: &Value) -> Option<i64>
    ensures some { IfSome result (λ n. value.now ≡ int n) }
    ensures value { result ≡ int_in value.now }
{
    match value.node() {
        Node::Int(n) => Some(*n),
        _ => None,
    }
}

/// What a map has for a key, as Clojure's `get`; None also where it is no map.
#[tactic(auto, using(crate::proofs::Members::got_map))]
pub fn get<'a>(map: &'a Value, key: &Value) -> Option<&'a Value>
    ensures { option_copied result ≡ got map.now key.now }
{
    match map.node() {
        Node::Map(entries) => entries.get(key),
        _ => None,
    }
}

/// How many members a collection has, as Clojure's `count`; 0 of what is none.
#[tactic(auto, using(crate::proofs::Members::counted_vector, crate::proofs::Members::counted_map, crate::proofs::Members::counted_set))]
pub fn count(value: &Value) -> usize
    ensures { result ≡ counted value.now }
{
    match value.node() {
        Node::Vector(items) => items.len(),
        Node::Map(entries) => entries.len(),
        Node::Set(elements) => elements.len(),
        _ => 0,
    }
}
