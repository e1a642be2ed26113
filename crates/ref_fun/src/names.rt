//! The codes and names of the functions and predicates of Core.
ghost use Rattle.std.specs.Prelude.{◌≡◌, map, option_copied};
ghost use Rattle.ref_value.specs.Names.{bytes_eq};
ghost use Rattle.ref_fun.specs.Names.{core_names, code_in, name_in, is_function, is_predicate};

use crate::codes::{
    ASSOC, AT_LEAST, AT_MOST, CONJ, DEC, DISJ, DISSOC, EQUALS, INC, IS_INT, IS_MAP, IS_SET,
    IS_SOME, IS_STRING, IS_VECTOR, MAX, MIN, MINUS, PLUS,
};

const NAMES: [(u32, &str); 19] = [
    (PLUS, "+"),
    (MINUS, "-"),
    (INC, "inc"),
    (DEC, "dec"),
    (MAX, "max"),
    (MIN, "min"),
    (CONJ, "conj"),
    (ASSOC, "assoc"),
    (DISSOC, "dissoc"),
    (DISJ, "disj"),
    (AT_LEAST, ">="),
    (AT_MOST, "<="),
    (EQUALS, "="),
    (IS_INT, "int?"),
    (IS_STRING, "string?"),
    (IS_VECTOR, "vector?"),
    (IS_MAP, "map?"),
    (IS_SET, "set?"),
    (IS_SOME, "some?"),
];

/// The code of the function or predicate of Core that has this name.
#[tactic(auto, unfolding(crate::specs::Names::core_names))]
pub fn code_of(name: &[u8]) -> Option<u32>
    ensures { result ≡ code_in core_names name.now }
{
    code_in(&NAMES, name)
}

/// The name of the function or predicate of Core that has this code.
#[tactic(auto, unfolding(crate::specs::Names::core_names))]
pub fn name_of(code: u32) -> Option<&'static str>
    ensures { option_copied result ≡ name_in core_names code }
{
    name_in(&NAMES, code)
}

/// Whether Core has a function of this code.
pub fn is_function(code: u32) -> bool
    ensures { result ≡ is_function code }
{
    PLUS <= code && code <= DISJ
}

/// Whether Core has a predicate of this code.
pub fn is_predicate(code: u32) -> bool
    ensures { result ≡ is_predicate code }
{
    AT_LEAST <= code && code <= IS_SOME
}

fn is_same(a: &[u8], b: &[u8]) -> bool
    ensures { result ≡ bytes_eq a.now b.now }
{
    a == b
}

fn code_in(names: &[(u32, &str)], name: &[u8]) -> Option<u32>
    ensures { result ≡ code_in (map (λ e. (e.0, e.1.now)) names.now) name.now }
{
    for (code, other) in names {
        if is_same(other.as_bytes(), name) {
            return Some(*code);
        }
    }
    None
}

fn name_in(names: &[(u32, &'static str)], code: u32) -> Option<&'static str>
    ensures { option_copied result ≡ name_in (map (λ e. (e.0, e.1.now)) names.now) code }
{
    for (other, name) in names {
        if *other == code {
            return Some(*name);
        }
    }
    None
}
