//! The number that a value is. It stands outside of the tests, since wrong bodies are tried without them.
ghost use Rattle.std.specs.Prelude.{◌≡◌, IfSome, is_some};
ghost use Rattle.ref_value.specs.Edn.{int};
ghost use Rattle.ref_fun.specs.Kinds.{is_int};

use ref_edn::{Node, Value};

/// The number that a value is, if it is one.
pub fn int_of(value: &Value) -> Option<i64>
    ensures found { is_some result ≡ is_int value.now }
    ensures int { IfSome result (λ n. value.now ≡ int n) }
{
    match value.node() {
        Node::Int(n) => Some(*n),
        _ => None,
    }
}
