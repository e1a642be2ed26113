//! Of which kind a value is.
ghost use Rattle.std.specs.Prelude.{◌≡◌};
ghost use Rattle.ref_fun.specs.Kinds.{is_int, is_string, is_vector, is_map, is_set, is_not_nil};

use ref_value::{Node, Value};

pub(crate) fn is_int(value: &Value) -> bool
    ensures { result ≡ is_int value.now }
{
    matches!(value.node(), Node::Int(_))
}

pub(crate) fn is_string(value: &Value) -> bool
    ensures { result ≡ is_string value.now }
{
    matches!(value.node(), Node::Str(_) | Node::ShortStr(_))
}

pub(crate) fn is_vector(value: &Value) -> bool
    ensures { result ≡ is_vector value.now }
{
    matches!(value.node(), Node::Vector(_))
}

pub(crate) fn is_map(value: &Value) -> bool
    ensures { result ≡ is_map value.now }
{
    matches!(value.node(), Node::Map(_))
}

pub(crate) fn is_set(value: &Value) -> bool
    ensures { result ≡ is_set value.now }
{
    matches!(value.node(), Node::Set(_))
}

pub(crate) fn is_not_nil(value: &Value) -> bool
    ensures { result ≡ is_not_nil value.now }
{
    !matches!(value.node(), Node::Nil)
}
