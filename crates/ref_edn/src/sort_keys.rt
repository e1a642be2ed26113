//! Values with a number by which most of them differ: what a sort looks at first.
ghost use Rattle.std.specs.Prelude.{◌≡◌, get_or};
ghost use Rattle.ref_value.specs.Edn.{Edn, text_of};
ghost use Rattle.ref_value.specs.Order.{edn_cmp, rank as rank_of};
ghost use Rattle.ref_edn.specs.SortKeys.{AreBytes, spelled, int_key as int_key_of, sort_key};
ghost use Rattle.ref_value.specs.View.{edn};

use ref_value::order::{compare, rank};
use ref_value::{Node, Value};
use std::cmp::Ordering;
use std::marker::Model;

/// A value with its sort key: its kind and an integer, or the first seven bytes of its text, as one number. Most integers
/// and texts differ there, so that a sort seldom looks at the values, and at texts, which lie elsewhere in memory.
/// Contracts see the value.
#[derive(Drop)]
pub(crate) struct Keyed {
    key: u64,
    value: Value,
}

impl Model for Keyed {
    ghost use Rattle.std.specs.Prelude.{◌≡◌};
    ghost use Rattle.ref_value.specs.Edn.{Edn, text_of};
    ghost use Rattle.ref_value.specs.Code.{edn_code};
    ghost use Rattle.ref_edn.specs.SortKeys.{AreBytes, sort_key};

    ghost Value = { Edn };

    ghost coded = { edn_code };

    ghost view = { λ a. a.value };

    ghost invariant = { λ a. (a.key ≡ sort_key a.value) × AreBytes (text_of a.value) };
}

impl Keyed {
    pub(crate) fn of(value: Value) -> Keyed
        ensures { result ≡ value }
    {
        let key = key_of(value.node());
        Keyed { key, value }
    }

    pub(crate) fn into_value(self) -> Value
        ensures { result ≡ self }
    {
        self.value
    }

    fn compare(&self, other: &Keyed) -> Ordering
        ensures { result ≡ edn_cmp self.now other.now }
    {
        if self.key < other.key {
            Ordering::Less
        } else if self.key > other.key {
            Ordering::Greater
        } else {
            compare(&self.value, &other.value)
        }
    }
}

fn key_of(node: &Node) -> u64
    ensures value { result ≡ sort_key (edn node.now) }
    ensures bytes { AreBytes (text_of (edn node.now)) }
{
    match node {
        Node::Int(n) => int_key(*n),
        _ => spell(rank(node), node.text()),
    }
}

// The number of 0 among the numbers of values.
const ZERO: u64 = 180_143_985_094_819_840;

// How far from 0 integers have numbers of their own.
const FARTHEST: u64 = 36_028_797_018_963_967;

// The kind of integers as the first of eight bytes, and behind it the integer, as far as seven bytes hold it.
fn int_key(n: i64) -> u64
    ensures { result ≡ int_key_of n }
{
    if n < 0 {
        ZERO - 1 - (n.unsigned_abs() - 1).min(FARTHEST)
    } else {
        ZERO + n.unsigned_abs().min(FARTHEST)
    }
}

fn byte_or_0(text: &[u8], i: usize) -> u8
    ensures { result ≡ get_or text.now i 0 }
{
    if i < text.len() { text[i] } else { 0 }
}

// The first seven bytes of a text behind a number of one byte, as one number.
fn spell(kind: u8, text: &[u8]) -> u64
    ensures value { result ≡ spelled 7 kind text.now }
    ensures bytes { AreBytes text.now }
{
    let mut key = u64::from(kind);
    for i in 0..7 {
        key = key * 256 + u64::from(byte_or_0(text, i));
    }
    key
}

impl Ord for Keyed {
    ghost use Rattle.ref_value.specs.Order.{edn_cmp};
    ghost use Rattle.ref_value.specs.OrderLaws.{edn_cmp_total};
    ghost use Rattle.std.specs.Prelude.{refl};

    ghost cmp = { edn_cmp };

    ghost total = { edn_cmp_total };

    ghost matches_partial_cmp = { λ x y. refl };

    ghost matches_eq = { λ x y. refl };

    fn cmp(&self, other: &Keyed) -> Ordering {
        self.compare(other)
    }
}

impl PartialOrd for Keyed {
    ghost use Rattle.ref_value.specs.Order.{edn_cmp};
    ghost use Rattle.ref_value.specs.OrderLaws.{edn_cmp_total};
    ghost use Rattle.std.specs.Cmp.{partial_order_from_total};
    ghost use Rattle.std.specs.Ordering.{as_partial_cmp};

    ghost partial_cmp = { as_partial_cmp edn_cmp };

    ghost laws = { partial_order_from_total edn_cmp_total };

    fn partial_cmp(&self, other: &Keyed) -> Option<Ordering> {
        Some(self.compare(other))
    }
}

impl PartialEq for Keyed {
    ghost use Rattle.ref_value.specs.Order.{edn_cmp};
    ghost use Rattle.ref_value.specs.OrderLaws.{edn_cmp_total};
    ghost use Rattle.std.specs.Cmp.{partial_equiv_from_equiv, eq_by_cmp_equiv};
    ghost use Rattle.std.specs.Ordering.{eq_by_cmp};

    ghost eq = { eq_by_cmp edn_cmp };

    ghost laws = { partial_equiv_from_equiv (eq_by_cmp_equiv edn_cmp_total) };

    fn eq(&self, other: &Keyed) -> bool {
        self.compare(other) == Ordering::Equal
    }
}

impl Eq for Keyed {
    ghost use Rattle.ref_value.specs.OrderLaws.{edn_cmp_total};
    ghost use Rattle.std.specs.Cmp.{eq_by_cmp_equiv};

    ghost laws = { eq_by_cmp_equiv edn_cmp_total };
}
