//! The value order, and equality.
ghost use Rattle.std.specs.Ordering.{eq_by_cmp};
ghost use Rattle.std.specs.Prelude.{◌≡◌, ◌↔◌, true};
ghost use Rattle.ref_value.specs.Edn.{Edn, items_of, entries_of};
ghost use Rattle.ref_value.specs.Order.{rank as rank_of, edn_cmp, items_cmp, entries_cmp};
ghost use Rattle.ref_value.specs.View.{edn};

use crate::data::{Node, Value};
use crate::maps::Entries;
use crate::sets::Elements;
use crate::vectors::Items;
use std::cmp::Ordering;

/// The place of a kind of value among the kinds: nil first, sets last.
pub fn rank(node: &Node) -> u8
    ensures { result ≡ rank_of (edn node.now) }
{
    match node {
        Node::Nil => 0,
        Node::Bool(_) => 1,
        Node::Int(_) => 2,
        Node::Str(_) | Node::ShortStr(_) => 3,
        Node::Keyword(_) | Node::ShortKeyword(_) => 4,
        Node::Symbol(_) | Node::ShortSymbol(_) => 5,
        Node::Vector(_) => 6,
        Node::Map(_) => 7,
        Node::Set(_) => 8,
    }
}

/// The value order as a function; `cmp` is the same.
#[cycle(compare)]
pub fn compare(a: &Value, b: &Value) -> Ordering
    ensures { result ≡ edn_cmp a.now b.now }
{
    match (a.node(), b.node()) {
        (Node::Bool(x), Node::Bool(y)) => x.cmp(y),
        (Node::Int(x), Node::Int(y)) => x.cmp(y),
        (x @ (Node::Str(_) | Node::ShortStr(_)), y @ (Node::Str(_) | Node::ShortStr(_))) => x
            .text()
            .cmp(y.text()),
        (
            x @ (Node::Keyword(_) | Node::ShortKeyword(_)),
            y @ (Node::Keyword(_) | Node::ShortKeyword(_)),
        ) => x.text().cmp(y.text()),
        (
            x @ (Node::Symbol(_) | Node::ShortSymbol(_)),
            y @ (Node::Symbol(_) | Node::ShortSymbol(_)),
        ) => x.text().cmp(y.text()),
        (Node::Vector(x), Node::Vector(y)) => compare_items(x, y),
        (Node::Map(x), Node::Map(y)) => compare_entries(x, y),
        (Node::Set(x), Node::Set(y)) => compare_elements(x, y),
        (x, y) => rank(x).cmp(&rank(y)),
    }
}

#[cycle(compare)]
#[tactic(auto, using(crate::proofs::Passing::items_passed))]
fn compare_items(a: &Items, b: &Items) -> Ordering
    ensures { result ≡ items_cmp (items_of a.now) (items_of b.now) }
{
    let (mut left, mut others) = a.iter_beside(b);
    while let Some(x) = left.next() {
        let Some(y) = others.next() else {
            return Ordering::Greater;
        };
        let order = compare(x, y);
        if order != Ordering::Equal {
            return order;
        }
        left.pass_same(&mut others);
    }
    match others.next() {
        Some(_) => Ordering::Less,
        None => Ordering::Equal,
    }
}

#[cycle(compare)]
#[tactic(auto, using(crate::proofs::Passing::items_passed))]
fn compare_elements(a: &Elements, b: &Elements) -> Ordering
    ensures { result ≡ items_cmp (items_of a.now) (items_of b.now) }
{
    let (mut left, mut others) = a.iter_beside(b);
    while let Some(x) = left.next() {
        let Some(y) = others.next() else {
            return Ordering::Greater;
        };
        let order = compare(x, y);
        if order != Ordering::Equal {
            return order;
        }
        left.pass_same(&mut others);
    }
    match others.next() {
        Some(_) => Ordering::Less,
        None => Ordering::Equal,
    }
}

#[cycle(compare)]
#[tactic(auto, using(crate::proofs::Passing::entries_passed))]
fn compare_entries(a: &Entries, b: &Entries) -> Ordering
    ensures { result ≡ entries_cmp (entries_of a.now) (entries_of b.now) }
{
    let (mut left, mut others) = a.iter_beside(b);
    while let Some((key, value)) = left.next() {
        let Some((other_key, other_value)) = others.next() else {
            return Ordering::Greater;
        };
        let order = compare(key, other_key);
        if order != Ordering::Equal {
            return order;
        }
        let order = compare(value, other_value);
        if order != Ordering::Equal {
            return order;
        }
        left.pass_same(&mut others);
    }
    match others.next() {
        Some(_) => Ordering::Less,
        None => Ordering::Equal,
    }
}

impl Ord for Value {
    ghost use Rattle.ref_value.specs.Order.{edn_cmp};
    ghost use Rattle.ref_value.specs.OrderLaws.{edn_cmp_total};
    ghost use Rattle.std.specs.Prelude.{refl};

    ghost cmp = { edn_cmp };

    ghost total = { edn_cmp_total };

    ghost matches_partial_cmp = { λ x y. refl };

    ghost matches_eq = { λ x y. refl };

    fn cmp(&self, other: &Value) -> Ordering {
        compare(self, other)
    }
}

impl PartialOrd for Value {
    ghost use Rattle.ref_value.specs.Order.{edn_cmp};
    ghost use Rattle.ref_value.specs.OrderLaws.{edn_cmp_total};
    ghost use Rattle.std.specs.Cmp.{partial_order_from_total};
    ghost use Rattle.std.specs.Ordering.{as_partial_cmp};

    ghost partial_cmp = { as_partial_cmp edn_cmp };

    ghost laws = { partial_order_from_total edn_cmp_total };

    fn partial_cmp(&self, other: &Value) -> Option<Ordering> {
        Some(compare(self, other))
    }
}

impl PartialEq for Value {
    ghost use Rattle.ref_value.specs.Order.{edn_cmp};
    ghost use Rattle.ref_value.specs.OrderLaws.{edn_cmp_total};
    ghost use Rattle.std.specs.Cmp.{partial_equiv_from_equiv, eq_by_cmp_equiv};
    ghost use Rattle.std.specs.Ordering.{eq_by_cmp};

    ghost eq = { eq_by_cmp edn_cmp };

    ghost laws = { partial_equiv_from_equiv (eq_by_cmp_equiv edn_cmp_total) };

    fn eq(&self, other: &Value) -> bool {
        compare(self, other) == Ordering::Equal
    }
}

impl Eq for Value {
    ghost use Rattle.ref_value.specs.OrderLaws.{edn_cmp_total};
    ghost use Rattle.std.specs.Cmp.{eq_by_cmp_equiv};

    ghost laws = { eq_by_cmp_equiv edn_cmp_total };
}

/// Values are equal by `==` exactly where they are the same.
pub fn equal_values_are_the_same()
    ensures { (v w : Edn) → (eq_by_cmp edn_cmp v w ≡ true) ↔ (v ≡ w) }
{}
