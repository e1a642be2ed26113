//! Texts of each length, in the node and in a block: where a text lies makes no difference, and it is read into the node where it fits.
use crate::same::same;
use crate::versions::value_of;
use ref_edn::order::compare;
use ref_edn::{Node, Text, Value, read_one};
use std::alloc::Global;
use std::cmp::Ordering;
use std::process::Abort;
use std::test::Fail;

// The texts are its fronts. It has no z, which is greater than all of its letters.
const LETTERS: &str = "abcdefghijklmnopqrstuvwxyabcdefghijklmno";

// Texts of up to so many bytes lie in the node.
const MOST_IN_NODE: usize = 14;

#[derive(Clone, Copy, Drop)]
enum Kind {
    Str,
    Keyword,
    Symbol,
}

/// The value of one text: as a node of its length has it, in a block, and as it is read.
#[derive(Drop)]
struct Forms {
    chosen: Value,
    block: Value,
    read: Value,
}

fn forms_of(alloc: Global, kind: Kind, text: &str) -> Result<Forms, Fail> {
    let block = Text::copy_of(alloc, text)?;
    let (chosen, block, written) = match kind {
        Kind::Str => (
            Node::string(alloc, text)?,
            Node::Str(block),
            format!(in alloc; "\"{text}\"")?,
        ),
        Kind::Keyword => (
            Node::keyword(alloc, text)?,
            Node::Keyword(block),
            format!(in alloc; ":{text}")?,
        ),
        Kind::Symbol => (
            Node::symbol(alloc, text)?,
            Node::Symbol(block),
            String::from_str(alloc, text)?,
        ),
    };
    Ok(Forms {
        chosen: value_of(chosen)?,
        block: value_of(block)?,
        read: read_one(alloc, written.as_bytes())?,
    })
}

fn is_in_node(value: &Value) -> bool {
    matches!(
        value.node(),
        Node::ShortStr(_) | Node::ShortKeyword(_) | Node::ShortSymbol(_)
    )
}

// The values of one text are equal, and less than those of one with a greater last letter.
fn check_orders(rt: &(impl Abort + AllocGlobal), text: &Forms, greater: &Forms) {
    for a in [&text.chosen, &text.block, &text.read] {
        for b in [&text.chosen, &text.block, &text.read] {
            same(rt, (*a == *b, compare(a, b)), (true, Ordering::Equal));
        }
        for b in [&greater.chosen, &greater.block, &greater.read] {
            let orders = (compare(a, b), compare(b, a));
            same(rt, orders, (Ordering::Less, Ordering::Greater));
        }
    }
}

fn check_length(rt: &(impl Abort + AllocGlobal), kind: Kind, len: usize) -> Result<(), Fail> {
    let front = LETTERS.get(..len.saturating_sub(1)).unwrap_or("");
    let greater = format!(in rt.alloc(); "{front}z")?;
    let text = forms_of(rt.alloc(), kind, LETTERS.get(..len).unwrap_or(""))?;
    let greater = forms_of(rt.alloc(), kind, &greater)?;
    check_orders(rt, &text, &greater);
    let lie = (
        is_in_node(&text.chosen),
        is_in_node(&text.block),
        is_in_node(&text.read),
    );
    let fits = len <= MOST_IN_NODE;
    same(rt, (len, lie), (len, (fits, false, fits)));
    Ok(())
}

#[test]
fn where_a_text_lies_makes_no_difference(rt: HostRuntime) -> Result<(), Fail> {
    check_length(&rt, Kind::Str, 0)?;
    for len in 1..=LETTERS.len() {
        for kind in [Kind::Str, Kind::Keyword, Kind::Symbol] {
            check_length(&rt, kind, len)?;
        }
    }
    Ok(())
}
