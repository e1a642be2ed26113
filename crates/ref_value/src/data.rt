//! A value, and the node that it is made of.
ghost use Rattle.std.specs.Prelude.{◌≡◌, ◌↔◌, ◌≤◌, None, Some, IfNone, IfSome, IfOk, IfErr, OnOk, OnErr, IsTrue, IsUtf8, max, string_bytes};
ghost use Rattle.ref_value.specs.Edn.{keyword as keyword_node, keyword_of, nesting, string as string_node, string_of, symbol as symbol_node, symbol_of, text_of};
ghost use Rattle.ref_value.specs.Lawful.{IsLawful};
ghost use Rattle.ref_value.specs.View.{edn};

use crate::maps::Entries;
use crate::names::{is_keyword, is_symbol};
use crate::sets::Elements;
use crate::texts::{MOST_IN_NODE, ShortText, Text};
use crate::vectors::Items;
use std::alloc::{AllocError, Global};
use std::marker::Model;

/// The greatest number of collections that may be open at a place of a value.
pub const MOST_NESTED: u8 = 64;

/// An EDN datum. Contracts see it as EDN data, without where it lies in memory.
///
/// It is always lawful: names are names, the keys of a map and the elements of a set stand in value order without
/// equals, and at most 64 collections are open at its deepest place. Texts and collections may have several
/// owners.
#[cycle(value)]
pub struct Value {
    // A list of one: the compiler moves an array at once, and a node, which is an enum, in pieces.
    node: [Node; 1],
}

// A function of its own, which each place that drops a value calls; a derived one would be written out there, with all that a
// value may be made of.
impl Drop for Value {
    #[inline(never)]
    #[cycle(drop)]
    fn drop(self) {
        let Value { node: _node } = self;
    }
}

/// What a value is made of. A node may be unlawful; [`Value::of`] is the test.
///
/// A string, a keyword or a symbol has a variant for texts of up to 14 bytes, which lie in the node itself, and one for all texts. Make
/// such a node with [`Node::string`], [`Node::keyword`] or [`Node::symbol`], and ask for its text with [`Node::as_string`],
/// [`Node::as_keyword`] or [`Node::as_symbol`]: these know both. Where a text lies makes no difference to equality or order.
#[cycle(value)]
#[derive(Drop)]
pub enum Node {
    Nil,
    Bool(bool),
    Int(i64),
    Str(Text),
    /// The name without the colon.
    Keyword(Text),
    Symbol(Text),
    Vector(Items),
    Map(Entries),
    Set(Elements),
    ShortStr(ShortText),
    /// The name without the colon.
    ShortKeyword(ShortText),
    ShortSymbol(ShortText),
}

impl Model for Value {
    ghost use Rattle.std.specs.Prelude.{◌≡◌, ◌*◌, length};
    ghost use Rattle.ref_value.specs.Edn.{Edn, nesting};
    ghost use Rattle.ref_value.specs.Code.{edn_code};

    ghost Value = { Edn };

    ghost coded = { edn_code };

    ghost use Rattle.ref_value.specs.View.{edn_of_one};

    ghost view = { λ a. edn_of_one a.node };

    ghost use Rattle.ref_value.specs.Lawful.{IsLawful};

    ghost invariant = { λ a. (length a.node ≡ 1) × IsLawful (edn_of_one a.node) };

    ghost size = { λ v. 300 * nesting v };

    ghost use Rattle.ref_value.specs.Falls.{falls_one};

    ghost size_decreases = { λ a h. falls_one a.node h.0 };
}

impl Node {
    /// A string of this text. One of up to 14 bytes takes no memory.
    pub fn string(alloc: Global, text: &str) -> Result<Node, AllocError>
        ensures { IfOk result (λ n. edn n ≡ string_node text.now) }
    {
        Ok(match ShortText::of(text) {
            Some(text) => Node::ShortStr(text),
            None => Node::Str(Text::copy_of(alloc, text)?),
        })
    }

    /// The string of a `String`, which isn't copied where it is longer than 23 bytes.
    pub fn string_of(alloc: Global, text: String) -> Result<Node, AllocError>
        ensures { IfOk result (λ n. edn n ≡ string_node (string_bytes text)) }
    {
        Ok(match ShortText::of(&text) {
            Some(text) => Node::ShortStr(text),
            None => Node::Str(Text::of(alloc, text)?),
        })
    }

    /// A keyword of this name, the colon left out. One of up to 14 bytes takes no memory. Whether it is a name isn't asked:
    /// [`Value::of`] is the test.
    pub fn keyword(alloc: Global, name: &str) -> Result<Node, AllocError>
        ensures { IfOk result (λ n. edn n ≡ keyword_node name.now) }
    {
        Node::keyword_of_bytes(alloc, name.as_bytes())
    }

    /// The same of bytes that are known to be UTF-8.
    pub fn keyword_of_bytes(alloc: Global, name: &[u8]) -> Result<Node, AllocError>
        requires { IsUtf8 name.now }
        ensures { IfOk result (λ n. edn n ≡ keyword_node name.now) }
    {
        Ok(if name.len() <= MOST_IN_NODE {
            Node::ShortKeyword(ShortText::of_bytes(name))
        } else {
            Node::Keyword(Text::of_bytes(alloc, name)?)
        })
    }

    /// A symbol of this name. One of up to 14 bytes takes no memory. Whether it is a name isn't asked: [`Value::of`] is the test.
    pub fn symbol(alloc: Global, name: &str) -> Result<Node, AllocError>
        ensures { IfOk result (λ n. edn n ≡ symbol_node name.now) }
    {
        Node::symbol_of_bytes(alloc, name.as_bytes())
    }

    /// The same of bytes that are known to be UTF-8.
    pub fn symbol_of_bytes(alloc: Global, name: &[u8]) -> Result<Node, AllocError>
        requires { IsUtf8 name.now }
        ensures { IfOk result (λ n. edn n ≡ symbol_node name.now) }
    {
        Ok(if name.len() <= MOST_IN_NODE {
            Node::ShortSymbol(ShortText::of_bytes(name))
        } else {
            Node::Symbol(Text::of_bytes(alloc, name)?)
        })
    }

    /// The bytes of a string, or `None` for another node. Constant time.
    pub fn as_string(&self) -> Option<&[u8]>
        ensures some { IfSome result (λ text. string_of (edn self.now) ≡ Some text.now) }
        ensures none { IfNone result (string_of (edn self.now) ≡ None) }
        ensures utf8 { IfSome result (λ text. IsUtf8 text.now) }
    {
        match self {
            Node::Str(text) => Some(text.as_bytes()),
            Node::ShortStr(text) => Some(text.as_bytes()),
            _ => None,
        }
    }

    /// The bytes of a keyword's name, the colon left out, or `None` for another node. Constant time.
    pub fn as_keyword(&self) -> Option<&[u8]>
        ensures some { IfSome result (λ name. keyword_of (edn self.now) ≡ Some name.now) }
        ensures none { IfNone result (keyword_of (edn self.now) ≡ None) }
        ensures utf8 { IfSome result (λ name. IsUtf8 name.now) }
    {
        match self {
            Node::Keyword(name) => Some(name.as_bytes()),
            Node::ShortKeyword(name) => Some(name.as_bytes()),
            _ => None,
        }
    }

    /// The bytes of a symbol's name, or `None` for another node. Constant time.
    pub fn as_symbol(&self) -> Option<&[u8]>
        ensures some { IfSome result (λ name. symbol_of (edn self.now) ≡ Some name.now) }
        ensures none { IfNone result (symbol_of (edn self.now) ≡ None) }
        ensures utf8 { IfSome result (λ name. IsUtf8 name.now) }
    {
        match self {
            Node::Symbol(name) => Some(name.as_bytes()),
            Node::ShortSymbol(name) => Some(name.as_bytes()),
            _ => None,
        }
    }

    /// The bytes of a string, of a keyword's name or of a symbol's, and none for another node. Constant time.
    pub fn text(&self) -> &[u8]
        ensures { result.now ≡ text_of (edn self.now) }
    {
        match self {
            Node::Str(text) | Node::Keyword(text) | Node::Symbol(text) => text.as_bytes(),
            Node::ShortStr(text) | Node::ShortKeyword(text) | Node::ShortSymbol(text) =>
                text.as_bytes(),
            Node::Nil
            | Node::Bool(_)
            | Node::Int(_)
            | Node::Vector(_)
            | Node::Map(_)
            | Node::Set(_) => &[],
        }
    }

    /// One more owner of what the node holds. It takes no memory; only a count of owners can refuse.
    pub fn share(&self) -> Result<Node, AllocError>
        ensures { IfOk result (λ n. edn n ≡ edn self.now) }
    {
        Ok(match self {
            Node::Nil => Node::Nil,
            Node::Bool(b) => Node::Bool(*b),
            Node::Int(n) => Node::Int(*n),
            Node::Str(s) => Node::Str(s.share()?),
            Node::Keyword(s) => Node::Keyword(s.share()?),
            Node::Symbol(s) => Node::Symbol(s.share()?),
            Node::Vector(xs) => Node::Vector(xs.share()?),
            Node::Map(es) => Node::Map(es.share()?),
            Node::Set(xs) => Node::Set(xs.share()?),
            Node::ShortStr(s) => Node::ShortStr(s.copy()),
            Node::ShortKeyword(s) => Node::ShortKeyword(s.copy()),
            Node::ShortSymbol(s) => Node::ShortSymbol(s.copy()),
        })
    }

    // One more than the deepest child, for a collection.
    fn depth(&self) -> u8
        ensures value { result ≡ nesting (edn self.now) }
        ensures bound { result ≤ 65 }
    {
        match self {
            Node::Vector(xs) => xs.deepest() + 1,
            Node::Map(es) => es.deepest() + 1,
            Node::Set(xs) => xs.deepest() + 1,
            _ => 0,
        }
    }

    fn is_lawful(&self) -> bool
        ensures { IsTrue result ↔ IsLawful (edn self.now) }
    {
        match self {
            Node::Nil | Node::Bool(_) => true,
            Node::Int(n) => {
                // The type says that it has 64 bits.
                let _n = *n;
                true
            }
            Node::Str(s) => {
                // The type of a text says that it is UTF-8.
                let _bytes = s.as_bytes();
                true
            }
            Node::ShortStr(s) => {
                let _bytes = s.as_bytes();
                true
            }
            Node::Keyword(s) => is_keyword(s.as_bytes()),
            Node::Symbol(s) => is_symbol(s.as_bytes()),
            Node::ShortKeyword(s) => is_keyword(s.as_bytes()),
            Node::ShortSymbol(s) => is_symbol(s.as_bytes()),
            Node::Vector(xs) => xs.deepest() < MOST_NESTED,
            Node::Map(es) => es.deepest() < MOST_NESTED && es.ascends(),
            Node::Set(xs) => xs.deepest() < MOST_NESTED && xs.ascends(),
        }
    }
}

impl Value {
    /// The value of a node, where the node is lawful, and else the node again. It takes no memory. It costs a look at
    /// the name of a keyword or a symbol, and constant time for all else.
    pub fn of(node: Node) -> Result<Value, Node>
        ensures ok { IfOk result (λ v. v ≡ edn node) }
        ensures lawful { OnOk result (IsLawful (edn node)) }
        ensures err { IfErr result (λ n. n ≡ node) }
        ensures unlawful { OnErr result (¬ IsLawful (edn node)) }
    {
        if node.is_lawful() {
            Ok(Value { node: [node] })
        } else {
            Err(node)
        }
    }

    /// The value of a node that is known to be lawful, without a look at it.
    pub fn of_lawful(node: Node) -> Value
        requires { IsLawful (edn node) }
        ensures { result ≡ edn node }
    {
        Value { node: [node] }
    }

    /// What the value is: nil, a number, a text or a collection, to match on. Constant time.
    #[tactic(auto, using(crate::proofs::OneNode::one_node))]
    pub fn node(&self) -> &Node
        ensures value { edn result.now ≡ self.now }
        ensures lawful { IsLawful self.now }
    {
        let [node] = &self.node;
        node
    }

    /// One more owner. It takes no memory; only a count of owners can refuse.
    pub fn share(&self) -> Result<Value, AllocError>
        ensures { IfOk result (λ v. v ≡ self.now) }
    {
        Ok(Value {
            node: [self.node().share()?],
        })
    }

    /// How many collections are open at the deepest place, 0 for what is no collection. Constant time.
    pub fn depth(&self) -> u8
        ensures value { result ≡ nesting self.now }
        ensures lawful { IsLawful self.now }
    {
        self.node().depth()
    }
}
