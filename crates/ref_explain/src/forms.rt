//! The forms of a text that is EDN: where each of them begins and ends.
//!
//! What is no EDN is taken in some way or other: nothing is refused.
ghost use Rattle.std.specs.Iterator.{at_most};

use crate::inside::{Inside, from, is_blank, is_closing, is_delimiter, is_opening, up_to};
use std::str::from_utf8;

/// A form, by what is left of the text where it begins and behind its end.
#[derive(Clone, Copy, Debug)]
pub(crate) struct Form<'a> {
    pub from: &'a [u8],
    pub rest: &'a [u8],
}

/// What a form is, by how it begins.
#[derive(Clone, Copy, Debug, PartialEq, Eq)]
pub(crate) enum Sort {
    Vector,
    Map,
    Set,
    Text,
    Number,
    Keyword,
    Symbol,
    /// `nil`, `true` and `false`.
    Word,
}

// Whether a token begins as a number.
fn starts_number(text: &[u8]) -> bool {
    match text {
        [b'+' | b'-', b, ..] => b.is_ascii_digit(),
        [b, ..] => b.is_ascii_digit(),
        [] => false,
    }
}

impl<'a> Form<'a> {
    /// The text of the form.
    pub fn bytes(&self) -> &'a [u8] {
        up_to(self.from, self.from.len().saturating_sub(self.rest.len()))
    }

    pub fn sort(&self) -> Sort {
        match self.from {
            [b'[' | b'(', ..] => Sort::Vector,
            [b'{', ..] => Sort::Map,
            [b'#', b'{', ..] => Sort::Set,
            [b'"', ..] => Sort::Text,
            [b':', ..] => Sort::Keyword,
            _ if starts_number(self.from) => Sort::Number,
            _ => self.sort_of_word(),
        }
    }

    fn sort_of_word(&self) -> Sort {
        match self.bytes() {
            b"nil" | b"true" | b"false" => Sort::Word,
            _ => Sort::Symbol,
        }
    }

    /// The name of a keyword, without its colon.
    pub fn keyword(&self) -> Option<&'a [u8]> {
        match self.bytes() {
            [b':', name @ ..] => Some(name),
            _ => None,
        }
    }

    /// The name of a symbol.
    pub fn symbol(&self) -> Option<&'a [u8]> {
        match self.sort() {
            Sort::Symbol => Some(self.bytes()),
            _ => None,
        }
    }

    /// The number that it is, if it has 64 bits.
    pub fn integer(&self) -> Option<i64> {
        match from_utf8(self.bytes()) {
            Ok(text) => text.parse::<i64>().ok(),
            Err(_) => None,
        }
    }

    /// Whether what looks as a discard belongs to it, since no blank stands before.
    pub fn has_discard(&self) -> bool {
        self.bytes().windows(2).any(|pair| pair == b"#_".as_slice())
    }

    /// Whether it is the keyword of this name.
    pub fn is_word(&self, word: &str) -> bool {
        self.keyword() == Some(word.as_bytes())
    }

    pub fn is_nil(&self) -> bool {
        matches!(self.bytes(), b"nil")
    }

    pub fn is_vector(&self) -> bool {
        self.sort() == Sort::Vector
    }

    /// The members of a collection; of another form none.
    pub fn members(&self) -> Members<'a> {
        match self.from {
            [b'[' | b'(' | b'{', rest @ ..] => members_of(rest),
            [b'#', b'{', rest @ ..] => members_of(rest),
            _ => members_of(&[]),
        }
    }

    /// How many collections are open at its deepest place, itself included.
    pub fn depth(&self) -> usize {
        let mut inside = Inside::Plain;
        let mut open = 0usize;
        let mut deepest = 0;
        for b in self.bytes() {
            inside = inside.after(*b);
            open = open_after(open, inside, *b);
            deepest = open.max(deepest);
        }
        deepest
    }
}

// How many brackets are open behind one more byte.
fn open_after(open: usize, inside: Inside, b: u8) -> usize {
    if inside != Inside::Plain {
        open
    } else if is_opening(b) {
        open.saturating_add(1)
    } else if is_closing(b) {
        open.saturating_sub(1)
    } else {
        open
    }
}

/// What follows blanks and comments.
pub(crate) fn after_blanks(text: &[u8]) -> &[u8] {
    let mut inside = Inside::Plain;
    for (i, b) in text.iter().enumerate() {
        if inside == Inside::Plain && *b != b';' && !is_blank(*b) {
            return from(text, i);
        }
        inside = inside.after(*b);
    }
    &[]
}

// What follows the token at the front, of one byte or more.
fn after_token(text: &[u8]) -> &[u8] {
    for (i, b) in text.iter().enumerate() {
        if i > 0 && is_delimiter(*b) {
            return from(text, i);
        }
    }
    &[]
}

// What follows the string or the collection at the front.
fn after_closed(text: &[u8]) -> &[u8] {
    let mut inside = Inside::Plain;
    let mut open = 0usize;
    for (i, b) in text.iter().enumerate() {
        inside = inside.after(*b);
        open = open_after(open, inside, *b);
        if inside == Inside::Plain && open == 0 {
            return from(text, i.saturating_add(1));
        }
    }
    &[]
}

/// What follows the form at the front.
pub(crate) fn after_form(text: &[u8]) -> &[u8] {
    match text {
        [b'"' | b'(' | b'[' | b'{', ..] => after_closed(text),
        [b'#', set @ ..] if set.first() == Some(&b'{') => after_closed(set),
        _ => after_token(text),
    }
}

/// The first form, behind blanks, comments and discards; none in front of a closing bracket and at the end.
pub(crate) fn first_form(text: &[u8]) -> Option<Form<'_>> {
    let mut rest = text;
    let mut discards = 0usize;
    for _ in 0..text.len() {
        let from = after_blanks(rest);
        match from {
            [] | [b')' | b']' | b'}', ..] => return None,
            [b'#', b'_', tail @ ..] => {
                discards = discards.saturating_add(1);
                rest = tail;
            }
            _ => {
                rest = after_form(from);
                if discards == 0 {
                    return Some(Form { from, rest });
                }
                discards = discards.saturating_sub(1);
            }
        }
    }
    None
}

/// The forms of a text, up to a closing bracket or its end.
#[derive(Clone, Copy, Debug)]
pub(crate) struct Members<'a> {
    rest: &'a [u8],
    // No more of them come than there are bytes.
    left: usize,
}

/// The forms at the front of a text.
pub(crate) fn members_of(text: &[u8]) -> Members<'_> {
    Members {
        rest: text,
        left: text.len(),
    }
}

impl<'a> Iterator for Members<'a> {
    type Item = Form<'a>;

    ghost remaining = { λ s. at_most s.left };

    fn next(&mut self) -> Option<Form<'a>> {
        if self.left == 0 {
            return None;
        }
        let form = first_form(self.rest)?;
        self.left -= 1;
        self.rest = form.rest;
        Some(form)
    }
}
