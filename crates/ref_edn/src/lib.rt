//! The text of EDN data: reading, printing, readers and writers.
//!
//! [`read_one`] makes a [`Value`] of a text in the profile that docs/EDN.md describes, [`print()`] appends a value's text, and reading
//! what was printed gives an equal value. Values themselves are `ref_value`'s. This crate exports all its names; `crates.txt` has to list
//! `ref_value` too for a crate that uses a trait of theirs, as a `for` over members does.
//!
//! | Name | Is |
//! |---|---|
//! | [`read_one`], [`read_all`], [`ReadFault`] | reading one element or all, and the first fault with its place |
//! | [`print()`] | the text of a value, appended |
//! | [`Source`], [`Sink`], [`Counted`], [`read_to_end`], [`write_all`] | readers and writers that count their bytes and failures |
//! | [`Value`], [`Node`], [`Text`], [`Items`], [`Entries`], [`Elements`] | a value and what it is made of, from `ref_value` |
//!
//! Reading costs time linear in the text, and n log n for the n members of a map or a set that isn't in order; printing is linear.
//! What the profile leaves out isn't read: floats, tags, characters.
#![tactic(auto)]

mod blanks;
mod bytes;
mod elements;
pub mod faults;
mod interner;
mod members;
pub mod printer;
pub mod reader;
mod scratch;
mod sort_keys;
pub mod streams;
mod string_reader;
mod token_reader;

pub use faults::ReadFault;
pub use printer::print;
pub use reader::{read_all, read_one};
pub use ref_value::{
    Elements, Entries, Items, Node, ShortText, Text, Value, data, maps, names, order, sets, texts,
    vectors,
};
pub use streams::{Counted, Failed, InputFault, Sink, Source, read_to_end, write_all};
