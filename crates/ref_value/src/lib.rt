//! EDN data in memory: values and their order.
//!
//! A [`Value`] is any EDN datum of the profile that docs/EDN.md describes. Contracts see it as EDN data. Values share what they
//! hold, so that one more owner of a large collection costs no copy. `ref_edn` reads and prints their text, and exports all names of
//! this crate.
//!
//! | Name | Is |
//! |---|---|
//! | [`Value`] | a datum, always lawful: names are names, members in order and none twice, at most 64 levels |
//! | [`Node`] | what a value is made of, which it lends; `Value::of` takes a node exactly where it is lawful |
//! | [`Items`], [`Entries`], [`Elements`] | the members of a vector, of a map and of a set |
//! | [`ShortText`], [`Text`] | the text of a string, a keyword or a symbol: one of up to 14 bytes in the node, and any in a block |
//! | [`names`], [`order`] | which texts are names; the value order, `Eq` and `Ord` |
//!
//! | Costs, of n members | Steps |
//! |---|---|
//! | one more owner, `len`, `depth` | constant |
//! | one member more or less, the member at a place or a key | log n, in time and in memory |
//! | all members in order | n |
//! | a comparison | linear in the parts that are equal |
//!
//! A change leaves older versions as they are: a collection shares with them what hasn't changed. Which values share a block of
//! memory isn't promised.
#![tactic(auto)]

mod changing;
pub mod data;
pub mod maps;
pub mod names;
pub mod order;
mod sequence;
pub mod sets;
pub mod texts;
pub mod vectors;

pub use data::{Node, Value};
pub use maps::Entries;
pub use sets::Elements;
pub use texts::{ShortText, Text};
pub use vectors::Items;
