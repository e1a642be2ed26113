//! Persistent maps from numbers, whose old versions stay as they were: [`PMap`]; and [`Numbered`], a list of values by number
//! from 0 on, stored in such a map.
//!
//! Take one where somebody holds a map as it was while somebody else goes on, as a transaction holds the values of its
//! beginning while others commit: [`PMap::with`] and [`PMap::without`] return a new map and leave the old one as it is, and
//! [`PMap::share`] gives one more owner of a map in constant time. [`PMap::set`] changes a map in place where no other map shares it. A map with one owner is better off in a `BTreeMap` or
//! an `IndexMap`, which change in place, several times as fast.
//!
//! Keys are `u32`, and close ones are best: numbers that count up from 0 make a tree without gaps.
//!
//! | Call | Time, for n entries | Memory |
//! |---|---|---|
//! | `empty`, `len`, `is_empty` | constant | none |
//! | `get` | a step for each level, of which there are at most 8, and about log16(n) where keys are close | none |
//! | `with` | as `get`, twice, and the sides of each fork on its way | a block for the entry, and one for each fork on its way |
//! | `set` | as `get` | as `with`, but for what no other map has |
//! | `without` | as `with` | a block for each fork on its way; none where the key isn't there |
//! | `walk` | linear | the answer |
//! | `share` | constant | none |
//! | letting the last owner go | linear | |
//! | `Numbered`: `empty`, `len`, `is_empty`, `share`, `get` | as those of the map | none |
//! | `Numbered`: `with`, `with_next` | as `with` | as `with` |
//! | `Numbered`: `set` | as `set` | as `set` |
//! | `Numbered`: going over all | a `get` for each value | none |
//!
//! **How it is stored.** As a radix tree, which is also known as a Patricia tree, with forks of sixteen sides. A fork stands for a block of
//! numbers, of which each side has a sixteenth: those that differ in their lowest bits alone. Forks with only one side are left out, so
//! the tree needs no balancing. A new version shares all of the tree but the forks on the way to its key, and values are never copied.
//!
//! If another map has the whole tree, `with` and `set` copy an entry and the forks on its way: 3 for 4,096 numbers from 0 on, 2 for 64. With
//! forks of two sides they would be 12 and 6. Each fork that is copied counts one more owner of each of its sides that isn't empty: 48 in
//! all for 4,096 numbers and 20 for 64. With forks of two sides they would be 12 and 6.
//!
//! `get` compares the bits of its key above those of a side with the block's. So what is found rests on a shift and a comparison.
//!
//! **Not promised.** Contracts see a finite map, and say what is in it. No contract speaks of time, of memory, of the height
//! of the tree, or of which versions share what. Where memory is refused, `with` and `set` drop the value that they were passed: where it
//! couldn't be made again, share it before the call.
#![tactic(auto)]

mod blocks;
pub mod maps;
pub mod numbered;
mod trees;

pub use maps::PMap;
pub use numbered::Numbered;
