//! Persistent lists, whose old versions stay as they were: [`PVec`].
//!
//! Take one where somebody holds a list as it was while somebody else pushes, as a reader of a log does while the log grows:
//! [`PVec::share`] gives one more owner of the list as it is now, in constant time, and a later push shows in one of the two
//! alone. A list with one owner is better off in a `Vec`, whose reads and pushes are several times as fast. Items are
//! never cloned: each stands behind an `Arc`, and all versions that have it share it.
//!
//! | Call | Time, for n items | Memory |
//! |---|---|---|
//! | `empty`, `len`, `is_empty` | constant | none |
//! | `get` | a step for each time that n / 32 can be halved: 15 at a million items | none |
//! | `push` | constant; each 32nd also a step for each fork on the way to the right end | a block for the item; each 32nd also a chunk, and a block for each of those forks |
//! | the first `push` after a `share` | also a step for each of the last items, of which there are at most 31 | also a chunk |
//! | `pushed` | as the first `push` after a `share` | the same |
//! | `share` | constant | none |
//! | `first`, `rest` | a step for each fork on the way to the index, and for each item of its chunk | a chunk, and a block for each of those forks |
//! | `iter`, each item | constant; each 32nd as a `get` | none |
//! | letting the last owner go | linear | |
//!
//! **How it is stored.** Whole chunks of 32 items hang in a binary tree, in order, each fork with the number of items on its
//! left: a rope, as Boehm, Atkinson and Plass have it for text. The last items are a chunk of their own outside of the tree, its
//! tail, as in Clojure's persistent vector; so 31 of 32 pushes touch no tree. A new version shares all of the tree but the
//! forks on the way to its right end. In a tree that grew by pushes the left side of each fork is full, so it is low. A
//! [`PVec::first`] and a [`PVec::rest`] share all on their side of the index: they copy the one chunk that it lies in, and the forks
//! above it.
//!
//! **Not promised.** Contracts see a list, and say what is in it. No contract speaks of time, of memory, of the height of the
//! tree, or of which versions share what. There is no call to change or to remove an item.
#![tactic(auto)]

mod chunks;
pub mod iterators;
mod trees;
pub mod vectors;

pub use iterators::Iter;
pub use vectors::PVec;
