//! The members of vectors, maps and sets: chunks in a balanced tree, whose parts have several owners.
//!
//! Up to [`chunks::WIDTH`] members stand side by side in one chunk; above that a tree has chunks as its leaves, and each fork
//! knows how many members it has, how deep the deepest is and how high it stands, as in an AVL tree. A change copies the
//! nodes on its way that have other owners, and one chunk, and shares all else; a node without other owners is changed in place.
//! So old versions stay as they are. Contracts see a list of pairs: that of a vector or a set has each value with itself.
//!
//! | Call | Takes, for n members |
//! |---|---|
//! | a tree of a `Vec` | n; up to a chunk's width the `Vec` itself is the chunk |
//! | how many, how deep, one more owner | constant |
//! | the member at a place, a search, one more, one less, another one | log n, and for the three changes one chunk |
//! | all in order | n: a descent for each chunk |
//! | memory of one version more | log n nodes of some 60 bytes, and one or two chunks |
//!
//! No clause names the height, nor what is shared. Balance is no matter of correctness either: a rotation that is refused
//! because memory is refused is left out, and the next change on that way tries again.

pub(crate) mod balance;
pub(crate) mod changes;
pub(crate) mod chunks;
pub(crate) mod search;
pub(crate) mod trees;
pub(crate) mod walks;
