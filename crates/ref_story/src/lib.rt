//! One history that all threads know: it only grows, and each thread may hold how far it has seen it.
//!
//! | Name | Is |
//! |---|---|
//! | [`Story`] | the whole history. Who has it may add to it, and there is one of each history |
//! | [`Seen`] | a beginning of a history. Any thread may have one, and copies of it |
//! | [`Tells`] | which entry is added for a value, so that no entry is made at run time |
//!
//! Both are tokens: they have no bytes, each call does nothing, and all that they say is in contracts. A world under a lock keeps a `Story`
//! of what was done with it. Whoever holds the lock adds an entry for what it does, and takes a [`Seen`] along when it frees the lock. So
//! the contract of a call on the shared world can name what it found there: at this point of the history stands what I did, and everything that
//! I had seen before stands ahead of it.
//!
//! | Promise | Contract |
//! |---|---|
//! | Nothing is changed or taken out: a history that was seen begins the whole of it | [`Story::bounds`] |
//! | Of two beginnings of one history one begins the other, with no history at hand | [`Seen::in_line`] |
//! | An entry comes to the end, and nothing else changes | [`Story::add`], [`Story::add_as`] |
//! | What is seen is the whole of it at that moment | [`Story::seen`] |
//!
//! A history has a name, a number that no program can read, so that entries of one aren't taken for those of another: it is chosen when
//! the history is made, and [`Story::add`] keeps it. A type that is to belong to one history has the name in a ghost member of a type
//! parameter.
//!
//! **Costs.** None: no bytes, no step, no memory, no fault.
//!
//! **Trusted.** That a token which grows has these laws is a theorem of the toolchain's logic (`types.Growing`). That each call may
//! use it is proved by hand in that logic (`proofs/tokens`) and checked by the gate as everything else is. `unsafe` stands where it says that a token may go
//! to another thread; each of these three lines has a proof too (`TheSendSync`).
#![tactic(auto)]

#[cfg(test)]
mod tests;
mod tokens;

pub use tokens::{Seen, Story, Tells};
