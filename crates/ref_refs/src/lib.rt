//! Refs: their values and last changes at one point, and the commit of a transaction as one legal step.
//!
//! A [`RefStore`] returns transactions over a snapshot of its values ([`RefStore::begin`]) and commits them ([`RefStore::commit`]), as
//! Clojure's page on refs and transactions has it: a transaction reads as of its *read point*; at its *write point* the refs that it
//! set, altered or ensured must not have changed since, else it is in *conflict* and leaves nothing; what it commuted is made once more
//! on the latest value. A ref may have a rule, Clojure's validator, which accepts its value at all times, and watches, whose notices
//! the commit answers.
//!
//! | Type | Is |
//! |---|---|
//! | [`RefStore`] | the refs, at most 2^20: their values and last changes, which of them is the tally, their rules and watches |
//! | [`Landed`] | a commit that was made: its entry for a log, and the notices for its watches |
//! | [`Prepared`] | a commit that was tested by [`RefStore::prepare`]; [`RefStore::install`], which can't fail, makes its [`Changes`] |
//! | [`CommitFault`] | why a transaction wasn't committed; it comes back, and the store is as it was |
//! | [`Conflict`] | the smallest ref in conflict, with the read point and the point of its last change |
//! | [`Alien`] | what of a transaction is foreign to the store, as it may be of one that was begun on another store |
//!
//! Take it where a program has refs alone and counts its points itself: they number the states of all references together, so the
//! caller passes each new one. Otherwise take `ref_world`, which has all kinds of references and a log, or `ref_shared`, by which
//! threads share such a world, and which tries a transaction again where it is in conflict.
//!
//! **Costs.** `begin` takes constant time and no memory, whatever the number of refs. A commit takes time logarithmic in that number for
//! each operation, and as much memory where another transaction still reads the refs as they were, else a block for each changed ref. An
//! `ensure` changes no ref; for each send it takes a step. The entry shares operations and sends with the transaction. For each set, alter
//! and ensure the value of its ref is compared with that of the beginning, in time linear in its size; several in a row on one ref,
//! commutes between them left aside, compare it once. Each `commute` on another ref
//! costs its function, and each ref that is changed the test of its rule and a notice for each of its watches. `value_of` is logarithmic;
//! `are_unchanged_since` and `are_rules_known` go over all refs, `add_watch` and `remove_watch` over the watches of one.
//!
//! **Not promised.** That the points which a caller passes are right: it asks that they fit its last changes. That a transaction of
//! its own has nothing foreign, or that one of another store has: one that only commuted, say, may be committed as if it had been begun
//! here. That of two transactions, each of which only reads what the other one sets, one is refused: `ensure` is the remedy. That a
//! refusal over the latest values or by a rule, or the end of points, isn't returned as 'out of memory'. The store calls no watch and sends
//! no action: the caller does both. No contract speaks of time, or of how much memory is taken.
#![tactic(auto)]

mod checking;
pub mod committing;
mod current;
pub mod drafts;
pub mod faults;
mod late;
mod making;
mod placing;
mod rules;
pub mod store;
mod watches;

pub use checking::check_served;
pub use committing::{Landed, Prepared};
pub use drafts::Changes;
pub use faults::{Alien, CommitFault, Conflict};
pub use store::RefStore;
