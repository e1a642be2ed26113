//! Atoms: single references, each changed by itself in one step.
//!
//! An [`AtomStore`] holds the values of all atoms, numbered from 0, and changes them as Clojure's page on atoms has it: `swap!` sets an
//! atom to the function of its value ([`AtomStore::swap`]), `reset!` to a value regardless ([`AtomStore::reset`]), and
//! `compare-and-set!` only where the atom has the value that is given ([`AtomStore::compare_and_set`]). An atom may have a rule,
//! Clojure's validator, which accepts its value at all times, and watches, whose notices the change answers.
//!
//! | Type | Is |
//! |---|---|
//! | [`AtomStore`] | the atoms, at most 2^20: their values, their rules and watches |
//! | [`Swapped`] | what `swap` and `reset` return: the values before and after, and the notices for the watches |
//! | [`Cas`] | what `compare_and_set` returns: whether the atom was set, and the notices for the watches |
//! | [`Change`] | a change that was tested: the atom, its new value, its entry for a log, and what is answered |
//! | [`AtomFault`] | why an atom isn't changed; the store is then as it was |
//!
//! Take it where a program has atoms alone, and no log or one of its own. Each change is one entry of a log, and the owner of the log
//! makes it in two steps: [`AtomStore::prepare`] or [`AtomStore::prepare_compare`] does all that takes memory or may be refused, and
//! [`AtomStore::install`] can't fail. Otherwise take `ref_world`, which holds the log, or `ref_shared`, where threads share the atoms.
//!
//! **Costs.** A change takes as long whatever the number of atoms: its function, if it has one, the test of the atom's rule, and a
//! notice for each of its watches. It takes memory for what the function makes and for the notices alone. `compare_and_set` compares
//! two values, which is linear in the parts that are equal, and takes no memory where it answers false. `value_of` and `rule_of` take
//! constant time, `are_rules_known` goes over all atoms, and `add_watch` and `remove_watch` over the watches of one.
//!
//! **Not promised.** That the points which a caller passes rise: the store holds none, and refuses a change or a making past 2^62. That
//! what is installed was prepared on the value that the atom has now: `install` asks that the atom is there and its rule accepts the
//! value. That a `swap` doesn't return 'out of memory' instead of the refusal by its function or by the rule, or of the end of
//! points. The store calls no watch: the caller does. No contract speaks of time, or of how much memory is taken.
#![tactic(auto)]

mod asking;
pub mod atoms;
pub mod changes;
mod changing;
pub mod faults;
mod making;

pub use atoms::AtomStore;
pub use changes::{Cas, Change, Swapped};
pub use faults::AtomFault;
