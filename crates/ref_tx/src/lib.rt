//! Transactions while they are open: reads and changes over a snapshot, which nobody else sees.
//!
//! A [`Tx`] is begun over the values of all refs at one point, its read point, and answers in-transaction values, as Clojure's page on
//! refs and transactions calls them: the value of the snapshot, after the transaction's own operations on that ref. It stores these
//! operations with their answers, and what it sends, for a commit, which is another crate's and applies them to the latest values.
//!
//! | Type | Is |
//! |---|---|
//! | [`Tx`] | a transaction, open or closed: its operations so far with their answers, and what it sends |
//! | [`Beginning`], [`Readable`], [`Comparable`] | what a transaction holds of the values that it began with: all while it is open, a [`Snapshot`] or what another crate has for one; once it is closed what a commit asks for, as [`Starts`], which can be compared |
//! | [`Dosync`] | a [`Tx`] with its allocator and functions, so that its calls are as short as Clojure's |
//! | [`TxFault`] | why a call of it was refused; the transaction is then as it was |
//! | [`Snapshot`] | all refs at one point, by number; one that is shared and then gets another value has all else in common with it |
//! | [`Version`] | a ref in a snapshot: its value, and the point of its last change |
//!
//! The calls are Clojure's: [`Tx::deref`], [`Tx::ref_set`] for `ref-set`, [`Tx::alter`], [`Tx::commute`], [`Tx::ensure`] and [`Tx::send`];
//! [`Tx::require`] asks whether a rule, Clojure's validator, accepts the in-transaction value of a ref. A `Tx` borrows nothing, and what
//! it shares with others never changes: the values of its snapshot. So a body that works with it waits for nobody.
//!
//! Take it where you write the body of a transaction: `ref_shared::Shared::transact` lends it a `Tx`, and `ref_world::World::begin`
//! answers one. Otherwise take `ref_refs`, or what stands above it: [`Tx::start`] and [`Snapshot`] are for a store of refs, as that is.
//!
//! **Costs.** A call on a ref looks it up among all refs and among those that the transaction has operated on, each in logarithmic time,
//! and calls its function or asks its rule; `send` looks its function up in the table and doesn't call it. `deref` and `require` take
//! no memory; operations and sends are stored, for the entry of the commit too. The last 16 operations are looked through one by one;
//! of those before them a table has the value now of each ref. Most transactions have fewer and need no table. `start` and one more owner of a
//! snapshot take constant time and no memory; another value in a snapshot takes time and memory logarithmic in the number of refs.
//! The values of the read point are held as long as the transaction is open. [`Tx::close`] drops them but for those of the refs that it
//! protects, in a look-up for each operation: then others can change refs in place while it waits for its commit.
//!
//! **Not promised.** That a ref which was only read, by `deref` or `require`, still has its value at the commit: `ensure` is the remedy.
//! That the snapshot which `start` takes is that of the read point, and that there are so many agents: its caller says so. That a
//! function's refusal isn't returned as 'out of memory', and that a call succeeds where there is memory. No contract speaks of time, of how
//! much memory is taken, of which snapshots share what, or of the last changes in the snapshot that a `Tx` lends.
#![tactic(auto)]

pub mod beginnings;
pub mod dosync;
pub mod faults;
pub mod snapshots;
mod tables;
pub mod transactions;

pub use beginnings::{Beginning, Comparable, Readable, Starts};
pub use dosync::Dosync;
pub use faults::TxFault;
pub use snapshots::{Snapshot, Version};
pub use transactions::Tx;
