//! Programs of threads over one shared world.
//!
//! A [`Program`] says what its world begins with and what each worker does. [`run`] does all the rest: it makes the world and puts it under
//! a lock, gives each worker a thread and a part of the share, has helpers run what is sent to agents, joins all, compares the log with what
//! the workers did, and returns the world with its totals. A [`Worker`] is what a thread has: it runs transactions, changes atoms, and
//! sends to agents. A [`Dosync`] is a transaction as its body sees it.
//!
//! ```text
//! worker.transact(|tx| sell(tx, good))?;
//!
//! fn sell(tx: &mut Dosync, good: Good) -> Result<(), Fault> {
//!     tx.alter(good.stock, MINUS, 1)?;
//!     tx.commute(TAKINGS, PLUS, good.price)?;
//!     tx.send(TILL, PLUS, good.price)?;
//!     Ok(())
//! }
//! ```
//!
//! | Name | Is |
//! |---|---|
//! | [`Program`], [`run`] | a program whose functions are those of Core, and the call that runs it |
//! | [`CustomProgram`], [`run_custom`] | one with functions of its own, or with a sink that gets its notices |
//! | [`Crew`] | how many workers and helpers there are, and how often a transaction is tried |
//! | [`Declared`] | what a world is to begin with |
//! | [`Worker`], [`Dosync`] | what a thread has; a transaction |
//! | [`Ended`] | what comes of a run: the world, its totals, and the sinks |
//! | [`Fault`] | why a call was refused, or a program ended early: each library's faults, so that `?` is enough |
//! | [`edn`], [`text`], [`keyword`], [`get`], [`count`], [`int_of`] | values from their texts and back, and what is in them |
//! | [`prelude`] | all names that most programs need, for one line |
//!
//! Take it for a program whose threads share one world from its beginning to its end. Where threads come and go, or several worlds
//! are there, take `ref_shared`; on one thread `ref_world`.
//!
//! **What is promised of all threads.** A program says what each worker has done by its share, if its work ended well:
//! [`Program::did`]. Then [`run`] guarantees it of all of them at once, in whatever order they got on: the totals are the sums of shares of
//! which this holds, one for each worker.
//!
//! **Costs.** Those of `ref_shared`. A worker stores a receipt of each of its commits and changes of atoms until it forgets those that are
//! folded ([`Worker::forget`]), eight bytes each.
//!
//! **Not promised.** That a worker gets on: a body may be tried again until its tries are used up, and a wait may last. That an action is ever
//! run: without a helper none is.
#![tactic(auto)]

pub mod declared;
pub mod faults;
pub mod prelude;
pub mod programs;
pub mod running;
pub mod stamps;
pub mod values;
pub mod workers;

pub use declared::Declared;
pub use faults::Fault;
pub use programs::{Crew, CustomProgram, Ended, Program};
pub use ref_fun::{IntoArgs, IntoValue, Keyword};
pub use ref_tx::Dosync;
pub use running::{run, run_custom};
pub use values::{count, edn, get, int_of, keyword, text};
pub use workers::Worker;
