//! Lists of events of any number of actors, played on a world by one thread.
//!
//! A [`Sim`] is a world with its whole share, and of each actor at most one open transaction and one job. [`Sim::play`] plays a list of
//! [`Event`]s in order. Each is an [`Act`] of one actor: a call of the world, of the actor's open transaction, or of its job. It gets a
//! [`Reply`]: what the call returned, or why it wasn't made. An actor stands for a thread, and each act that touches the world for one
//! time that a thread holds the lock. So a schedule of threads can be played step by step, and played again.
//!
//! What holds of every such list is proved: [`runs_have_laws`] states it of each run of a machine whose history no checkpoint folds,
//! and [`Sim::play`] is such a run. The machine and its laws stand in `specs/`, in Present, Machine, Runs, Given and Laws.
//!
//! The machine is defined with the definitions that the contracts of calls cite too, such as when a commit is refused. So that an error
//! in one of them can't hide in both, each is proved to mean what is written a second time, in plain words and over plain lists: in
//! `specs/`, in Plain, PlainTx, PlainAgents, PlainAtoms and PlainMakes. The functions of [`theorems`] state these laws.
//!
//! | Type | Is |
//! |---|---|
//! | [`Sim`] | a world, its share and its actors |
//! | [`Event`], [`Act`] | an act of an actor, and the 34 kinds of acts |
//! | [`Reply`] | the reply to an actor |
//!
//! Use this to test how transactions, atoms and agents interact in a given order, without threads. Use `ref_world` for a program of one
//! thread, and `ref_shared` for threads.
//!
//! **Costs.** An event costs what its call costs, and a logarithm of the number of actors. [`Sim::play`] takes the memory for its list of
//! replies before the first event. What an act passes to its call (a value, arguments, a rule) gets one more owner. A [`Sim`] stores a
//! slot for each actor that ever began a transaction or took a job.
//!
//! **Not promised.** Which ready agent a `Take` finds. That a call isn't reported as 'out of memory' if there is memory. That the events
//! of a run of threads make a list with the same replies: how `ref_shared` is written shows it, and no contract states it.
#![tactic(auto)]

mod actors;
mod changing;
pub mod events;
mod jobs;
mod looking;
mod sending;
mod serving;
pub mod sims;
pub mod theorems;
mod transacting;
mod working;

pub use events::{Act, Event, Reply};
pub use sims::Sim;
pub use theorems::{runs_have_laws, steps_have_laws};
