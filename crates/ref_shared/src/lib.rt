//! A world that threads share.
//!
//! [`Shared`] holds a `ref_world::Booked` under one lock: [`Shared::transact`] runs a body on a transaction and commits it, as Clojure's
//! `dosync`, again and again where it is in conflict; the calls on atoms and agents are one step each; a thread that calls
//! [`Shared::work_once`] in a loop runs the actions of agents, until [`Shared::close`]. [`Shared::await_agents`] waits until what agents were
//! sent is done, and [`Shared::transact_when`] until a transaction's body is ready. Each thread that changes refs or atoms has a share
//! of the world, which it got by [`ref_world::Share::split`]; at the end the shares are joined, and [`Shared::finish`] takes the world
//! out, with its totals, after it has compared the log with the receipts of all shares.
//!
//! | Name | Is |
//! |---|---|
//! | [`Shared`] | the world under its lock; whenever the lock is free, all holds that the types `World` and `Booked` guarantee |
//! | [`Body`], [`OnTx`], [`OnDosync`] | what a transaction runs, of any meaning, and a closure as one, over a `Tx` or a `Dosync` |
//! | [`Gate`], [`Spot`], [`Open`] | what is called between two steps, where that is, and a gate that lets all pass |
//! | [`WatchSink`], [`Quiet`], [`tell`] | who gets the notices of a commit or an action, and how an action ended; a sink that drops both; and giving one notices in order |
//! | [`Worked`], [`WorkFault`] | what a call of `work_once` did, and why it didn't run an action to its end |
//! | [`TransactFault`] | why a transaction came to no commit: it gave up, its body ended it, or its commit or memory was refused |
//! | [`WaitFault`], [`AwaitFault`] | why a transaction that waits came to no commit, and why not all was done that was waited for |
//! | [`match_receipts`], [`GatherFault`] | the comparison of a log with receipts, which `finish` makes, and why they don't fit |
//! | [`folded_receipts_say_nothing`] | a law of it: [`Shared::forget`] changes nothing that it says |
//! | [`theorems`] | laws of what threads commit, to cite |
//!
//! Take it where threads that come and go share refs, atoms and agents; for a program whose threads all begin and end with their world
//! `ref_program` is shorter. On one thread take `ref_world`, whose calls wait for nobody. `transact` and `transact_when` take a closure,
//! where functions mean what Core's mean; [`Shared::transact_body`] and [`Shared::transact_body_when`] take a [`Body`] of any meaning, and
//! its commit compares no value ([`Shared::transact_as`] is for a body that is one over a snapshot alone).
//!
//! **One history.** A share knows the history of its world up to some point, and each call that begins, commits or changes an atom lets it know
//! more. What it knew begins what it knows then, and two shares of one world never know different entries at one point. So a clause of such a
//! call says what it found under the lock: `begin` reads the values after all that the share then knows, and the entry of a commit or a change
//! is the last of it.
//!
//! **Costs.** Each call takes the lock once, and costs what its call of the world costs; `transact` takes it twice for each try, and once
//! more where what was committed sent something; `transact_when` does so too, and takes it once more for each call of a body that isn't
//! ready, and each time when it is woken, as `await_agents` does; `work_once` takes it for the job and for its end, and once more where its
//! action sends something on; `checkpoint_in_bites` takes it for each bite; `new` and `finish` don't. Each entry wakes all transactions
//! that wait, and with them those who wait for agents; an end of an action wakes them only where somebody waits for that one. An entry that
//! nobody waits for costs a comparison, and the end of an action a look-up while somebody waits for an agent. A body, an action, a gate and
//! a sink run with the lock free. Functions of the table run under it where a commit commutes, an atom is swapped or a rule is asked, so
//! they are to be quick; a checkpoint holds it for a replay of the entries that it folds, and `fold_agent` for a step for each action that
//! it drops. `finish` is linear in the sizes of log and receipts, but for logarithms of the workers and of the entries, and takes a byte
//! for each entry and some for each worker.
//!
//! **Not promised.** Which thread comes first, how often a transaction is tried within its limit and whether it gets through, that a waiter
//! ever wakes or an action is ever run, and how long anything takes; a call that locks or waits holds its promise where it returns. That
//! agents, rules and watches which were found at one lock are so at the next, and in which order two threads deliver their notices. Of the
//! calls on a `Shared` only `begin`, `commit`, those that begin with `transact`, `work_once`, those on atoms, `value_of`, `make_ref`,
//! `make_atom`, `forget` and `finish` have clauses, the checkpoints those that say which points are there, and `await_agents` one that says
//! which agent a fault names: what the others do, that a wait ends when it should and not before, how many entries are folded, that
//! `transact` delivers the notices and then releases the sends, and that no lock is held over a body, an action, a gate or a sink, is only
//! tested.
#![tactic(auto)]

pub mod bodies;
pub mod faults;
mod folding;
mod gates;
mod gathering;
mod matching;
mod order;
mod shared;
pub mod theorems;
mod transacting;
mod waiters;
mod waiting;
mod working;

pub use bodies::{Body, OnDosync, OnTx};
pub use faults::{AwaitFault, GatherFault, TransactFault, WaitFault, WorkFault};
pub use gates::{Gate, Open, Quiet, Spot, WatchSink, tell};
pub use gathering::{folded_receipts_say_nothing, match_receipts};
pub use shared::Shared;
pub use working::Worked;
