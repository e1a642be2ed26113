//! The world of references: refs, atoms and agents together, with the log of all that changed refs and atoms.
//!
//! A [`World`] is always so that its log, replayed entry by entry on its base, gives the values of refs and atoms; that each agent's
//! state is its start folded over its done actions; and that each rule, Clojure's validator, accepts its reference's value. Each call
//! is one step that needs nobody else, and one that is refused changes nothing.
//!
//! [`World::begin`] returns a transaction and [`World::commit`] commits it; [`World::swap`], [`World::reset`] and
//! [`World::compare_and_set`] change an atom; [`World::make_ref`] and [`World::make_atom`] make a reference. Each of these changes adds
//! one entry at the next point, also where all values stay; a comparison that answers false adds none. Agents have no entries: what is
//! sent waits in a queue, where a commit's sends are held until [`World::release`], which is for when its watches were called. So is what
//! an action carried, until [`World::release_carried`].
//! [`World::take`] returns a job, which is run without the world and comes back to [`World::finish`] or [`World::put_back`].
//!
//! | Type | Is |
//! |---|---|
//! | [`World`] | refs, atoms and agents, at most 2^20 of each, with a base and a log; it counts its commits |
//! | [`Booked`] | a world with its books: its commits and changes of atoms are counted in a share, too ([`Booked::commit_with`]) |
//! | [`Start`], [`RefStart`], [`AtomStart`], [`AgentStart`] | what a world begins with ([`World::new`]), and the parts of that |
//! | [`Share`] | what commits and changes of atoms are counted in, and how far its holder knows the history. It is split and joined; one with [`ALL_PARTS`] has what the books have |
//! | [`History`], [`Front`] | what the world began with, and each of its entries, as all threads know it; and the history up to some point |
//! | [`Known`], [`Place`] | the beginning of a transaction at a point of the history, and what is left of it when the transaction is closed |
//! | [`Books`], [`Blanks`] | which world's books and shares these are: a type parameter; and what its books are made of |
//! | [`Receipt`] | what a commit returns. A share stores the point of each entry that was added with it |
//! | [`Totals`] | what was counted: how many commits there were, and how much they added to the tally and took from it |
//! | [`theorems`] | laws of every legal history, to cite of what threads did |
//! | [`View`] | base and log as they were ([`World::view`]), to be read while the world goes on |
//! | [`CheckpointFault`] | why [`World::checkpoint`] folded nothing. Other calls have the faults of the stores and of `ref_log` |
//!
//! **One history.** Each entry of a world with books is recorded in one story, which only the world adds to. What a holder of a share knows of it
//! stays true: a [`Front`] begins each later front of the same world, so two threads never know different pasts. [`Booked::begin`] states
//! that a transaction begins with the values that the history up to its read point gives, and [`Booked::commit_with`] that what the
//! transaction protects has not changed between that point and the entry that the commit adds. Nothing of this takes memory or time at run
//! time, but for the point in a front.
//!
//! Take a [`World`] where one thread has all of it, as in `crates/bank`; otherwise, where threads share it, take `ref_shared`. A store
//! alone will do where there is one kind of reference and no log.
//!
//! **Costs.** `begin` and `view` take constant time and no memory, whatever the number of refs and entries. A commit, a change of an atom
//! and a making cost what they do in their stores and a push to the log, a [`ref_pvec::PVec`]; a commit also takes a step for each send,
//! logarithmic in the number of agents with actions that wait. A checkpoint costs a replay of the entries that it folds, a step for each
//! ref and atom, and a logarithm of the entries that are left; a join a step for each receipt of the other share. The log holds an entry
//! until it is folded, a share each receipt until it forgets it ([`Booked::forget`]), and an account each action that ended until a restart or
//! a fold ([`World::fold_agent`]). A receipt in a share takes
//! eight bytes.
//!
//! **Not promised.** That a share which was dropped comes back: no other one is whole then. That a transaction of this world has nothing
//! foreign, or that one of another world is refused. That watches are called and sends released: both are for the caller. Which agent
//! `take` finds, and that an action is ever run. That what is refused after a growth, as by a function, isn't returned as 'out of memory'.
//! No contract speaks of time, or of how much memory is taken.
#![tactic(auto)]

mod agents;
mod atoms;
pub mod beginnings;
pub mod booked;
mod checkpoints;
mod commits;
mod counts;
mod declared;
pub mod faults;
pub mod histories;
pub mod ledgers;
mod making;
pub mod names;
mod references;
pub mod shares;
pub mod theorems;
pub mod views;
pub mod worlds;

pub use beginnings::{Known, Opening, Place, Preparing};
pub use booked::Booked;
pub use commits::Receipt;
pub use counts::MOST_BOOKED;
pub use faults::CheckpointFault;
pub use histories::{Act, Front, History};
pub use ledgers::Ledgers;
pub use names::{Added, Blanks, Books, Commits, Taken};
pub use ref_agents::{AgentStart, AtomStart, RefStart, Start, starts};
pub use shares::{ALL_PARTS, Share};
pub use views::View;
pub use worlds::{Totals, World};
