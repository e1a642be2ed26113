//! Tests of calls that no list of events makes: by a table that lacks a function, with a transaction or a job of another world, at the
//! last point, on a share; and of what faults say. There is nothing else here. What lists of events show is in `examples/play-*.rows`.
//!
//! A row is a line: what comes of it, and behind each ` | ` what there is, as in a list of events (docs/EVENTS.md) without `{:version 1 ..}`.
//! Acts of actor 9 are made by hand, on what the list before them came to.
//!
//! | Modules | |
//! |---|---|
//! | `rows` | the rows, and how they are asked |
//! | `served` | which tables serve a world and its actors, and what a table lacks for an act |
//! | `commits`, `agents`, `atoms`, `replays` | calls with a transaction or a job of another world, by a table that lacks something, and at the last point |
//! | `shares` | worlds with books: shares, views, commits that a share counts, and what is left at the end of a list |
//! | `tables`, `worlds`, `looks` | a table that lacks functions; worlds without books that a list came to; what is done with them |
//! | `words` | what faults say |
#![tactic(auto)]

#[cfg(test)]
mod agents;
#[cfg(test)]
mod atoms;
#[cfg(test)]
mod commits;
#[cfg(test)]
mod looks;
#[cfg(test)]
mod replays;
#[cfg(test)]
mod rows;
#[cfg(test)]
mod served;
#[cfg(test)]
mod shares;
pub mod tables;
#[cfg(test)]
mod words;
pub mod worlds;
