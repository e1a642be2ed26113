//! Tests of programs of threads: what comes of one, what the calls of a worker do besides transactions, and how a run ends early.
//!
//! | Modules | |
//! |---|---|
//! | [`sales`] | workers who sell and helpers who run what is sent; a contract states what all have done |
//! | `calls` | changes of atoms, of which a sink hears; what is folded |
//! | `ears` | a sink that stores as text what it hears |
//! | `ends` | what goes wrong at the start and in a worker, and what the run's fault says |
//! | `helpers` | what goes wrong in a helper |
//! | `races` | a transaction that another one overtakes, with few tries |
//! | `same` | an assertion |
//! | `several` | several references of each kind, and two workers with a sink each |
#![tactic(auto)]

#[cfg(test)]
mod calls;
#[cfg(test)]
mod ears;
#[cfg(test)]
mod ends;
#[cfg(test)]
mod helpers;
#[cfg(test)]
mod races;
pub mod sales;
#[cfg(test)]
mod same;
#[cfg(test)]
mod several;
