//! Tests of shared worlds by several threads; and what these tests and those in `tests_waiting` wait with and run actions with.
//!
//! No clause says what another thread does between two calls, so this is tested. Where the order of two threads matters, gates
//! and sinks hold one until the other has come so far. Each wait of a test ends by itself.
//!
//! | Modules | |
//! |---|---|
//! | `cases`, `same` | each case on a shared world of its own; an assertion |
//! | `threads`, `side_by_side`, `stress` | transactions, agents, all together |
//! | `chains` | by five: 64 agents whose actions send on |
//! | `checkpoints` | views and checkpoints, a view read by another thread |
//! | `looks` | by two: at each step between, the lock is free |
//! | `waking`, `releases`, `next_actions` | by two or three: who waits for an agent is woken |
//! | [`seats`] | what two threads come to that sell the last seats: the contract says it, whatever their order |
//! | [`flags`], [`waits`] | how far threads have come; waiting for another thread |
//! | [`pools`] | running actions |
#![tactic(auto)]

#[cfg(test)]
mod cases;
#[cfg(test)]
mod chains;
#[cfg(test)]
mod checkpoints;
pub mod flags;
#[cfg(test)]
mod looks;
#[cfg(test)]
mod next_actions;
pub mod pools;
#[cfg(test)]
mod releases;
#[cfg(test)]
mod same;
pub mod seats;
#[cfg(test)]
mod side_by_side;
#[cfg(test)]
mod stress;
#[cfg(test)]
mod threads;
pub mod waits;
#[cfg(test)]
mod waking;
