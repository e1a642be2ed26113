//! Tests of shared worlds by one thread: of each call, and of the check of receipts against the log; and what these tests and those
//! by several threads, in `tests_threads` and `tests_waiting`, make their worlds with.
//!
//! | Modules | |
//! |---|---|
//! | `rows`, over `texts`, `acting`, `transacting` and `closing` | calls as rows of text, with what they say; most tests are tables of them |
//! | `calls`, `conflicts`, `finishing` | each call, what is made, transactions that are tried again, the end |
//! | `work`, `kept` | agents, how a sink hears of their actions, and what a world has when it comes out again |
//! | `folds` | what is dropped: receipts of folded entries, and actions that ended; a log that is folded in bites |
//! | `awaits`, `whens` | waiting for agents, and transactions that wait, where neither has to sleep |
//! | `seconds`, `missing` | each call on the second reference of its kind, and on one that isn't there |
//! | `strangers` | transactions that were begun in another world |
//! | `faults` | what faults say |
//! | `same` | an assertion |
//! | [`worlds`], [`jobs`] | making worlds and values, and what is read of them; two agents, and what runs their actions |
//! | [`scenarios`], [`steps`] | running a scenario on a new shared world; single steps on one |
//! | [`numbers`], [`tables`] | the number that a value is; a table that may want memory or predicates |
#![tactic(auto)]

#[cfg(test)]
mod acting;
#[cfg(test)]
mod awaits;
#[cfg(test)]
mod calls;
#[cfg(test)]
mod closing;
#[cfg(test)]
mod conflicts;
#[cfg(test)]
mod faults;
#[cfg(test)]
mod finishing;
#[cfg(test)]
mod folds;
pub mod jobs;
#[cfg(test)]
mod kept;
#[cfg(test)]
mod missing;
pub mod numbers;
#[cfg(test)]
mod rows;
#[cfg(test)]
mod same;
pub mod scenarios;
#[cfg(test)]
mod seconds;
pub mod steps;
#[cfg(test)]
mod strangers;
pub mod tables;
#[cfg(test)]
mod texts;
#[cfg(test)]
mod transacting;
#[cfg(test)]
mod whens;
#[cfg(test)]
mod work;
pub mod worlds;
