//! Tests of waiting by several threads, for agents and for an entry, and of when what an action carried is released. There is nothing
//! else here.
//!
//! No clause says what another thread does between two calls, so this is tested, as in `tests_threads`, with whose flags and gates one
//! thread waits for another. Each wait of a test ends by itself.
//!
//! | Modules | |
//! |---|---|
//! | `cases`, `same` | each case on a shared world of its own; an assertion |
//! | `awaits` | by two: who waits for agents returns once all is gone that was there when it came, and not before |
//! | `turns` | by four: of three who wait for an agent each returns in its turn |
//! | `whens` | by two: a transaction that waits is woken by each entry of another thread, and at the end |
//! | `many` | by two or more: many waits of several threads, each of which ends |
//! | `sleepers` | by four: one waits to run actions, while others wait for something else |
//! | `releasing` | by one: what an action carried is released once its sink has heard of its end |
#![tactic(auto)]

#[cfg(test)]
mod awaits;
#[cfg(test)]
mod cases;
#[cfg(test)]
mod many;
#[cfg(test)]
mod releasing;
#[cfg(test)]
mod same;
#[cfg(test)]
mod sleepers;
#[cfg(test)]
mod turns;
#[cfg(test)]
mod whens;
