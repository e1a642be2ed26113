//! Tests of runs of workloads, of dumps, and of what faults say, by calls that are public, as far as `refrun` doesn't show it: what it shows is
//! in rows of `examples`.
//!
//! No clause says which thread comes first, nor that the workers run side by side, so this is tested. Gates hold one thread until another
//! has come so far. Each wait of a test ends by itself. `runs` runs a text with `gates`, by one of the `tables` of functions.
#![tactic(auto)]

#[cfg(test)]
mod dumps;
#[cfg(test)]
mod faults;
#[cfg(test)]
mod gated;
#[cfg(test)]
mod gates;
#[cfg(test)]
mod runs;
#[cfg(test)]
mod same;
pub mod tables;
#[cfg(test)]
mod tries;
