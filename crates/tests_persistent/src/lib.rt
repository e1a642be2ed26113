//! Tests of persistent vectors and maps by their public calls, each against a plain slow structure. There is nothing else here
//! than these and the numbers that they draw.
#![tactic(auto)]

#[cfg(test)]
mod by_number;
pub mod drawing;
#[cfg(test)]
mod lists;
#[cfg(test)]
mod nested;
#[cfg(test)]
mod numbered;
