//! Tests of values and of tables of functions, by calls that are public, as far as no text says what is tested: what is read and printed of
//! texts, and what the functions of Core give, is in rows of `examples`.
#![tactic(auto)]

#[cfg(test)]
mod calls;
#[cfg(test)]
mod closures;
#[cfg(test)]
mod lengths;
#[cfg(test)]
mod same;
#[cfg(test)]
mod versions;
