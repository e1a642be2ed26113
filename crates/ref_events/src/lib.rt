//! Lists of events: what the text of one says must be played.
//!
//! [`scripts::script_of`] tests that a value is a list of events (docs/EVENTS.md), numbers its names, and returns a [`Script`].
//! `ref_player` plays scripts; this crate needs no world for them.
//!
//! | Type | Is |
//! |---|---|
//! | [`Script`] | the references that are declared, with their names, the events, and how each is written |
//! | [`ScriptFault`] | why a value is no list of events |
//!
//! All are linear in the text, but for the look-ups of names.
#![tactic(auto)]

mod acts;
mod events;
pub mod faults;
mod makings;
mod references;
pub mod scripts;
mod words;

pub use faults::ScriptFault;
pub use scripts::{Script, ScriptParts, script_of};
