//! The play of a list of events on one thread, and what is written of it.
//!
//! [`texts::play_events`] reads a list of events (docs/EVENTS.md), plays it by `ref_play`'s [`Sim`](ref_play::Sim), and writes a line for
//! each event, and then the report or the dump of the world that it came to.
//!
//! | Module | Is |
//! |---|---|
//! | [`texts`] | the play of a text ([`play_text`]), or from a reader to a writer ([`play_events`]) |
//! | [`plays`] | the play of a [`Script`](ref_events::Script) |
//! | [`lines`] | the lines of a play |
//! | [`faults`] | why a list of events isn't played to its end ([`PlayFault`]) |
//!
//! A play costs what its events do, and the audit of the world that it came to. Guaranteed: what is written is the lines of the replies
//! of a run of `ref_play`'s machine, with its laws, and the report or the dump of the world that this run came to.
#![tactic(auto)]

mod fault_words;
pub mod faults;
pub mod lines;
pub mod plays;
mod replies;
pub mod texts;

pub use faults::PlayFault;
pub use texts::{play_events, play_text};
