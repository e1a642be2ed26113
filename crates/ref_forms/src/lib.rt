//! What the forms in documents say.
//!
//! Workloads, lists of events and dumps are EDN values, and each has forms that the others have too: numbers, keywords, functions and
//! predicates of [`Core`](ref_fun::Core) with their arguments, rules, error modes, references with what is done to them. They are
//! read here, and nowhere else.
//!
//! | Modules | |
//! |---|---|
//! | [`plain`] | numbers, keywords, symbols, vectors |
//! | [`calls`] | functions and predicates with their arguments, rules; [`Values`]: which values a document takes |
//! | [`kinds`], [`references`] | what is done to a reference; [`Naming`]: how a document names references |
//! | [`carrying`] | sends that carry sends |
//! | [`maps`] | maps with keywords as keys |
//! | [`marks`] | error modes, and marks that may be left out |
//! | [`names`] | [`Names`]: the names of refs, atoms and agents, each kind by number |
//! | [`wrong`] | why a form isn't read |
//!
//! Each contract has one clause: `Reads (said form) result`, where `said` is what the form says, or that it says nothing. All are
//! linear in the form. A fault of the form comes before that of a name, and this before that of a function; no contract says so.
#![tactic(auto)]

pub mod calls;
pub mod carrying;
pub mod kinds;
pub mod maps;
pub mod marks;
pub mod names;
pub mod plain;
pub mod references;
pub mod wrong;

pub use calls::{AnyValue, Values};
pub use kinds::Kind;
pub use names::Names;
pub use references::Naming;
pub use wrong::Wrong;
