//! The words of calls: what a step of a workload, an operation of a transaction and an act of a list of events begin with.
//!
//! One table, [`words::WORDS`], has a row for each word: where it stands, what stands behind it, how that is written, and what
//! Clojure calls it. Workloads and lists of events are read by it, faults are explained by it, and the lists of words in the help of
//! the program and in the documents are written from it.
//!
//! | Modules | |
//! |---|---|
//! | [`words`] | [`StepWord`], [`OperationWord`], [`ActWord`]: what a word says; the table |
//! | [`rows`], [`slots`] | [`Word`], a row of the table; [`Slot`]: what stands at a place behind a word |
//! | [`finding`] | the word of a text |
//! | [`lists`] | words, forms and names as they are written |
//!
//! A word is found in time proportional to the table.
#![tactic(auto)]

pub mod finding;
pub mod lists;
pub mod rows;
pub mod slots;
pub mod words;

pub use finding::{act_named, operation_named, step_named, word_named};
pub use lists::{functions, predicates};
pub use rows::{Stands, Word};
pub use slots::Slot;
pub use words::{
    ActWord, AgentWord, AtomWord, JobWord, MakingWord, OperationWord, ReferenceWord, Sentence,
    StepWord, TxWord, Version, WORDS, WorldWord,
};
