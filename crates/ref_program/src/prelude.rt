//! What a program brings in with one line.
pub use crate::declared::Declared;
pub use crate::faults::Fault;
pub use crate::programs::{Crew, CustomProgram, Ended, Program};
pub use crate::running::{run, run_custom};
pub use crate::values::{count, edn, get, int_of, keyword, text};
pub use crate::workers::Worker;
pub use ref_agents::ErrorMode;
pub use ref_fun::codes::{
    ASSOC, AT_LEAST, AT_MOST, CONJ, DEC, DISJ, DISSOC, EQUALS, INC, IS_INT, MAX, MIN, MINUS, PLUS,
};
pub use ref_fun::{Core, CoreFunctions, IntoArgs, IntoValue, Keyword};
pub use ref_log::Who;
pub use ref_refs::CommitFault;
pub use ref_tx::{Dosync, Readable, TxFault};
pub use ref_value::Value;
pub use ref_world::Books;
pub use std::alloc::Global;
pub use std::sync::Wait;
pub use std::thread::Threads;
