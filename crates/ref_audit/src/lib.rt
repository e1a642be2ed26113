//! Dumps of worlds, the audit of a world's own dump, and the report of a run.
//!
//! [`dump`] makes one EDN value of a world (docs/DUMPS.md), which [`audit`] of `ref_verdict` judges, and [`reporting`] writes the lines of
//! a report. [`audit_world`] returns the verdict on the dump of a world that is there, without the dump, and [`own_dump_is_ok`] is the law
//! that it is ok.
//!
//! | Type | Is |
//! |---|---|
//! | [`DumpMakeFault`] | why no dump of a world was made |
//! | [`Word`] | a keyword of dumps: a key, a tag, a mark or a status |
//! | [`Names`] | the names of refs, atoms and agents, by number |
//! | [`Refusal`], [`Reason`] | a step that was refused, and why |
//!
//! The types of `ref_verdict` are exported here too: [`Verdict`], [`DumpFault`], [`Key`], [`Changed`], [`Kept`] and [`KeptAgent`].
//!
//! All are linear in the world, but for the functions that a replay calls and the comparisons of its answers.
#![tactic(auto)]

pub mod dumping;
pub mod faults;
mod kinds;
pub mod own_audit;
pub mod reporting;
pub mod reports;
pub mod words;

pub use dumping::dump;
pub use faults::DumpMakeFault;
pub use own_audit::{audit_world, own_dump_is_ok};
pub use ref_verdict::{
    Changed, DumpFault, Kept, KeptAgent, Key, Verdict, audit, auditor, read_dump, reading,
};
pub use reporting::{append_number, line_of, report, word_of};
pub use reports::{Names, Reason, Refusal};
pub use words::Word;
