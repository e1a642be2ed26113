//! Workloads as plans: what the text of a workload says must be run.
//!
//! [`plan::plan`] tests that a value is a workload (docs/WORKLOADS.md), numbers its names, and returns a [`Plan`]. `ref_workload` runs
//! plans; this crate needs no world for them. `ref_calls` has the words that steps and operations begin with.
//!
//! | Type | Is |
//! |---|---|
//! | [`Plan`] | the references that are declared, with their names, the steps of each worker, and the size of the pool |
//! | [`Step`] | what a worker does next |
//! | [`PlannedOps`] | the operations of a transaction |
//! | [`PlannedOp`] | one of them |
//! | [`PlanFault`] | why a value is no workload |
//!
//! Planning is linear in the text, but for the look-ups of names. Guaranteed: a plan that is returned is what the workload says, and a
//! value that is refused, for another reason than memory, is no workload. Not guaranteed: which of several faults is returned.
#![tactic(auto)]

pub mod plan;
pub mod plan_faults;
pub mod planning;
pub mod plans;
pub mod versions;

pub use plan_faults::PlanFault;
pub use plans::{Plan, PlannedOp, PlannedOps, Step};
