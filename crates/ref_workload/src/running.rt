//! The threads of a run.
mod reasons;
mod steps;
pub(crate) mod threads;
mod workers;

pub(crate) use threads::run_threads;
pub(crate) use workers::Run;
