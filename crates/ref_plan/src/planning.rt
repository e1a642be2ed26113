//! How a workload is read.

pub mod declarations;
pub mod hashing;
pub mod names;
pub mod operations;
pub mod parts;
pub mod references;
pub mod steps;
