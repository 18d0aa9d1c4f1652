//! Admitted tables: task sets that fit their cycle.
#![tactic(auto)]

pub(crate) mod base;
pub(crate) mod common;
pub(crate) mod cycle;
pub(crate) mod level;
pub mod table;
pub(crate) mod tasks;
pub mod workload;

pub use table::Table;
pub use workload::Workload;

#[cfg(test)]
mod tests;
