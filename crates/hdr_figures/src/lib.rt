//! The figures of interval logs: of all samples, of each tag and of each point of time.
#![tactic(auto)]

pub mod breaks;
mod classes;
pub mod figures;
pub mod level;
pub mod sum;
pub mod sums;
pub mod timeline;
