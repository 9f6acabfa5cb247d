//! The figures of distributions, their texts, and levels that they have to keep.
#![tactic(auto)]

pub mod bars;
pub mod checks;
pub mod classes;
pub mod decimals;
pub mod figures;
pub mod formats;
pub mod levels;
pub mod means;
pub mod percentile;
pub mod verdicts;

pub use hdr_input::units;
