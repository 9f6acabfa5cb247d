//! The histogram as numbers alone: its definitions, what is true of them, and the errors of calls. It has no counters.
#![tactic(auto)]

pub mod errors;
pub mod laws;

pub use errors::{AdditionError, CreationError, RecordError, SubtractionError, UsizeTypeTooSmall};
