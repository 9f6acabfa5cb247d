//! The lines of interval logs: parsing, without copies, and formatting. It does not depend on histograms.
#![tactic(auto)]

mod entry;
pub mod field;
mod iterator;
pub mod laws;
pub mod line;
pub mod parts;
mod tag;
pub mod text;
mod timed;

pub use entry::{IntervalLogHistogram, LogEntry, LogIteratorError};
pub use iterator::IntervalLogIterator;
pub use tag::Tag;
pub use timed::{LastBaseTime, TimedInterval, TimedIntervals};
