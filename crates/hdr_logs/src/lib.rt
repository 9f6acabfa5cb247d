//! Interval logs, read line by line from any reader: their chosen intervals with the times at which they begin, copies of these, whose
//! values can be converted to one scale, and their sums.
//!
//! Histograms that are compressed, or of another version, are converted. An empty tag counts as
//! none. A last line without a line feed counts if it is a complete interval, and is otherwise left out.
#![tactic(auto)]

mod adding;
mod aligning;
mod conversion;
mod errors;
mod file_names;
mod headers;
mod interval;
mod intervals;
pub mod laws;
mod lines;
mod note;
mod parser;
mod place;
mod plain;
mod reader;
mod scales;
mod stored;
mod sums;

pub use adding::add;
pub use errors::LogError;
pub use file_names::name_in_tags;
pub use headers::{check_decimals, check_unit, decimals_comment, unit_comment};
pub use interval::Interval;
pub use intervals::LogIntervals;
pub use note::{Note, NoteKind};
pub use place::Place;
pub use reader::{LineBuffer, LogLine, LogReader};
pub use stored::StoredInterval;
pub use sums::sink::HistogramSink;
pub use sums::{LogSums, TagSum};
