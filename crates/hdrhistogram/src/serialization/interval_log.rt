//! Interval logs: histograms of intervals of time, one on each line, with headers and comments
//! between them. A line has the bytes of its histogram in Base64.
//!
//! `IntervalLogWriterBuilder` starts a log, `IntervalLogWriter` writes it, and
//! `IntervalLogIterator` reads it in place. `TimedIntervals` has its intervals alone, with the times
//! at which they begin. `merge_log` adds the histograms of a log's chosen intervals.

mod buffer;
mod builder;
mod errors;
mod merge;
mod writer;

pub use builder::IntervalLogWriterBuilder;
pub use errors::{CommentError, IntervalLogWriterError};
pub use hdr_log::{
    IntervalLogHistogram, IntervalLogIterator, LogEntry, LogIteratorError, Tag, TimedInterval,
    TimedIntervals,
};
pub use merge::{
    IntervalChoice, IntervalFilter, MergeError, Merged, MergedChoice, TagChoice, merge_chosen,
    merge_log,
};
pub use writer::IntervalLogWriter;
