//! Merges the logs of many hosts, interval by interval.
//!
//! Intervals of the same tag that begin at the same time become one interval, which holds the
//! samples of all of them. The log that is written is in ascending order of time, and then of tag,
//! where no tag comes first. It can be gathered again with others, so that merging goes on in
//! stages.
//!
//! A time is the interval's start after the last base time before it in its log, to the nearest
//! millisecond, as logs are written. What is written has no base time. An interval is as long as
//! the longest of its parts.
#![tactic(auto)]

mod gathering;
mod order;
mod peekable;
mod sum;
mod writing;

pub use gathering::{gather_sorted, gather_unsorted, have_one_scale};
pub use peekable::PeekableLog;
pub use sum::Counts;
