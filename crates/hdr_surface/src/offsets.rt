//! Offsets and numerators that need no test.

use hdrhistogram::serialization::interval_log::{IntervalLogIterator, LogEntry, LogIteratorError};
use hdrhistogram::{Counter, IterationValue};

/// Returns the part of a log that is not read: the offset of an error lies in the log.
pub fn unread(log: &[u8]) -> &[u8] {
    for entry in IntervalLogIterator::new(log) {
        match entry {
            Ok(LogEntry::StartTime(_)) => {}
            Ok(LogEntry::BaseTime(_)) => {}
            Ok(LogEntry::Interval(_)) => {}
            Err(LogIteratorError::ParseError { offset }) => return &log[offset..],
        }
    }
    &[]
}

/// The numerator of an item fits 64 bits, as its constructor requires.
pub fn numerator_of_item<T: Counter>(item: &IterationValue<T>) -> u64 {
    item.quantile().num as u64
}
