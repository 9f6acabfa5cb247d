//! Constructors with valid digits.

use hdr_base::Scale;
use hdrhistogram::serialization::interval_log::{IntervalFilter, MergeError, Merged, merge_log};
use hdrhistogram::{Counter, CreationError, Histogram};
use std::alloc::Global;

/// Any digits: a `low` of 1 and a `high` of 2 are never errors.
pub fn new_of<T: Counter>(alloc: Global, sigfig: u8) -> Option<Histogram<T>> {
    match Histogram::new(alloc, sigfig) {
        Ok(histogram) => Some(histogram),
        Err(CreationError::OutOfMemory) => None,
        Err(CreationError::SigFigExceedsMax) => None,
        Err(CreationError::LowIsZero) => unreachable!(),
        Err(CreationError::LowExceedsMax) => unreachable!(),
        Err(CreationError::HighLessThanTwiceLow) => unreachable!(),
        Err(CreationError::CannotRepresentSigFigBeyondLow) => unreachable!(),
        Err(CreationError::UsizeTypeTooSmall) => unreachable!(),
    }
}

/// Three digits are never an error of a merge.
pub fn merge<T: Counter>(
    alloc: Global,
    log: &[u8],
    filter: &IntervalFilter<'_>,
) -> Option<Merged<T>> {
    match merge_log(alloc, log, filter, 3) {
        Ok(merged) => Some(merged),
        Err(MergeError::Creation(_)) => unreachable!(),
        Err(MergeError::Parse { offset: _ }) => None,
        Err(MergeError::Base64 { interval: _ }) => None,
        Err(
            MergeError::Decode {
                interval: _,
                cause: _,
            },
        ) => None,
        Err(MergeError::OutOfMemory) => None,
    }
}

/// Three digits above 1 are a scale.
pub fn default_scale() -> Scale {
    Scale::new(1, 3).unwrap()
}
