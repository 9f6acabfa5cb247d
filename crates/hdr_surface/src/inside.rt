//! Values that have a bin.

use hdrhistogram::{Counter, CreationError, Histogram};
use std::alloc::Global;

/// `high` has a bin.
pub fn record_high<T: Counter>(histogram: &mut Histogram<T>) {
    histogram.record(histogram.high()).unwrap();
}

/// A source whose greatest value has a bin is added with correction.
pub fn add_correct<T: Counter>(target: &mut Histogram<T>, source: &Histogram<T>, interval: u64) {
    if target.bin_of(source.max()).is_some() {
        target.add_correct(source, interval).unwrap();
    }
}

/// The bounds of a histogram are allowed, so memory alone can fail.
pub fn same_bounds<T: Counter>(alloc: Global, histogram: &Histogram<T>) -> Option<Histogram<T>> {
    match Histogram::new_with_bounds(alloc, histogram.low(), histogram.high(), histogram.sigfig()) {
        Ok(made) => Some(made),
        Err(CreationError::OutOfMemory) => None,
        Err(CreationError::LowIsZero) => unreachable!(),
        Err(CreationError::LowExceedsMax) => unreachable!(),
        Err(CreationError::HighLessThanTwiceLow) => unreachable!(),
        Err(CreationError::SigFigExceedsMax) => unreachable!(),
        Err(CreationError::CannotRepresentSigFigBeyondLow) => unreachable!(),
        Err(CreationError::UsizeTypeTooSmall) => unreachable!(),
    }
}
