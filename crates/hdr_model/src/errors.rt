//! The errors of the calls on a histogram.

use thiserror::Error;

/// Why a histogram is not made. If several of these hold, the first is returned; `OutOfMemory` is last.
#[derive(Debug, PartialEq, Eq, Drop, Error)]
pub enum CreationError {
    #[error("Lowest discernible value must be >= 1")]
    LowIsZero,
    #[error("Lowest discernible value must be <= `u64::MAX / 2`")]
    LowExceedsMax,
    #[error("Highest trackable value must be >= 2 * lowest discernible value for some internal calculations")]
    HighLessThanTwiceLow,
    #[error("Number of significant digits must be in the range `[0, 5]`")]
    SigFigExceedsMax,
    #[error("Cannot represent sigfig worth of values beyond the lowest discernible value")]
    CannotRepresentSigFigBeyondLow,
    /// Never comes on a machine of 64 bits.
    #[error("The `usize` type is too small to represent the desired configuration")]
    UsizeTypeTooSmall,
    #[error("Out of memory")]
    OutOfMemory,
}

/// Why a value was not recorded.
#[derive(Debug, PartialEq, Eq, Drop, Error)]
pub enum RecordError {
    #[error("The value to record is not representable in this histogram and resizing is disabled")]
    ValueOutOfRangeResizeDisabled,
    /// Never comes on a machine of 64 bits.
    #[error("Auto resizing is enabled and must be used to represent the provided value, but the histogram cannot be resized because `usize` cannot represent sufficient length")]
    ResizeFailedUsizeTypeTooSmall,
    #[error("Out of memory")]
    OutOfMemory,
}

/// Why a histogram was not added.
#[derive(Debug, PartialEq, Eq, Drop, Error)]
pub enum AdditionError {
    #[error("The other histogram includes values that do not fit in this histogram's range")]
    OtherAddendValueExceedsRange,
    /// Never comes on a machine of 64 bits.
    #[error("The other histogram includes values that would map to indexes in this histogram that are not expressible for `usize`")]
    ResizeFailedUsizeTypeTooSmall,
    #[error("Out of memory")]
    OutOfMemory,
}

/// Why a histogram was not subtracted.
#[derive(Debug, PartialEq, Eq, Drop, Error)]
pub enum SubtractionError {
    #[error("The other histogram includes values that do not fit in this histogram's range")]
    SubtrahendValueExceedsMinuendRange,
    #[error("The other histogram includes counts that are higher than the current count for a value, and counts cannot go negative")]
    SubtrahendCountExceedsMinuendCount,
}

/// A configuration that a `usize` can't represent. Never comes on a machine of 64 bits.
#[derive(Debug, Drop, Error)]
#[error("The `usize` type is too small to represent the desired configuration")]
pub struct UsizeTypeTooSmall;
